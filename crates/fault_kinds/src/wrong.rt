use crate::told::Found;
use scenario_keys::Place;

/// What is wrong with the value of a key.
#[derive(Drop)]
pub struct Wrong {
    /// What is wrong, in a line.
    pub head: String,
    /// What is told of the value.
    pub found: Found,
    /// What is wanted, where it isn't what the key wants in general.
    pub wanted: Option<String>,
    /// What to write in its place.
    pub remedy: Option<String>,
    /// The word that may have been meant.
    pub meant: Option<String>,
    /// The table whose same key it contradicts.
    pub also: Option<Place>,
}

impl Wrong {
    /// A fault of which only this line is told.
    pub fn told(head: String) -> Wrong {
        Wrong {
            head,
            found: Found::Value,
            wanted: None,
            remedy: None,
            meant: None,
            also: None,
        }
    }
}
