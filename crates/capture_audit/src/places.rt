ghost use Rattle.std.specs.Prelude.{◌≡◌, ◌==◌, ◌<◌, [], ◌∷◌, ◌++◌, length, position, None, IfSome, IfOk, OnOk, OnErr};

use ec_fields::{NoMemory, Rows};
use indexmap::IndexSet;
use std::alloc::Global;
use std::marker::Model;

/// The stations of a list of rows, in its order: they tell in one step, however many there are, where a station's row
/// stands.
#[derive(Drop)]
pub struct Places {
    stations: IndexSet<u16>,
}

impl Model for Places {
    ghost use Rattle.std.specs.Prelude.{ℕ, List};

    ghost Value = { List ℕ };

    ghost view = { λ p. p.stations.keys };
}

impl Places {
    /// No stations. They take no memory yet.
    pub fn new(alloc: Global) -> Places
        ensures { result ≡ [] }
    {
        Places {
            stations: IndexSet::new(alloc),
        }
    }

    /// The place of a station, counted from 0; `None` exactly where it has none.
    pub fn place(&self, station: u16) -> Option<usize>
        ensures value { result ≡ position (λ s. s == station) self.now }
        ensures inside { IfSome result (λ at. at < length self.now) }
    {
        self.stations.get_index_of(&station)
    }

    /// A new station's row is put behind the others; its place. After `NoMemory` both are as before.
    pub fn add_row<T: Drop>(
        &mut self,
        rows: &mut Rows<T>,
        station: u16,
        row: T,
    ) -> Result<usize, NoMemory>
        requires new { position (λ s. s == station) self.old ≡ None }
        requires in_step { length self.old ≡ length rows.old }
        ensures at { IfOk result (λ at. at ≡ length rows.old) }
        ensures added { OnOk result ((self.new ≡ self.old ++ station ∷ []) × (rows.new ≡ rows.old ++ row ∷ [])) }
        ensures err { OnErr result ((self.new ≡ self.old) × (rows.new ≡ rows.old)) }
    {
        let at = rows.len();
        if self.stations.insert(station).is_err() {
            return Err(NoMemory);
        }
        match rows.add(row) {
            Ok(()) => Ok(at),
            Err(_) => {
                self.stations.truncate(at);
                Err(NoMemory)
            }
        }
    }
}
