/// What the value of a key has to be.
#[derive(Clone, Copy)]
pub enum Shape {
    /// A whole number of this range.
    Number { low: u64, high: u64 },
    /// A whole number: a bound of a value.
    Bound,
    /// A text of 1 to 32 characters, none of them a space or beyond ASCII.
    Name,
    /// A text of at most 40 ASCII characters.
    Label,
    /// One of these words.
    Word(&'static [&'static str]),
    /// The name of a slave.
    Reference,
    /// A truth value.
    Truth,
    /// Two whole numbers of this range.
    Pair { low: u64, high: u64 },
    /// Two whole numbers from 1 on, the least and the greatest size.
    Sizes { most: u64 },
    /// Hexadecimal digits of so many octets.
    Octets { least: u64, most: u64 },
    /// A list of words, each at most once.
    Words(&'static [&'static str]),
    /// A list of pairs, a lost frame each.
    Losses,
    /// A list of tables.
    Tables { most: u64 },
}

/// Where a key has to stand in its table.
#[derive(Clone, Copy)]
pub enum Need {
    /// Always.
    Always,
    /// It may be left out.
    Optional,
    /// In a slave that serves EoE.
    OfEoe,
    /// In an entry of texts or octets.
    OfTexts,
}

/// A key of a table, with what is wanted of its value and why.
#[derive(Clone, Copy)]
pub struct Row {
    pub key: &'static str,
    pub need: Need,
    pub shape: Shape,
    pub wanted: &'static str,
    /// Empty where nothing is to be said.
    pub why: &'static str,
}

/// A table of a scenario.
#[derive(Clone, Copy)]
pub enum Kind {
    /// The top of the file.
    Top,
    Slave,
    Object,
    Entry,
    File,
    Idn,
    Service,
    Host,
}
