use bounded_list::BoundedList;

/// One access of a core to a word.
#[derive(Clone, Copy, Debug, PartialEq, Eq)]
pub struct Access {
    /// The number of the word that was accessed.
    pub word: u32,
    /// How many accesses the word had before this one.
    pub number: u32,
    /// The payload that the access found.
    pub found: u32,
}

/// One unit of a core.
#[derive(Clone, Copy, Debug, PartialEq, Eq)]
pub struct Entry {
    /// The access that the unit made, if it made one.
    pub touch: Option<Access>,
}

/// The units of one core, in order.
pub type CoreLog = BoundedList<Entry>;

/// Core numbers, one for each unit of a run.
pub type Order = BoundedList<u8>;

/// Bytes of output.
pub type Bytes = BoundedList<u8>;

/// The place and the length of each piece of output.
pub type Pieces = BoundedList<(u32, u32)>;
