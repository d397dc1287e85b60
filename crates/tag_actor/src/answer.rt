/// How a turn of a tag actor ended.
#[derive(Clone, Copy, Debug, PartialEq, Eq)]
pub enum TagTurn {
    /// It took, consumed or answered some record, and has not ended.
    Went,
    /// It has no record in hand, and the ring held none.
    Empty,
    /// The access in hand waits for its turn: its word had the number `seen`.
    NotYet { word: u32, number: u32, seen: u32 },
    /// The meeting in hand waits for room for its reply.
    ReplyFull,
    /// It has consumed the last record of its core.
    Ended,
}

/// What a look into the ring brought.
#[derive(Clone, Copy, Debug, PartialEq, Eq)]
pub(crate) enum Took {
    /// Nothing: there was no record.
    Nothing,
    /// A record that needs nothing, which is consumed.
    Consumed,
    /// A record that has to wait, which is in hand.
    InHand,
}

/// Why no record was consumed, and whether one came into the hand before.
#[derive(Clone, Copy, Debug, PartialEq, Eq)]
pub(crate) struct Stop {
    pub took: bool,
    pub cause: TagTurn,
}
