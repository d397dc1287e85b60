use crate::task::Task;
use record_lane::{Record, Reply};
use rv_execute::{Op, Taken};

/// What the next unit of a core asks for.
#[derive(Clone, Copy, Debug, PartialEq, Eq)]
pub enum CoreAsk {
    /// Nothing.
    Quiet,
    /// One access to a word, by the word's number.
    Touch { word: u32, op: Op },
    /// A meeting with its tag actor, with this record.
    Meet { item: Record },
    /// The core has ended and has no next unit.
    Ended,
}

/// The next unit of a core, whole: what it asks for, and what it is to the core.
#[derive(Clone, Copy, Debug, PartialEq, Eq)]
pub struct NextUnit {
    pub ask: CoreAsk,
    pub(crate) task: Task,
}

/// What a unit is given.
#[derive(Clone, Copy, Debug, PartialEq, Eq)]
pub enum Answer {
    /// The unit asked for nothing.
    Nothing,
    /// What its access found.
    Taken(Taken),
    /// What its tag actor replied.
    Reply(Reply),
}

/// What a unit made: its record, which the ask of a meeting has already given, and the place in the output
/// that it claimed.
#[derive(Clone, Copy, Debug, PartialEq, Eq)]
pub struct Made {
    pub item: Option<Record>,
    pub placed: Option<u32>,
}
