//! The kinds of lines that a report has.

use order_core::Entry;
use record_lane::{CallNote, Trap};
use syscall_drain::End;

/// A number of the header.
#[derive(Clone, Copy, Debug, PartialEq, Eq)]
pub enum HeaderLine {
    Cores,
    Budget,
    Limit,
    Stack,
    Heap,
}

/// A part of a report that says first how many lines it has.
#[derive(Clone, Copy, Debug, PartialEq, Eq)]
pub enum Section {
    Units,
    Calls,
    Traps,
    Ends,
}

/// One line of a report. A core is told with what is told of it.
#[derive(Clone, Copy, Debug, PartialEq, Eq)]
pub enum ReportLine {
    /// The first line.
    Version,
    Header(HeaderLine, u32),
    Count(Section, u64),
    UnitOf(u8, Entry),
    NoteOf(u8, CallNote),
    TrapOf(u8, Trap),
    EndOf(u8, End),
    Last,
}
