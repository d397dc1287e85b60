//! Where in a report the next line is.

use crate::report_line::HeaderLine;

/// What the next line of a report tells.
#[derive(Clone, Copy, Debug, PartialEq, Eq)]
pub enum LinePlace {
    AtVersion,
    AtHeader(HeaderLine),
    /// The count of units.
    AtUnits,
    /// The unit at this place of the order, or, past the last one, the count of notes.
    AtUnit(usize),
    /// The first note from this place of a core's notes on, or, past the last one, the count of traps.
    AtNote { core: u8, note: usize },
    /// The first trap from this core on, or, past the last one, the count of ends.
    AtTrap(u8),
    /// The end of this core, or, past the last core, the report's last line.
    AtEnd(u8),
    /// Nothing is left.
    Done,
}
