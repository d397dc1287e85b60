//! How far the numbers of a report's header go that no lower layer bounds so (version 1 of the format, this project's own).

/// The most cores that a report tells of.
pub const REPORTED_CORES: u32 = 8;

/// The number from which a word's accesses are spent. Above it are numbers for one more access of each of 8 cores.
pub const MOST_LIMIT: u32 = 4_294_967_280;
