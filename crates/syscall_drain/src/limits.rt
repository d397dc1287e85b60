//! How much a core, a call and an input may have at most (this project's own).

/// The units of one core.
pub const MOST_BUDGET: u32 = 1 << 20;

/// The bytes that one call moves.
pub const MOST_BYTES: u32 = 4096;

/// The bytes of an input.
pub const MOST_INPUT: u32 = 1 << 24;
