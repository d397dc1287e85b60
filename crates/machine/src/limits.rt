//! How much a run may have at most (this project's own).

/// The units of all cores, which an order counts.
pub const MOST_UNITS: u32 = 1 << 23;
