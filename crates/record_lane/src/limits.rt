//! How much a lane may hold at most (this project's own).

/// The items of a ring or a lane.
pub const MOST_LANE: u32 = 4096;
