//! The limits and the usual values of what a command line asks for, where no lower layer has them (this project's own).

/// The records that wait for a tag actor, where nothing is asked for.
pub const USUAL_LANE: u32 = 64;

/// The units or records of a turn.
pub const MOST_QUANTUM: u32 = 4096;

pub const USUAL_QUANTUM: u32 = 64;

/// The pages of a core's stack and of the heap, where none are asked for.
pub const USUAL_STACK: u32 = 16;

pub const USUAL_HEAP: u32 = 256;

/// The bytes of the files that a command reads, beside its input.
pub const MOST_IMAGE: usize = 1 << 25;

pub const MOST_POLICY: usize = 1 << 16;

pub const MOST_REPORT: usize = 1 << 29;
