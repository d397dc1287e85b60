//! The numbers of the system calls that there are, as on RISC-V Linux.

pub const READ: u32 = 63;

pub const WRITE: u32 = 64;

pub const EXIT: u32 = 93;

pub const EXIT_GROUP: u32 = 94;

/// The call for the program break.
pub const BREAK: u32 = 214;
