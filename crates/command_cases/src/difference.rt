//! What is left that is not what was to be left.

use std::alloc::{AllocError, Global};

/// Why a case does not pass.
#[derive(Debug, Drop)]
pub enum Difference {
    /// The case itself found no memory.
    NoMemory,
    /// The output was written to, where nothing was to go out.
    Written,
    /// What was left in place of what was to be left.
    Other(String),
}

impl From<AllocError> for Difference {
    fn from(_: AllocError) -> Difference {
        Difference::NoMemory
    }
}

/// Compares what a case left with what it was to leave.
pub fn same(alloc: Global, case: &[&str], found: &[u8], wanted: &[u8]) -> Result<(), Difference> {
    if found == wanted {
        return Ok(());
    }
    Err(Difference::Other(format!(in alloc; "{case:?}: {found:?} in place of {wanted:?}")?))
}
