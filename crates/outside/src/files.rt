//! Reading whole files by name.
ghost use Rattle.std.specs.Prelude.{◌≡◌, ℕ, ◌≤◌, List, Option, IfOk, length};
ghost use Rattle.outside.specs.Files.{ReadsHeld, HasFileCause};

use std::alloc::Global;
use thiserror::Error;

/// Why a file could not be read whole.
#[derive(Clone, Copy, Debug, PartialEq, Eq, Error)]
pub enum FileFault {
    /// The file is not there, or a read of it failed.
    #[error("the file could not be read")]
    Failed,
    /// The file has more bytes than were asked for.
    #[error("the file is too long")]
    TooLong,
    /// There was not enough memory for the file.
    #[error("out of memory")]
    NoMemory,
}

/// Files that are read whole, by name.
pub trait Files {
    // The contents of the file with this name, or `None` where they are not told.
    ghost held: { Self → List ℕ → Option (List ℕ) };

    // The count of faults of the file with this name.
    ghost faults: { Self → List ℕ → ℕ };

    /// Reads a file of at most `most` bytes.
    fn read_all(&mut self, alloc: Global, name: &str, most: usize) -> Result<Vec<u8>, FileFault>
        ensures at_most { IfOk result (λ bytes. length bytes.items ≤ most) }
        ensures bytes { ReadsHeld (λ bytes. bytes.items) (held self.old name.now) most result }
        ensures same { (other : List ℕ) → held self.new other ≡ held self.old other }
        ensures cause { HasFileCause (faults self.old) (faults self.new) name.now result };
}
