//! Which guest an actor runs.
ghost use Rattle.std.specs.Prelude.{◌≡◌};
ghost use Rattle.std.specs.Borrow.{ftrue};
ghost use Rattle.syscall_drain.specs.Programs.{Program};

use std::marker::{Model, PhantomData};
use syscall_drain::Guest;

/// Which guest an actor runs, as clauses alone see it. It has no bytes.
pub(crate) struct Ward {
    marker: PhantomData<Guest>,
    pub ghost program: { Program },
}

impl Model for Ward {
    ghost also_owns = { λ _. ftrue };
}

// It owns nothing.
unsafe impl Send for Ward {}

impl Drop for Ward {
    fn drop(self) {
        let Self { marker: _ } = self;
    }
}

impl Ward {
    /// The token of this guest.
    pub fn of(guest: &Guest) -> Ward
        ensures { result.program ≡ guest.now }
    {
        let _ = guest;
        Ward {
            marker: PhantomData,
        }
    }
}
