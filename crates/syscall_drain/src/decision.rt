//! What the decision unit of a system call decides.
ghost use Rattle.std.specs.Prelude.{◌≡◌};
ghost use Rattle.rv_execute.specs.Harts.{state_of};
ghost use Rattle.syscall_drain.specs.Calls.{decision};

use crate::arguments::{call_number, first_argument};
use crate::guest::Guest;
use crate::phase::Phase;
use crate::read_call::read_phase;
use crate::write_call::write_phase;
use record_lane::call::{BREAK, EXIT, EXIT_GROUP, READ, WRITE};
use rv_execute::Hart;

/// The results of a refused call: minus EBADF, EFAULT and ENOSYS.
pub(crate) const BAD_DESCRIPTOR: u32 = 0u32.wrapping_sub(9);

pub(crate) const BAD_ADDRESS: u32 = 0u32.wrapping_sub(14);

pub(crate) const NO_CALL: u32 = 0u32.wrapping_sub(38);

/// What a call does at once.
#[derive(Clone, Copy, Debug, PartialEq, Eq)]
pub(crate) enum Decision {
    /// It ends its core with this status.
    Leave(u8),
    /// It goes on to this phase.
    Enter(Phase),
}

/// What the call in the hart's registers does at once.
pub(crate) fn decide(guest: &Guest, hart: &Hart) -> Decision
    ensures { result ≡ decision guest.now (state_of hart.now) }
{
    match call_number(hart) {
        READ => Decision::Enter(read_phase(guest, hart)),
        WRITE => Decision::Enter(write_phase(guest, hart)),
        BREAK => Decision::Enter(Phase::Breaking),
        EXIT | EXIT_GROUP => Decision::Leave((first_argument(hart) % 256) as u8),
        _ => Decision::Enter(Phase::Returning(NO_CALL)),
    }
}
