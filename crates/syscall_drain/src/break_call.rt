//! The call for the program break: one claim on its device.
ghost use Rattle.std.specs.Prelude.{◌≡◌};
ghost use Rattle.elf_image.specs.Layout.{words_of};
ghost use Rattle.rv_execute.specs.Harts.{state_of};
ghost use Rattle.syscall_drain.specs.BreakCall.{break_task};
ghost use Rattle.syscall_drain.specs.Sound.{IsSoundTask};

use crate::arguments::first_argument;
use crate::guest::Guest;
use crate::task::{AccessReason, Task};
use elf_image::device::BREAK_WORD;
use rv_execute::{Hart, Op};

/// The claim on the break.
#[tactic(auto, using(crate::proofs::Within::device_words))]
pub(crate) fn break_task(guest: &Guest, hart: &Hart) -> Task
    ensures value { result ≡ break_task guest.now (state_of hart.now) }
    ensures sound { IsSoundTask (words_of guest.now.layout) (state_of hart.now) result }
{
    let op = Op::Break {
        want: first_argument(hart),
        low: guest.image().break_base(),
        high: guest.image().heap_end(),
    };
    Task::Access(BREAK_WORD, op, AccessReason::Claim)
}
