//! What an answer says of an access and of a meeting.
ghost use Rattle.std.specs.Prelude.{◌≡◌};
ghost use Rattle.syscall_drain.specs.Units.{taken_of, stop_of, place_asked};

use crate::ask::{Answer, CoreAsk};
use elf_image::device::OUTPUT_WORD;
use rv_execute::Taken;

/// What an access found, of an answer to one.
pub(crate) fn taken_of(given: Answer) -> Taken
    ensures { result ≡ taken_of given }
{
    match given {
        Answer::Taken(taken) => taken,
        Answer::Nothing | Answer::Reply(_) => Taken {
            number: 0,
            old: 0,
            spent: false,
        },
    }
}

/// Whether a reply ends the core.
pub(crate) fn stop_of(given: Answer) -> bool
    ensures { result ≡ stop_of given }
{
    match given {
        Answer::Reply(reply) => reply.stop,
        Answer::Nothing | Answer::Taken(_) => false,
    }
}

/// The place in the output that a unit claims, of what it asked and its answer.
pub(crate) fn place_claimed(ask: CoreAsk, given: Answer) -> Option<u32>
    ensures { result ≡ place_asked ask (taken_of given) }
{
    let taken = taken_of(given);
    match ask {
        CoreAsk::Touch { word, .. } => {
            if word == OUTPUT_WORD && !taken.spent {
                Some(taken.old)
            } else {
                None
            }
        }
        _ => None,
    }
}
