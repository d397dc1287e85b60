//! The tables of a run at its end.
ghost use Rattle.std.specs.Prelude.{List, map};
ghost use Rattle.machine.specs.Setups.{Setup};
ghost use Rattle.live_run.specs.declared.pair.Pair.{Pair};
ghost use Rattle.live_run.specs.Pairs.{left_in_pair};
ghost use Rattle.live_run.specs.Closing.{AreReady, IsClosedRun};

use crate::ends::Ends;
use crate::output::lay_out;
use bounded_list::BoundedList;
use elf_image::device::OUTPUT_WORD;
use inline_tracker::CoreOutcome;
use order_core::{Bytes, CoreLog};
use ticket_table::payload;
use word_stores::{SharedMemory, TagMemory};

/// What a run leaves beside the order of its units.
#[derive(Drop)]
pub(crate) struct Closed {
    pub logs: BoundedList<CoreLog>,
    pub outcomes: BoundedList<CoreOutcome>,
    pub output: Bytes,
}

/// Closes both tables, and puts the output of all cores together, which is as long as its word says.
pub(crate) fn close_run(
    memory: SharedMemory,
    tags: TagMemory,
    ends: Ends,
    mut output: Bytes,
) -> Closed
    requires { (s : Setup) × (pairs : List Pair) × AreReady s pairs memory tags ends output }
    ensures { (s : Setup) (pairs : List Pair) → AreReady s pairs memory tags ends output → IsClosedRun s (map left_in_pair pairs) memory tags result }
{
    let Ends {
        logs,
        outcomes,
        claims,
        drawn,
        served,
    } = ends;
    let words = memory.close(drawn.into_vec());
    tags.close(served.into_vec());
    lay_out(
        &mut output,
        claims.as_slice(),
        payload(words.word(OUTPUT_WORD)),
    );
    Closed {
        logs,
        outcomes,
        output,
    }
}
