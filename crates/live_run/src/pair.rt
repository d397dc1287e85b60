//! What a hart and its tag actor leave together.
ghost use Rattle.std.specs.Prelude.{◌≡◌, ℕ};
ghost use Rattle.ticket_table.specs.Passes.{TableSeen};
ghost use Rattle.machine.specs.Setups.{Setup};
ghost use Rattle.live_run.specs.Seats.{IsSeat};
ghost use Rattle.live_run.specs.Pairs.{AreDone, IsPairLeft, left_in_pair, left_by};

use hart_actor::{HartActor, HartParts};
use inline_tracker::CoreOutcome;
use order_core::{Bytes, CoreLog, Pieces};
use record_lane::{Lane, Record, Reply, Ring};
use tag_actor::{TagActor, TagParts};
use ticket_table::Pass;

/// The output of one core: its pieces, each a place in the output of all cores and a length, and their bytes end to end.
#[derive(Drop)]
pub(crate) struct Claims {
    pub output: Bytes,
    pub pieces: Pieces,
}

/// What the two actors of one core leave: its log, how it ended, its output, and its passes of the memory and of the tags.
#[derive(Drop)]
pub(crate) struct Pair {
    pub entries: CoreLog,
    pub outcome: CoreOutcome,
    pub claims: Claims,
    pub drawn: Pass,
    pub served: Pass,
}

/// Ends the two actors of a core with their ring and their lane, in which nothing is left.
pub(crate) fn finish_pair(
    hart: HartActor,
    follower: TagActor,
    items: Ring<Record>,
    replies: Lane<Reply>,
) -> Pair
    requires { AreDone hart follower items replies }
    ensures kept { left_in_pair result ≡ left_by hart follower }
    ensures left { (s : Setup) (memory tags : TableSeen) (core : ℕ) → IsSeat s memory tags core hart follower items replies → IsPairLeft s memory tags core result }
{
    let HartParts {
        end,
        units,
        entries,
        notes,
        output,
        pieces,
        pass: drawn,
        sender: item_sender,
        taker: reply_taker,
    } = hart.finish();
    let TagParts {
        trap,
        pass: served,
        taker: item_taker,
        sender: reply_sender,
    } = follower.finish();
    items.close(item_sender, item_taker);
    replies.close(reply_sender, reply_taker);
    Pair {
        entries,
        outcome: CoreOutcome {
            end,
            units,
            trap,
            notes,
        },
        claims: Claims { output, pieces },
        drawn,
        served,
    }
}
