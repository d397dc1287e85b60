//! From the parts of a run to its end.
ghost use Rattle.std.specs.Prelude.{◌≡◌, map};
ghost use Rattle.order_core.specs.CanonicalMerge.{canonical};
ghost use Rattle.machine.specs.FinishedRuns.{IsFinishedRun};
ghost use Rattle.live_run.specs.Seats.{HaveEnded};
ghost use Rattle.live_run.specs.Ends.{lefts_by};

use crate::closing::{Closed, close_run};
use crate::ends::finish_all;
use crate::parts::LiveParts;
use inline_tracker::Finished;

/// Ends the actors of a run, closes its tables, and gives what they leave together. Its order is walked along the logs.
pub fn assemble(parts: LiveParts<'_>) -> Finished
    requires ended { HaveEnded parts.harts parts.followers }
    ensures finished { IsFinishedRun parts.entry.setup result.run }
    ensures merged { result.run.order ≡ canonical result.run.logs }
    ensures logs { result.run.logs ≡ map (λ left. left.log) (lefts_by parts.entry.harts parts.entry.followers) }
    ensures cores { result.run.cores ≡ map (λ left. left.summary) (lefts_by parts.entry.harts parts.entry.followers) }
    ensures given { result.given ≡ 0 }
{
    let LiveParts {
        objects,
        actors,
        room,
    } = parts;
    // The ranges of the setup bound the output.
    let _ranges = objects.setup.guest();
    let ends = finish_all(
        actors.harts,
        actors.followers,
        objects.items,
        objects.replies,
        room.ends,
    );
    let Closed {
        logs,
        outcomes,
        output,
    } = close_run(objects.memory, objects.tags, ends, room.output);
    Finished::of_walk(objects.setup, room.walk, logs, outcomes, output)
}
