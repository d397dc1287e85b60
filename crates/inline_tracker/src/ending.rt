//! From a run whose cores have all ended to the finished run.
ghost use Rattle.std.specs.Prelude.{◌≡◌, ◌<◌, [], ◌++◌, length, map, Some, option_to_list};
ghost use Rattle.machine.specs.FinishedRuns.{IsFinishedRun};
ghost use Rattle.inline_tracker.specs.Standing.{Stands};
ghost use Rattle.inline_tracker.specs.Seats.{HaveEnded, AreOver};

use crate::finished::{CoreOutcome, Finished};
use crate::run::Run;
use crate::run_order::RunOrder;
use crate::seat::Seat;
use crate::setup::Setup;
use bounded_list::BoundedList;
use order_core::CoreLog;

/// Keeps an outcome, if there is one.
fn keep_outcome(outcomes: &mut BoundedList<CoreOutcome>, outcome: Option<CoreOutcome>)
    requires { length outcomes.old.items < outcomes.old.room }
    ensures { outcomes.new ≡ record outcomes.old { items = outcomes.old.items ++ option_to_list outcome } }
{
    if let Some(outcome) = outcome {
        outcomes.push(outcome);
    }
}

/// Moves the logs and the outcomes of the cores into lists of their own.
fn take_cores(
    seats: Vec<Seat>,
    logs: &mut BoundedList<CoreLog>,
    outcomes: &mut BoundedList<CoreOutcome>,
)
    requires ended { AreOver seats.items }
    requires logs { logs.old ≡ record { items = []; room = length seats.items } }
    requires outcomes { outcomes.old ≡ record { items = []; room = length seats.items } }
    ensures logs { logs.new.items ≡ map (λ seat. seat.log) seats.items }
    ensures outcomes { map Some outcomes.new.items ≡ map (λ seat. seat.outcome) seats.items }
{
    for seat in seats {
        let Seat { log, outcome, .. } = seat;
        logs.push(log);
        keep_outcome(outcomes, outcome);
    }
}

/// The finished run of a setup in which every core has ended.
pub(crate) fn finished_run(setup: &Setup, run: Run) -> Finished
    requires stands { Stands setup.now run }
    requires ended { HaveEnded run.seats.items }
    ensures finished { IsFinishedRun setup.now result.run }
    ensures order { result.run.order ≡ run.order.items }
    ensures given { result.given ≡ 0 }
{
    let Run {
        seats,
        cells: _,
        order,
        output,
        mut logs,
        mut outcomes,
    } = run;
    take_cores(seats, &mut logs, &mut outcomes);
    Finished {
        order: RunOrder::Listed(order),
        given: 0,
        logs,
        outcomes,
        output,
    }
}
