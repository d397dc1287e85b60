ghost use Rattle.std.specs.Prelude.{◌≡◌, ◌+◌, ◌<◌, ◌≤◌, ◌^◌, length, slice_get, Some, IfSome, IfNone};
ghost use Rattle.machine.specs.Outcomes.{class_of};

use crate::run_order::{RunOrder, units_of};
use crate::setup::Setup;
use crate::status::class_of_outcomes;
use bounded_list::BoundedList;
use order_core::{Bytes, CoreLog, Walk};
use record_lane::{Notes, Trap};
use std::marker::Model;
use syscall_drain::End;

/// How one core ended: the units that it spent, its first trap, and the notes of its meetings.
#[derive(Debug, Drop)]
pub struct CoreOutcome {
    pub end: End,
    pub units: u32,
    pub trap: Option<Trap>,
    pub notes: Notes,
}

/// A finished run: the order of its units, the log and the outcome of each core, and the guest's output. Its order is kept as a
/// list, or walked along its logs.
#[derive(Drop)]
pub struct Finished {
    pub(crate) order: RunOrder,
    pub(crate) given: usize,
    pub(crate) logs: BoundedList<CoreLog>,
    pub(crate) outcomes: BoundedList<CoreOutcome>,
    pub(crate) output: Bytes,
}

impl Model for Finished {
    ghost use Rattle.std.specs.Prelude.{map};
    ghost use Rattle.order_core.specs.Logs.{logs_of};
    ghost use Rattle.inline_tracker.specs.Seen.{FinishedSeen};
    ghost use Rattle.inline_tracker.specs.Outcomes.{outcome_summary};
    ghost use Rattle.inline_tracker.specs.Orders.{order_in, IsOrderAt};

    ghost Value = { FinishedSeen };

    ghost view = { λ finished. record {
      run = record {
        order = order_in (logs_of finished.logs.items) finished.order;
        logs = logs_of finished.logs.items;
        cores = map outcome_summary finished.outcomes.items;
        output = finished.output.items;
      };
      given = finished.given;
    } };

    ghost invariant = { λ finished. IsOrderAt (logs_of finished.logs.items) finished.given finished.order };
}

impl Finished {
    ghost use Rattle.inline_tracker.specs.Outcomes.{outcome_summary};
    ghost use Rattle.inline_tracker.specs.Seen.{next_core};
    ghost use Rattle.inline_tracker.specs.Walked.{walked_run};
    ghost use Rattle.order_core.specs.Logs.{logs_of};
    ghost use Rattle.order_core.specs.Walk.{FitsWalk};
    ghost use Rattle.order_core.specs.WalkCalls.{IsAtStart};
    ghost use Rattle.machine.specs.FinishedRuns.{IsFinishedRun};

    /// The run that the actors of a setup leave. Its order is the canonical merge of its logs, which is walked and never listed.
    pub fn of_walk(
        setup: &Setup,
        walk: Walk,
        logs: BoundedList<CoreLog>,
        outcomes: BoundedList<CoreOutcome>,
        output: Bytes,
    ) -> Finished
        requires start { IsAtStart walk }
        requires fits { FitsWalk walk (logs_of logs.items) }
        requires finished { IsFinishedRun setup.now (walked_run logs.items outcomes.items output.items) }
        ensures run { result.run ≡ walked_run logs.items outcomes.items output.items }
        ensures given { result.given ≡ 0 }
    {
        // The ranges of the setup bound the count of units.
        let _ranges = setup.guest();
        let units = units_of(logs.as_slice());
        Finished {
            order: RunOrder::Walked { walk, units },
            given: 0,
            logs,
            outcomes,
            output,
        }
    }

    /// How many units it has.
    pub fn units(&self) -> u32
        ensures { result ≡ length self.now.run.order }
    {
        match &self.order {
            RunOrder::Listed(order) => order.len() as u32,
            RunOrder::Walked { units, .. } => *units,
        }
    }

    /// Goes back to the first place of its order.
    pub fn rewind(&mut self)
        ensures { self.new ≡ record self.old { given = 0 } }
    {
        self.order.rewind();
        self.given = 0;
    }

    /// The core of the unit at the next place of its order; `None` exactly at its end.
    pub fn next_core(&mut self) -> Option<u8>
        ensures core { result ≡ next_core self.old }
        ensures more { IfSome result (λ core. self.new ≡ record self.old { given = self.old.given + 1 }) }
        ensures same { IfNone result (self.new ≡ self.old) }
        ensures small { self.new.given < 2 ^ 32 }
    {
        let core = self.order.next(self.logs.as_slice(), self.given)?;
        self.given += 1;
        Some(core)
    }

    /// The accesses of a core, unit by unit.
    pub fn log(&self, core: u8) -> &CoreLog
        requires { core < length self.now.run.logs }
        ensures { slice_get self.now.run.logs core ≡ Some result.now.items }
    {
        &self.logs.as_slice()[core as usize]
    }

    /// How a core ended.
    pub fn core(&self, core: u8) -> &CoreOutcome
        requires { core < length self.now.run.cores }
        ensures { slice_get self.now.run.cores core ≡ Some (outcome_summary result.now) }
    {
        &self.outcomes.as_slice()[core as usize]
    }

    /// What the guest wrote.
    pub fn output(&self) -> &Bytes
        ensures { result.now.items ≡ self.now.run.output }
    {
        &self.output
    }
}

/// The class of a finished run: 2 where a core has a trap, else 3 where one faulted, 5 where one was spent,
/// 4 where one came to the end of its budget, 1 where one exited with a code above 0, else 0.
pub fn status_of(finished: &Finished) -> u8
    ensures class { result ≡ class_of finished.now.run.cores }
    ensures within { result ≤ 5 }
{
    class_of_outcomes(finished.outcomes.as_slice())
}
