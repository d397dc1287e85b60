//! The one-thread run of a setup.
ghost use Rattle.std.specs.Prelude.{◌≡◌, ◌<◌, ◌≤◌, [], ◌∷◌, ◌++◌, ◌↔◌, false, IsTrue, IsFalse, IsNone, IfSome, IfOk, IfErr};
ghost use Rattle.machine.specs.Runs.{IsPlayable, IsComplete};
ghost use Rattle.machine.specs.FinishedRuns.{IsFinishedRun};
ghost use Rattle.inline_tracker.specs.declared.step.Stepped.TheVariants.{Refused};
ghost use Rattle.inline_tracker.specs.Standing.{Stands, IsTurnOf, tracker_at};
ghost use Rattle.inline_tracker.specs.Seen.{step_answer, order_after, has_ended, summary_at};
ghost use Rattle.inline_tracker.specs.Seats.{HaveEnded, SomeGoesOn};
ghost use Rattle.inline_tracker.specs.Outcomes.{outcome_summary};

use crate::advance::run_unit;
use crate::ending::finished_run;
use crate::finished::{CoreOutcome, Finished};
use crate::opening::first_run;
use crate::run::Run;
use crate::seat::Seat;
use crate::setup::Setup;
use crate::step::{StepFault, Stepped};
use order_core::NoMemory;
use std::alloc::Global;
use std::marker::Model;
use syscall_drain::NextUnit;

/// A run, one unit of one core at a time. It stands at the state along the order of its steps.
#[derive(Drop)]
pub struct Tracker<'a> {
    setup: &'a Setup,
    run: Run,
}

impl<'a> Model for Tracker<'a> {
    ghost use Rattle.inline_tracker.specs.Standing.{Stands};
    ghost use Rattle.inline_tracker.specs.Seen.{TrackerSeen};

    ghost Value = { TrackerSeen };

    ghost view = { λ tracker. record { setup = tracker.setup.now; order = tracker.run.order.items } };

    ghost invariant = { λ tracker. Stands tracker.setup.now tracker.run };
}

/// The next unit of a core, or why it cannot be spent.
fn turn_of(run: &Run, setup: &Setup, core: u8) -> Result<NextUnit, StepFault>
    requires { Stands setup.now run.now }
    ensures unit { IfOk result (IsTurnOf setup.now run.now core) }
    ensures went { IfOk result (λ _. step_answer (tracker_at setup.now run.now) core ≡ Stepped.Went) }
    ensures refused { IfErr result (λ fault. step_answer (tracker_at setup.now run.now) core ≡ Refused fault) }
{
    let Some(seat) = run.seats.get(core as usize) else {
        return Err(StepFault::NoSuchCore);
    };
    if seat.state.end().is_some() {
        return Err(StepFault::Ended);
    }
    Ok(seat.state.next(setup.guest()))
}

/// How a core ended, if it has.
fn outcome_of<'r>(run: &'r Run, setup: &Setup, core: u8) -> Option<&'r CoreOutcome>
    requires { Stands setup.now run.now }
    ensures none { IsNone result ↔ (has_ended (tracker_at setup.now run.now) core ≡ false) }
    ensures some { IfSome result (λ outcome. outcome_summary outcome.now ≡ summary_at (tracker_at setup.now run.now) core) }
{
    let seat = run.seats.get(core as usize)?;
    seat.outcome.as_ref()
}

/// Whether every core has ended.
fn all_ended(seats: &[Seat]) -> bool
    ensures all { IsTrue result → HaveEnded seats.now }
    ensures some { IsFalse result → SomeGoesOn seats.now }
{
    for seat in seats {
        if seat.state.end().is_none() {
            return false;
        }
    }
    true
}

impl<'a> Tracker<'a> {
    /// The tracker before the first step. All memory that its steps need is taken here.
    pub fn create(alloc: Global, setup: &'a Setup) -> Result<Tracker<'a>, NoMemory>
        ensures { IfOk result (λ tracker. tracker ≡ record { setup = setup.entry.now; order = [] }) }
    {
        let run = first_run(alloc, setup)?;
        Ok(Tracker { setup, run })
    }

    /// One unit of a core, data and tags. A refusal changes nothing.
    pub fn step(&mut self, core: u8) -> Stepped
        ensures answer { result ≡ step_answer self.old core }
        ensures after { self.new ≡ record self.old { order = order_after result self.old.order core } }
        ensures playable { IsPlayable self.new.setup self.new.order }
    {
        match turn_of(&self.run, self.setup, core) {
            Err(fault) => Stepped::Refused(fault),
            Ok(unit) => {
                run_unit(&mut self.run, self.setup, core, unit);
                Stepped::Went
            }
        }
    }

    /// How a core ended: `None` exactly where there is no such core, or it has not ended.
    pub fn outcome(&self, core: u8) -> Option<&CoreOutcome>
        ensures none { IsNone result ↔ (has_ended self.now core ≡ false) }
        ensures some { IfSome result (λ outcome. outcome_summary outcome.now ≡ summary_at self.now core) }
    {
        outcome_of(&self.run, self.setup, core)
    }

    /// The finished run, or the tracker as it was where some core has not ended.
    pub fn finish(self) -> Result<Finished, Tracker<'a>>
        ensures finished { IfOk result (λ finished. IsFinishedRun self.entry.setup finished.run × (finished.run.order ≡ self.entry.order)) }
        ensures rewound { IfOk result (λ finished. finished.given ≡ 0) }
        ensures unfinished { IfErr result (λ tracker. (tracker ≡ self.entry) × (IsComplete self.entry.setup self.entry.order → ⊥)) }
    {
        let Tracker { setup, run } = self;
        if all_ended(run.seats.as_slice()) {
            Ok(finished_run(setup, run))
        } else {
            Err(Tracker { setup, run })
        }
    }
}
