//! What a core is after a unit.
ghost use Rattle.std.specs.Prelude.{◌≡◌, ℕ, ◌<◌, if◌then◌else◌, Some};
ghost use Rattle.rv_execute.specs.Harts.{state_of};
ghost use Rattle.syscall_drain.specs.Locals.{ended};
ghost use Rattle.syscall_drain.specs.Calls.{decision, decided, call_after};
ghost use Rattle.syscall_drain.specs.Tasks.{task_of};
ghost use Rattle.syscall_drain.specs.Units.{taken_of, stop_of, returned, after_quiet, after_access, after_meeting, after_task, spent_unit, answered};
ghost use Rattle.syscall_drain.specs.Sound.{IsSound, IsSoundPhase, IsSoundQuiet, IsSoundAccess, IsSoundTask};
ghost use Rattle.syscall_drain.specs.Seen.{local_seen};

use crate::answer::{stop_of, taken_of};
use crate::ask::Answer;
use crate::decision::{Decision, decide};
use crate::end::End;
use crate::guest::Guest;
use crate::local_core::LocalCore;
use crate::phase::Phase;
use crate::read_call::read_next;
use crate::task::{AccessReason, QuietReason, Task};
use crate::write_call::{WriteStage, write_next};
use record_lane::MeetKind;
use rv_execute::{MOST_NUMBERS, Op, Taken, apply, resume};

impl LocalCore {
    fn finish(&mut self, end: End)
        ensures step { local_seen self.new ≡ ended end (local_seen self.old) }
        ensures units { self.new.units ≡ self.old.units }
    {
        self.end = Some(end);
    }

    /// Returns from a call.
    fn return_with(&mut self, result_word: u32)
        ensures step { local_seen self.new ≡ after_quiet (local_seen self.old) (QuietReason.Return result_word) }
        ensures units { self.new.units ≡ self.old.units }
    {
        self.hart.regs[10] = result_word;
        self.hart.pc = self.hart.pc.wrapping_add(4);
        self.phase = Phase::Running;
    }

    fn quiet(&mut self, reason: QuietReason)
        requires { IsSoundQuiet (state_of self.old.hart) reason }
        ensures step { local_seen self.new ≡ after_quiet (local_seen self.old) reason }
        ensures units { self.new.units ≡ self.old.units }
    {
        match reason {
            QuietReason::Blank(fault) => self.finish(End::Fault(fault)),
            QuietReason::Faulted(fault, _) => self.finish(End::Fault(fault)),
            QuietReason::Plain(insn) => resume(&mut self.hart, insn, None),
            QuietReason::Return(result_word) => self.return_with(result_word),
        }
    }

    /// Goes on in a call, by what the access of its phase found.
    fn call_access(&mut self, guest: &Guest, op: Op, taken: Taken)
        requires { IsSoundPhase (state_of self.old.hart) self.old.gathered self.old.phase }
        ensures step { local_seen self.new ≡ call_after guest.now (local_seen self.old) op taken self.old.phase }
        ensures units { self.new.units ≡ self.old.units }
    {
        match self.phase {
            Phase::Running => {}
            Phase::Reading(stage) => {
                self.phase = read_next(guest, &self.hart, stage, taken.old);
            }
            Phase::Writing(stage) => {
                self.phase = write_next(&self.hart, &mut self.gathered, stage, taken.old);
            }
            Phase::Breaking => {
                self.phase = Phase::Returning(apply(op, taken.number, taken.old));
            }
            Phase::Returning(_) => {}
        }
    }

    /// Goes on by what an access found that is not spent.
    fn access(&mut self, guest: &Guest, op: Op, reason: AccessReason, taken: Taken)
        requires phase { IsSoundPhase (state_of self.old.hart) self.old.gathered self.old.phase }
        requires asked { IsSoundAccess (state_of self.old.hart) reason }
        requires numbered { taken.number < MOST_NUMBERS }
        ensures step { local_seen self.new ≡ after_access guest.now (local_seen self.old) op taken reason }
        ensures units { self.new.units ≡ self.old.units }
    {
        match reason {
            AccessReason::Insn(insn) => resume(&mut self.hart, insn, Some(taken)),
            AccessReason::Fill(_) => self.call_access(guest, op, taken),
            AccessReason::Gather(_) => self.call_access(guest, op, taken),
            AccessReason::Claim => self.call_access(guest, op, taken),
        }
    }

    /// Goes to the phase after a decision. A write call that is not decided at once has gathered nothing.
    fn enter(&mut self, phase: Phase)
        ensures step { local_seen self.new ≡ decided (Decision.Enter phase) (local_seen self.old) }
        ensures units { self.new.units ≡ self.old.units }
    {
        self.phase = phase;
        if let Phase::Writing(_) = phase {
            self.gathered.clear();
        }
    }

    fn decide(&mut self, guest: &Guest)
        ensures step { local_seen self.new ≡ decided (decision guest.now (state_of self.old.hart)) (local_seen self.old) }
        ensures units { self.new.units ≡ self.old.units }
    {
        match decide(guest, &self.hart) {
            Decision::Leave(status) => self.finish(End::Exit(status)),
            Decision::Enter(phase) => self.enter(phase),
        }
    }

    /// Goes on from a meeting that does not stop the core.
    fn meet(&mut self, guest: &Guest, kind: MeetKind)
        ensures step { local_seen self.new ≡ after_meeting guest.now (local_seen self.old) kind }
        ensures units { self.new.units ≡ self.old.units }
    {
        match kind {
            MeetKind::Call => self.decide(guest),
            MeetKind::Verdict => self.phase = Phase::Writing(WriteStage::Placing),
        }
    }

    /// Goes on by the answer to this unit.
    pub fn go_on(&mut self, guest: &Guest, task: Task, given: Answer)
        requires sound { IsSound (local_seen self.old) }
        requires asked { (words : ℕ) × IsSoundTask words (state_of self.old.hart) task }
        requires numbered { (taken_of given).number < MOST_NUMBERS }
        ensures step { local_seen self.new ≡ after_task guest.now (local_seen self.old) task given }
        ensures units { self.new.units ≡ self.old.units }
    {
        let taken = taken_of(given);
        match task {
            Task::Over => {}
            Task::Quiet(reason) => self.quiet(reason),
            Task::Access(_, op, reason) => {
                if taken.spent {
                    self.finish(End::Spent)
                } else {
                    self.access(guest, op, reason, taken)
                }
            }
            Task::Meeting(kind) => {
                if stop_of(given) {
                    self.finish(End::Trapped)
                } else {
                    self.meet(guest, kind)
                }
            }
        }
    }

    /// Spends a unit: the last one of the budget ends a core that has not ended otherwise.
    pub fn count_unit(&mut self, budget: u32)
        requires { self.old.units < 4294967295 }
        ensures { local_seen self.new ≡ spent_unit budget (local_seen self.old) }
    {
        self.units += 1;
        if self.end.is_none() && self.units == budget {
            self.end = Some(End::Budget);
        }
    }

    /// Spends this unit, with the answer to what it asked.
    #[tactic(auto, unfolding(crate::specs::Units::answered))]
    pub fn unit(&mut self, guest: &Guest, budget: u32, task: Task, given: Answer)
        requires sound { IsSound (local_seen self.old) }
        requires task { task ≡ task_of guest.now (local_seen self.old) }
        requires asked { (words : ℕ) × IsSoundTask words (state_of self.old.hart) task }
        requires numbered { (taken_of given).number < MOST_NUMBERS }
        requires units { self.old.units < 4294967295 }
        ensures { local_seen self.new ≡ answered guest.now budget (local_seen self.old) given }
    {
        self.go_on(guest, task, given);
        self.count_unit(budget);
    }
}
