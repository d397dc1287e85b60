//! A core but for its number and its budget: its next unit, what that asks, and its record.
ghost use Rattle.std.specs.Prelude.{◌≡◌, ℕ};
ghost use Rattle.syscall_drain.specs.Records.{stores, why_of};

use crate::arguments::call_number;
use crate::ask::{CoreAsk, NextUnit};
use crate::break_call::break_task;
use crate::end::End;
use crate::gathered::Gathered;
use crate::guest::Guest;
use crate::instruction::fetched_task;
use crate::phase::Phase;
use crate::read_call::read_task;
use crate::task::{AccessReason, QuietReason, Task};
use crate::write_call::write_task;
use record_lane::{MeetKind, Record, Why};
use rv_execute::{Hart, Op, Taken, bytes_touched};

/// A core but for its number and its budget.
#[derive(Drop)]
pub(crate) struct LocalCore {
    pub hart: Hart,
    pub phase: Phase,
    pub gathered: Gathered,
    pub units: u32,
    pub end: Option<End>,
}

/// Whether an access stores, or is one that always does.
fn stores(op: Op, number: u32) -> bool
    ensures { result ≡ stores op number }
{
    match op {
        Op::Sc { number: asked, .. } => number == asked,
        _ => true,
    }
}

impl LocalCore {
    ghost use Rattle.elf_image.specs.Layout.{words_of};
    ghost use Rattle.rv_execute.specs.Harts.{state_of};
    ghost use Rattle.syscall_drain.specs.Programs.{Program};
    ghost use Rattle.syscall_drain.specs.Tasks.{phase_task, task_of};
    ghost use Rattle.syscall_drain.specs.Units.{meeting, next_ask, task_ask};
    ghost use Rattle.syscall_drain.specs.Records.{quiet_record, task_record};
    ghost use Rattle.syscall_drain.specs.Sound.{IsSound, IsSoundPhase, IsSoundQuiet, IsSoundAccess, IsSoundTask};
    ghost use Rattle.syscall_drain.specs.Seen.{local_seen, item_made, IsNextUnit};

    /// The next unit of a core that has not ended.
    fn phase_task(&self, guest: &Guest) -> Task
        requires { IsSoundPhase (state_of self.now.hart) self.now.gathered self.now.phase }
        ensures value { result ≡ phase_task guest.now (state_of self.now.hart) self.now.phase }
        ensures sound { IsSoundTask (words_of guest.now.layout) (state_of self.now.hart) result }
    {
        match self.phase {
            Phase::Running => fetched_task(guest.image(), &self.hart),
            Phase::Reading(stage) => read_task(guest, &self.hart, stage),
            Phase::Writing(stage) => write_task(guest, &self.hart, &self.gathered, stage),
            Phase::Breaking => break_task(guest, &self.hart),
            Phase::Returning(result_word) => Task::Quiet(QuietReason::Return(result_word)),
        }
    }

    #[tactic(auto, unfolding(crate::specs::Tasks::task_of))]
    fn task(&self, guest: &Guest) -> Task
        requires { IsSound (local_seen self.now) }
        ensures value { result ≡ task_of guest.now (local_seen self.now) }
        ensures sound { IsSoundTask (words_of guest.now.layout) (state_of self.now.hart) result }
    {
        match self.end {
            Some(_) => Task::Over,
            None => self.phase_task(guest),
        }
    }

    fn meeting(&self, kind: MeetKind) -> Record
        ensures { result ≡ meeting (local_seen self.now) kind }
    {
        Record::Meet {
            step: self.units,
            pc: self.hart.pc,
            call: call_number(&self.hart),
            kind,
        }
    }

    fn ask(&self, task: Task) -> CoreAsk
        ensures { result ≡ task_ask (local_seen self.now) task }
    {
        match task {
            Task::Over => CoreAsk::Ended,
            Task::Quiet(_) => CoreAsk::Quiet,
            Task::Access(word, op, _) => CoreAsk::Touch { word, op },
            Task::Meeting(kind) => CoreAsk::Meet {
                item: self.meeting(kind),
            },
        }
    }

    /// The next unit, with what it asks.
    #[tactic(auto, using(crate::proofs::Within::below_asked), unfolding(crate::specs::Units::next_ask))]
    pub fn next(&self, guest: &Guest) -> NextUnit
        requires { IsSound (local_seen self.now) }
        ensures { IsNextUnit guest.now (local_seen self.now) result }
    {
        let task = self.task(guest);
        let ask = self.ask(task);
        NextUnit { ask, task }
    }

    fn quiet_record(&self, reason: QuietReason) -> Record
        ensures { result ≡ quiet_record (local_seen self.now) reason }
    {
        let step = self.units;
        let pc = self.hart.pc;
        match reason {
            QuietReason::Blank(_) => Record::Blank { step, pc },
            QuietReason::Faulted(_, insn) => Record::Quiet {
                step,
                pc,
                insn,
                faulted: true,
            },
            QuietReason::Plain(insn) => Record::Quiet {
                step,
                pc,
                insn,
                faulted: false,
            },
            QuietReason::Return(_) => Record::Back { step, pc },
        }
    }

    fn why(&self, op: Op, number: u32, reason: AccessReason) -> Why
        requires { IsSoundAccess (state_of self.now.hart) reason }
        ensures { result ≡ why_of (local_seen self.now) op number reason }
    {
        match reason {
            AccessReason::Insn(insn) => Why::Insn {
                insn,
                hit: stores(op, number),
                bytes: bytes_touched(&self.hart, insn),
            },
            AccessReason::Fill(bytes) => Why::Fill { bytes },
            AccessReason::Gather(bytes) => Why::Gather { bytes },
            AccessReason::Claim => Why::Claim,
        }
    }

    fn touch(&self, word: u32, op: Op, reason: AccessReason, taken: Taken) -> Record
        requires { IsSoundAccess (state_of self.now.hart) reason }
        ensures { result ≡ task_record (local_seen self.now) (Task.Access word op reason) taken }
    {
        let why = if taken.spent {
            Why::Spent
        } else {
            self.why(op, taken.number, reason)
        };
        Record::Touch {
            step: self.units,
            pc: self.hart.pc,
            word,
            number: taken.number,
            why,
        }
    }

    /// The record of this unit, whose access found this.
    pub fn record(&self, task: Task, taken: Taken) -> Record
        requires { (words : ℕ) × IsSoundTask words (state_of self.now.hart) task }
        ensures { result ≡ task_record (local_seen self.now) task taken }
    {
        match task {
            Task::Over => Record::End,
            Task::Quiet(reason) => self.quiet_record(reason),
            Task::Access(word, op, reason) => self.touch(word, op, reason, taken),
            Task::Meeting(kind) => self.meeting(kind),
        }
    }

    /// The same, where the unit has not handed it over when it asked.
    pub fn item(&self, unit: NextUnit, taken: Taken) -> Option<Record>
        requires { (program : Program) × IsNextUnit program (local_seen self.now) unit }
        ensures { result ≡ item_made unit.ask (task_record (local_seen self.now) unit.task taken) }
    {
        match unit.ask {
            CoreAsk::Meet { .. } => None,
            _ => Some(self.record(unit.task, taken)),
        }
    }
}
