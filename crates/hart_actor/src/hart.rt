//! One core in turns.
ghost use Rattle.std.specs.Prelude.{◌≡◌, ◌⊎◌, List, ◌+◌, ◌<◌, ◌≤◌, ◌↔◌, true, false, [], ◌++◌, Some, None, IsTrue, IsSome, IfOk, length};
ghost use Rattle.record_lane.specs.Rings.{sent_by, word_count_of, top_of};
ghost use Rattle.record_lane.specs.Lanes.{taken_by, IsTakerOf};
ghost use Rattle.ticket_table.specs.Passes.{IsPassOf};
ghost use Rattle.elf_image.specs.Layout.{words_of};
ghost use Rattle.syscall_drain.specs.Locals.{opening_local};
ghost use Rattle.syscall_drain.specs.Units.{next_ask};
ghost use Rattle.syscall_drain.specs.Seen.{IsNextUnit};
ghost use Rattle.syscall_drain.specs.Sound.{IsSound};
ghost use Rattle.syscall_drain.specs.declared.ask.CoreAsk.TheVariants.{Quiet as AsksNothing, Touch as Touches, Meet as Meets};
ghost use Rattle.hart_actor.specs.declared.stage.Stage.TheVariants.{Going, Meeting, Closed};
ghost use Rattle.hart_actor.specs.Harts.{HasEnded, GoesAlong, HartLeaves};
ghost use Rattle.hart_actor.specs.Objects.{AreOf, IsSameHart, IsRingFor};
ghost use Rattle.hart_actor.specs.Moves.{HartMove, Leads, side_of};
ghost use Rattle.hart_actor.specs.Turns.{HasMoved, HasStepped, HasTurned};

use crate::note::push_note;
use crate::output::put_out;
use crate::parts::HartParts;
use crate::stage::Stage;
use crate::turn::{HartTurn, Step, went_or};
use crate::ward::Ward;
use order_core::{Access, BoundedList, Bytes, CoreLog, Entry, NoMemory, Pieces};
use record_lane::{Got, Lane, Notes, Record, Reply, Ring, RingSender, Sent, Taker};
use rv_execute::Op;
use std::alloc::Global;
use std::marker::Model;
use std::sync::Wait;
use syscall_drain::limits::MOST_BUDGET;
use syscall_drain::{Answer, CoreAsk, CoreState, Guest, NextUnit};
use word_stores::{Pass, SharedMemory};

/// One core of a guest, which spends its units in turns. It keeps its log, its notes and its output, and tells its tag actor of each
/// unit by a record.
#[derive(Drop)]
pub struct HartActor {
    core: CoreState,
    stage: Stage,
    unsent: Option<Record>,
    log: CoreLog,
    notes: Notes,
    output: Bytes,
    pieces: Pieces,
    pass: Pass,
    sender: RingSender<Record>,
    taker: Taker<Reply>,
    guest: Ward,
}

impl Model for HartActor {
    ghost use Rattle.syscall_drain.specs.Seen.{budget_of, core_of, local_of};
    ghost use Rattle.hart_actor.specs.Harts.{Hart};
    ghost use Rattle.hart_actor.specs.Standing.{IsHart};

    ghost Value = { Hart };

    ghost view = { λ h. record {
      program = h.guest.program;
      budget = budget_of h.core;
      core = core_of h.core;
      local = local_of h.core;
      stage = h.stage;
      unsent = h.unsent;
      log = h.log;
      notes = h.notes;
      output = h.output;
      pieces = h.pieces;
      pass = h.pass;
      sender = h.sender;
      taker = h.taker;
    } };

    ghost invariant = { λ h. IsHart (record {
      program = h.guest.program;
      budget = budget_of h.core;
      core = core_of h.core;
      local = local_of h.core;
      stage = h.stage;
      unsent = h.unsent;
      log = h.log;
      notes = h.notes;
      output = h.output;
      pieces = h.pieces;
      pass = h.pass;
      sender = h.sender;
      taker = h.taker;
    }) };
}

impl HartActor {
    /// An actor of this core before its first unit, with so many units to spend. All memory that its turns need is taken here.
    pub fn create(
        alloc: Global,
        core: u8,
        guest: &Guest,
        budget: u32,
        pass: Pass,
        sender: RingSender<Record>,
        taker: Taker<Reply>,
    ) -> Result<HartActor, NoMemory>
        requires core { core < guest.now.layout.cores }
        requires budget { (1 ≤ budget) × (budget ≤ MOST_BUDGET) }
        requires caller { pass.caller ≡ core }
        requires numbers { 0 < pass.terms.limit + pass.terms.callers }
        requires new { (pass.changes ≡ []) × (sent_by sender ≡ []) × (taken_by taker ≡ []) }
        ensures program { IfOk result (λ h. (h.program ≡ guest.now) × (h.budget ≡ budget) × (h.core ≡ core)) }
        ensures local { IfOk result (λ h. (h.local ≡ opening_local guest.now core) × (h.stage ≡ Going) × (h.unsent ≡ None)) }
        ensures tokens { IfOk result (λ h. (h.pass ≡ pass) × (h.sender ≡ sender) × (h.taker ≡ taker)) }
    {
        let log = BoundedList::create(alloc, budget)?;
        let notes = BoundedList::create(alloc, budget)?;
        let output = BoundedList::create(alloc, 4 * budget)?;
        let pieces = BoundedList::create(alloc, budget)?;
        Ok(HartActor {
            core: CoreState::create(core, guest, budget),
            stage: Stage::Going,
            unsent: None,
            log,
            notes,
            output,
            pieces,
            pass,
            sender,
            taker,
            guest: Ward::of(guest),
        })
    }

    /// Sends the unsent record.
    fn send(&mut self, items: &Ring<Record>, item: Record) -> Step
        requires unsent { self.old.unsent ≡ Some item }
        requires ring { IsRingFor self.old items.now }
        ensures same { IsSameHart self.old self.new }
        ensures step { (replies : Lane Reply) → HasStepped items.now replies self.old self.new result }
    {
        match items.send(&mut self.sender, item) {
            Sent::Sent => {
                self.unsent = None;
                Step::Moved {
                    units: 0,
                    grown: true,
                }
            }
            Sent::Full(_) => Step::Full,
        }
    }

    /// A unit that asks for nothing.
    fn rest(&mut self, guest: &Guest, unit: NextUnit)
        requires guest { guest.now ≡ self.old.program }
        requires free { (self.old.stage ≡ Going) × (self.old.unsent ≡ None) }
        requires unit { IsNextUnit guest.now self.old.local unit }
        requires asked { unit.ask ≡ AsksNothing }
        requires sound { IsSound self.old.local }
        ensures same { IsSameHart self.old self.new }
        ensures moved { HasMoved 1 true self.old self.new }
    {
        let made = self.core.answer(guest, unit, Answer::Nothing);
        let _units = self.core.units();
        self.log.push(Entry { touch: None });
        self.unsent = made.item;
    }

    /// A unit with an access to this word.
    fn touch(&mut self, guest: &Guest, memory: &SharedMemory, unit: NextUnit, word: u32, op: Op)
        requires guest { guest.now ≡ self.old.program }
        requires free { (self.old.stage ≡ Going) × (self.old.unsent ≡ None) }
        requires unit { IsNextUnit guest.now self.old.local unit }
        requires asked { unit.ask ≡ Touches word op }
        requires sound { IsSound self.old.local }
        requires memory { IsPassOf memory.now self.old.pass × (length memory.now.basis.first ≡ words_of guest.now.layout) }
        ensures same { IsSameHart self.old self.new }
        ensures moved { HasMoved 1 true self.old self.new }
    {
        let taken = memory.access(&mut self.pass, word, op);
        let made = self.core.answer(guest, unit, Answer::Taken(taken));
        let _units = self.core.units();
        self.log.push(Entry {
            touch: Some(Access {
                word,
                number: taken.number,
                found: taken.old,
            }),
        });
        put_out(
            &mut self.output,
            &mut self.pieces,
            self.core.gathered(),
            made.placed,
        );
        self.unsent = made.item;
    }

    /// Comes to a meeting with this record.
    fn meet(&mut self, item: Record)
        requires free { (self.old.stage ≡ Going) × (self.old.unsent ≡ None) }
        requires asked { next_ask self.old.program self.old.local ≡ Meets item }
        ensures same { IsSameHart self.old self.new }
        ensures moved { HasMoved 0 false self.old self.new }
    {
        self.stage = Stage::Meeting(item);
        self.unsent = Some(item);
    }

    /// Makes the last record ready, once the core has ended.
    fn close(&mut self)
        requires free { (self.old.stage ≡ Going) × (self.old.unsent ≡ None) }
        requires ended { IsSome self.old.local.ending }
        ensures same { IsSameHart self.old self.new }
        ensures moved { HasMoved 0 false self.old self.new }
    {
        self.stage = Stage::Closed;
        self.unsent = Some(Record::End);
    }

    /// Takes up the reply to its meeting, which ends the meeting's unit.
    fn resume<R: Wait>(
        &mut self,
        rt: &R,
        guest: &Guest,
        replies: &Lane<Reply>,
        item: Record,
    ) -> Step
        requires guest { guest.now ≡ self.old.program }
        requires waiting { (self.old.stage ≡ Meeting item) × (self.old.unsent ≡ None) }
        requires taker { IsTakerOf replies.now self.old.taker }
        ensures same { IsSameHart self.old self.new }
        ensures step { (items : Ring Record) → HasStepped items replies.now self.old self.new result }
    {
        let reply = match replies.take(rt, &mut self.taker) {
            Got::Item(reply) => reply,
            Got::Empty => return Step::Waits,
        };
        let unit = self.core.next(guest);
        self.core.answer(guest, unit, Answer::Reply(reply));
        let _units = self.core.units();
        self.log.push(Entry { touch: None });
        push_note(&mut self.notes, item, reply);
        self.stage = Stage::Going;
        Step::Moved {
            units: 1,
            grown: true,
        }
    }

    /// The next unit, or what comes in its place where the core is at a meeting or has ended.
    fn commit(&mut self, guest: &Guest, memory: &SharedMemory) -> Step
        requires guest { guest.now ≡ self.old.program }
        requires free { (self.old.stage ≡ Going) × (self.old.unsent ≡ None) }
        requires memory { IsPassOf memory.now self.old.pass × (length memory.now.basis.first ≡ words_of guest.now.layout) }
        ensures same { IsSameHart self.old self.new }
        ensures step { (items : Ring Record) (replies : Lane Reply) → HasStepped items replies self.old self.new result }
    {
        let unit = self.core.next(guest);
        match unit.ask {
            CoreAsk::Quiet => {
                self.rest(guest, unit);
                Step::Moved {
                    units: 1,
                    grown: true,
                }
            }
            CoreAsk::Touch { word, op } => {
                self.touch(guest, memory, unit, word, op);
                Step::Moved {
                    units: 1,
                    grown: true,
                }
            }
            CoreAsk::Meet { item } => {
                self.meet(item);
                Step::Moved {
                    units: 0,
                    grown: false,
                }
            }
            CoreAsk::Ended => {
                self.close();
                Step::Moved {
                    units: 0,
                    grown: false,
                }
            }
        }
    }

    /// One move, if it has one.
    fn step<R: Wait>(
        &mut self,
        rt: &R,
        guest: &Guest,
        memory: &SharedMemory,
        items: &Ring<Record>,
        replies: &Lane<Reply>,
    ) -> Step
        requires of { AreOf self.old guest.now memory.now items.now replies.now }
        ensures same { IsSameHart self.old self.new }
        ensures step { HasStepped items.now replies.now self.old self.new result }
    {
        if let Some(item) = self.unsent {
            return self.send(items, item);
        }
        match self.stage {
            Stage::Going => self.commit(guest, memory),
            Stage::Meeting(item) => self.resume(rt, guest, replies, item),
            Stage::Closed => Step::Ended,
        }
    }

    /// Goes on until so many units are done, or it is blocked, or its last record is sent.
    pub fn turn<R: Wait>(
        &mut self,
        rt: &R,
        guest: &Guest,
        memory: &SharedMemory,
        items: &Ring<Record>,
        replies: &Lane<Reply>,
        quantum: u32,
    ) -> HartTurn
        requires of { AreOf self.old guest.now memory.now items.now replies.now }
        requires some { 1 ≤ quantum }
        ensures of { AreOf self.new guest.now memory.now items.now replies.now }
        ensures same { IsSameHart self.old self.new }
        ensures answer { HasTurned items.now replies.now quantum self.old self.new result }
        ensures units { self.new.local.units ≤ self.old.local.units + quantum }
        ensures over { HasEnded self.old → self.new ≡ self.old }
        ensures moves { (moves : List HartMove) × Leads moves (side_of self.old) (side_of self.new) }
    {
        let mut went = false;
        let mut left = quantum;
        'turn: for _ in rt.forever() {
            match self.step(rt, guest, memory, items, replies) {
                Step::Moved { units, grown } => {
                    went |= grown;
                    left -= units;
                    if left == 0 {
                        return HartTurn::Went;
                    }
                }
                Step::Full => return went_or(went, HartTurn::Full),
                Step::Waits => return went_or(went, HartTurn::Waits),
                Step::Ended => return HartTurn::Ended,
            }
        }
        unreachable!()
    }

    /// How many units are done; a meeting counts once it is answered.
    pub fn done(&self) -> u32
        ensures units { result ≡ self.now.local.units }
        ensures run { GoesAlong self.now }
    {
        self.core.units()
    }

    /// Whether its last record has been sent.
    pub fn ended(&self) -> bool
        ensures { IsTrue result ↔ HasEnded self.now }
    {
        matches!(self.stage, Stage::Closed) && self.unsent.is_none()
    }

    /// Ends the actor, once its last record has been sent.
    pub fn finish(self) -> HartParts
        requires { HasEnded self }
        ensures { HartLeaves self result }
    {
        let HartActor {
            core,
            stage: _,
            unsent: _,
            log,
            notes,
            output,
            pieces,
            pass,
            sender,
            taker,
            guest: _,
        } = self;
        let units = core.units();
        let Some(end) = core.end() else {
            unreachable!()
        };
        HartParts {
            end,
            units,
            entries: log,
            notes,
            output,
            pieces,
            pass,
            sender,
            taker,
        }
    }
}
