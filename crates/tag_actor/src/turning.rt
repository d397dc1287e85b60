//! A turn of a tag actor.

ghost use Rattle.std.specs.Prelude.{◌≡◌, ◌↔◌, ℕ, ◌<◌, false, true, ◌||◌, if◌then◌else◌, IsSome};
ghost use Rattle.tag_actor.specs.declared.answer.TagTurn.TheVariants.{Went, Ended};
ghost use Rattle.tag_actor.specs.Moves.{SettledAs};
ghost use Rattle.tag_actor.specs.Machine.{IsTurnOfTheMachine};
ghost use Rattle.tag_actor.specs.Turns.{AreOf, IsSameActor, AdvancedAs, IsTurn, HasGrown};

use crate::actor::TagActor;
use crate::answer::{Stop, TagTurn, Took};
use crate::stage::Stage;
use record_lane::{Lane, Record, Reply, Ring};
use std::sync::Wait;
use word_stores::TagMemory;

/// What a turn answers that came to a stop, after it had or had not consumed records.
fn answer_of(stop: Stop, consumed: bool) -> TagTurn
    ensures { result ≡ (if consumed || stop.took then Went else stop.cause) }
{
    if consumed || stop.took {
        TagTurn::Went
    } else {
        stop.cause
    }
}

impl TagActor {
    /// Is done with the record in hand, or says why it has to wait.
    fn settle<R: Wait>(&mut self, rt: &R, stage: &Stage) -> Option<TagTurn>
        requires objects { AreOf stage.now.memory.now stage.now.items.now stage.now.replies.now self.old }
        requires going { self.old.ended ≡ false }
        requires hand { IsSome self.old.hand }
        ensures settled { SettledAs stage.now.replies.now self.old self.new result }
        ensures objects { AreOf stage.now.memory.now stage.now.items.now stage.now.replies.now self.new }
        ensures same { IsSameActor self.old self.new }
    {
        let Some(item) = self.hand else {
            unreachable!()
        };
        match item {
            Record::Touch { .. } => self.serve(stage, item),
            _ => self.reply(rt, stage, item),
        }
    }

    /// Consumes one record, or says why it cannot.
    fn advance<R: Wait>(&mut self, rt: &R, stage: &Stage) -> Option<Stop>
        requires objects { AreOf stage.now.memory.now stage.now.items.now stage.now.replies.now self.old }
        requires going { self.old.ended ≡ false }
        ensures advanced { AdvancedAs stage.now.items.now stage.now.replies.now self.old self.new result }
        ensures objects { AreOf stage.now.memory.now stage.now.items.now stage.now.replies.now self.new }
        ensures same { IsSameActor self.old self.new }
    {
        if self.hand.is_some() {
            let cause = self.settle(rt, stage)?;
            return Some(Stop { took: false, cause });
        }
        match self.take(stage) {
            Took::Nothing => Some(Stop {
                took: false,
                cause: TagTurn::Empty,
            }),
            Took::Consumed => None,
            Took::InHand => {
                let cause = self.settle(rt, stage)?;
                Some(Stop { took: true, cause })
            }
        }
    }

    /// Consumes up to `quantum` records, fewer only where it ends or has to wait.
    pub fn turn<R: Wait>(
        &mut self,
        rt: &R,
        memory: &TagMemory,
        items: &Ring<Record>,
        replies: &Lane<Reply>,
        quantum: u32,
    ) -> TagTurn
        requires objects { AreOf memory.now items.now replies.now self.old }
        requires quantum { 0 < quantum }
        ensures turn { IsTurn items.now replies.now quantum self.old self.new result }
        ensures objects { AreOf memory.now items.now replies.now self.new }
        ensures same { IsSameActor self.old self.new }
        ensures ended { (result ≡ Ended) ↔ (self.new.ended ≡ true) }
        ensures went { (result ≡ Went) ↔ ((self.new.ended ≡ false) × HasGrown self.old self.new) }
        ensures machine { (core : ℕ) → IsTurnOfTheMachine core self.old self.new }
        ensures rest { self.old.ended ≡ true → self.new ≡ self.old }
    {
        if self.ended {
            return TagTurn::Ended;
        }
        let stage = Stage {
            memory,
            items,
            replies,
        };
        for consumed in 0..quantum {
            match self.advance(rt, &stage) {
                Some(stop) => return answer_of(stop, consumed > 0),
                None => {
                    if self.ended {
                        return TagTurn::Ended;
                    }
                }
            }
        }
        TagTurn::Went
    }
}
