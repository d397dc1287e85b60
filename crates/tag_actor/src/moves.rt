//! The moves of a tag actor.

ghost use Rattle.std.specs.Prelude.{◌≡◌, false, true, Some, None, IsSome};
ghost use Rattle.record_lane.specs.Rings.{IsTakerOf};
ghost use Rattle.tag_registers.specs.Files.{is_touch};
ghost use Rattle.tag_actor.specs.Seen.{must_wait, is_meet, is_end};
ghost use Rattle.tag_actor.specs.Moves.{TookAs, SettledAs};
ghost use Rattle.tag_actor.specs.Turns.{AreOf, IsSameActor};

use crate::actor::TagActor;
use crate::answer::{TagTurn, Took};
use crate::stage::Stage;
use record_lane::{Got, Lane, Record, Reply, Ring, Sent};
use std::sync::Wait;
use tag_registers::TagAsk;
use ticket_table::Served;
use word_stores::TagMemory;

/// Whether a record has to wait: an access for its number, or a meeting for room for its reply.
fn has_to_wait(item: &Record) -> bool
    ensures { result ≡ must_wait item.now }
{
    matches!(item, Record::Touch { .. } | Record::Meet { .. })
}

/// Whether it is the last record of its core.
fn is_last(item: &Record) -> bool
    ensures { result ≡ is_end item.now }
{
    matches!(item, Record::End)
}

impl TagActor {
    /// Takes the next record of the ring. One that has to wait comes into the hand; any other is consumed.
    pub(crate) fn take(&mut self, stage: &Stage) -> Took
        requires objects { AreOf stage.now.memory.now stage.now.items.now stage.now.replies.now self.old }
        requires going { self.old.ended ≡ false }
        requires free { self.old.hand ≡ None }
        ensures took { TookAs stage.now.items.now self.old self.new result }
        ensures objects { AreOf stage.now.memory.now stage.now.items.now stage.now.replies.now self.new }
        ensures same { IsSameActor self.old self.new }
    {
        match stage.items.take(&mut self.taker) {
            Got::Empty => Took::Nothing,
            Got::Item(item) => {
                if has_to_wait(&item) {
                    self.hand = Some(item);
                    return Took::InHand;
                }
                self.file.consume(&self.policy, &item);
                self.ended = is_last(&item);
                self.done = self.done.saturating_add(1);
                Took::Consumed
            }
        }
    }

    /// Makes the change of the access in hand, if its number has come.
    pub(crate) fn serve(&mut self, stage: &Stage, item: Record) -> Option<TagTurn>
        requires objects { AreOf stage.now.memory.now stage.now.items.now stage.now.replies.now self.old }
        requires going { self.old.ended ≡ false }
        requires hand { self.old.hand ≡ Some item }
        requires touch { is_touch item ≡ true }
        ensures settled { SettledAs stage.now.replies.now self.old self.new result }
        ensures objects { AreOf stage.now.memory.now stage.now.items.now stage.now.replies.now self.new }
        ensures same { IsSameActor self.old self.new }
    {
        let TagAsk::Serve { word, number, op } = self.file.consume(&self.policy, &item) else {
            unreachable!()
        };
        match stage.memory.serve(&mut self.pass, word, number, op) {
            Served::Done { old } => {
                self.file.consume_answer(&self.policy, &item, old);
                self.hand = None;
                self.done = self.done.saturating_add(1);
                None
            }
            Served::NotYet { seen } => Some(TagTurn::NotYet { word, number, seen }),
        }
    }

    /// Sends the reply to the meeting in hand, if there is room for it. The tags are those after the meeting from then on.
    pub(crate) fn reply<R: Wait>(&mut self, rt: &R, stage: &Stage, item: Record) -> Option<TagTurn>
        requires objects { AreOf stage.now.memory.now stage.now.items.now stage.now.replies.now self.old }
        requires going { self.old.ended ≡ false }
        requires hand { self.old.hand ≡ Some item }
        requires meet { is_meet item ≡ true }
        ensures settled { SettledAs stage.now.replies.now self.old self.new result }
        ensures objects { AreOf stage.now.memory.now stage.now.items.now stage.now.replies.now self.new }
        ensures same { IsSameActor self.old self.new }
    {
        let mut file = self.file;
        let TagAsk::Answer(reply) = file.consume(&self.policy, &item) else {
            unreachable!()
        };
        match stage.replies.send(rt, &mut self.sender, reply) {
            Sent::Sent => {
                self.file = file;
                self.hand = None;
                self.done = self.done.saturating_add(1);
                None
            }
            Sent::Full(_) => Some(TagTurn::ReplyFull),
        }
    }
}
