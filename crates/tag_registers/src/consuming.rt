//! A file of tags and the records of its core, one after another.

ghost use Rattle.std.specs.Prelude.{◌≡◌, List, [], ◌∷◌, ◌++◌, true, false};
ghost use Rattle.record_lane.specs.Sound.{IsSoundRecord};
ghost use Rattle.tag_policy.specs.Policies.{policy_in};
ghost use Rattle.tag_registers.specs.Tags.{tags_after};
ghost use Rattle.tag_registers.specs.Files.{tags_in, is_touch, tag_ask, consumed};
ghost use Rattle.tag_registers.specs.Folds.{Given, StandsAt};

use crate::ask::TagAsk;
use crate::file::TagFile;
use crate::looks::Unit;
use record_lane::Record;
use tag_policy::Policy;

impl TagFile {
    /// Takes the next record of the core. A touch changes nothing until the tag word that it finds is given.
    #[inline(always)]
    pub fn consume(&mut self, policy: &Policy, item: &Record) -> TagAsk
        requires { IsSoundRecord 4294967295 4294967295 item.now }
        ensures ask { result ≡ tag_ask (policy_in policy.now) (tags_in self.old) item.now }
        ensures tags { tags_in self.new ≡ consumed (policy_in policy.now) (tags_in self.old) item.now }
        ensures stands { (givens : List Given) → is_touch item.now ≡ false → StandsAt (policy_in policy.now) (tags_in self.old) givens → StandsAt (policy_in policy.now) (tags_in self.new) (givens ++ record { item = item.now; found = 0 } ∷ []) }
    {
        self.take_record(policy, item)
    }

    #[inline(always)]
    #[tactic(auto, unfolding(crate::specs::Tags::tags_after, crate::specs::Tags::word_op))]
    fn take_record(&mut self, policy: &Policy, item: &Record) -> TagAsk
        requires { IsSoundRecord 4294967295 4294967295 item.now }
        ensures ask { result ≡ tag_ask (policy_in policy.now) (tags_in self.old) item.now }
        ensures tags { tags_in self.new ≡ consumed (policy_in policy.now) (tags_in self.old) item.now }
    {
        match item {
            Record::Quiet {
                step,
                pc,
                insn,
                faulted,
            } => {
                let unit = Unit {
                    step: *step,
                    pc: *pc,
                };
                self.quiet(policy, unit, insn, *faulted);
                TagAsk::Done
            }
            Record::Blank { .. } => TagAsk::Done,
            Record::Touch {
                word,
                number,
                why,
                ..
            } => TagAsk::Serve {
                word: *word,
                number: *number,
                op: self.touch_operation(policy, why),
            },
            Record::Meet {
                step,
                pc,
                call,
                kind,
            } => {
                let unit = Unit {
                    step: *step,
                    pc: *pc,
                };
                self.meet(policy, unit, *call, *kind);
                TagAsk::Answer(self.reply())
            }
            Record::Back { .. } => {
                self.set(10, 0);
                TagAsk::Done
            }
            Record::End => TagAsk::Ended,
        }
    }

    /// Finishes a touch, whose access found this tag word.
    pub fn consume_answer(&mut self, policy: &Policy, item: &Record, old: u32)
        requires sound { IsSoundRecord 4294967295 4294967295 item.now }
        requires touch { is_touch item.now ≡ true }
        ensures tags { tags_in self.new ≡ tags_after (policy_in policy.now) (tags_in self.old) item.now old }
        ensures stands { (givens : List Given) → StandsAt (policy_in policy.now) (tags_in self.old) givens → StandsAt (policy_in policy.now) (tags_in self.new) (givens ++ record { item = item.now; found = old } ∷ []) }
    {
        self.finish_touch(policy, item, old);
    }

    #[tactic(auto, unfolding(crate::specs::Tags::tags_after))]
    fn finish_touch(&mut self, policy: &Policy, item: &Record, old: u32)
        requires sound { IsSoundRecord 4294967295 4294967295 item.now }
        requires touch { is_touch item.now ≡ true }
        ensures { tags_in self.new ≡ tags_after (policy_in policy.now) (tags_in self.old) item.now old }
    {
        if let Record::Touch { step, pc, why, .. } = item {
            let unit = Unit {
                step: *step,
                pc: *pc,
            };
            self.touch(policy, unit, why, old);
        }
    }
}
