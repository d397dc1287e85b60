//! A tag actor, from its start to its parts.

ghost use Rattle.std.specs.Prelude.{◌≡◌, true, []};
ghost use Rattle.record_lane.specs.Lanes.{sent_by};
ghost use Rattle.record_lane.specs.Rings.{taken_by};
ghost use Rattle.tag_policy.specs.Policies.{policy_in};
ghost use Rattle.tag_actor.specs.Seen.{done_by, begins};
ghost use Rattle.tag_actor.specs.Standing.{HasRecords};
ghost use Rattle.tag_actor.specs.Leaving.{HasLeft};

use record_lane::{Record, Reply, RingTaker, Sender, Trap};
use std::marker::Model;
use tag_policy::Policy;
use tag_registers::TagFile;
use ticket_table::Pass;

/// The tag actor of one core. A record that has to wait, an access for its number or a meeting for room for its reply, stays in its hand.
#[derive(Drop)]
pub struct TagActor {
    pub(crate) policy: Policy,
    pub(crate) file: TagFile,
    pub(crate) pass: Pass,
    pub(crate) taker: RingTaker<Record>,
    pub(crate) sender: Sender<Reply>,
    pub(crate) hand: Option<Record>,
    pub(crate) ended: bool,
    pub(crate) done: u32,
}

/// What a tag actor leaves: the first trap of its core, and its tokens.
#[derive(Drop)]
pub struct TagParts {
    pub trap: Option<Trap>,
    pub pass: Pass,
    pub taker: RingTaker<Record>,
    pub sender: Sender<Reply>,
}

impl Model for TagActor {
    ghost use Rattle.tag_policy.specs.Policies.{policy_in};
    ghost use Rattle.tag_registers.specs.Files.{tags_in};
    ghost use Rattle.tag_actor.specs.Seen.{TagActorSeen};
    ghost use Rattle.tag_actor.specs.Standing.{IsTagActor};

    ghost Value = { TagActorSeen };

    ghost view = { λ actor. record {
      policy = policy_in actor.policy;
      tags = tags_in actor.file;
      pass = actor.pass;
      taker = actor.taker;
      sender = actor.sender;
      hand = actor.hand;
      ended = actor.ended;
      done = actor.done;
    } };

    ghost invariant = { λ actor. IsTagActor (record {
      policy = policy_in actor.policy;
      tags = tags_in actor.file;
      pass = actor.pass;
      taker = actor.taker;
      sender = actor.sender;
      hand = actor.hand;
      ended = actor.ended;
      done = actor.done;
    }) };
}

impl TagActor {
    /// The actor before the first record of its core, with no tags.
    pub fn create(
        policy: Policy,
        pass: Pass,
        taker: RingTaker<Record>,
        sender: Sender<Reply>,
    ) -> TagActor
        requires pass { pass.changes ≡ [] }
        requires taker { taken_by taker ≡ [] }
        requires sender { sent_by sender ≡ [] }
        ensures { result ≡ begins (policy_in policy) pass taker sender }
    {
        TagActor {
            policy,
            file: TagFile::create(),
            pass,
            taker,
            sender,
            hand: None,
            ended: false,
            done: 0,
        }
    }

    /// How many records it has consumed, or 4,294,967,295 where they are more. Its tags, changes and replies are their fold.
    pub fn done(&self) -> u32
        ensures count { result ≡ done_by self.now }
        ensures stands { HasRecords self.now }
    {
        self.done
    }

    /// Whether it has consumed the last record of its core.
    pub fn ended(&self) -> bool
        ensures { result ≡ self.now.ended }
    {
        self.ended
    }

    /// What it leaves, once it has ended.
    pub fn finish(self) -> TagParts
        requires { self.ended ≡ true }
        ensures { HasLeft self result }
    {
        let TagActor {
            policy: _,
            file,
            pass,
            taker,
            sender,
            hand: _,
            ended: _,
            done: _,
        } = self;
        TagParts {
            trap: file.trap(),
            pass,
            taker,
            sender,
        }
    }
}
