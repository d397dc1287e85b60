//! What the cores of a run leave, once all their actors have ended.
ghost use Rattle.std.specs.Prelude.{◌≡◌, [], length, IfOk};
ghost use Rattle.hart_actor.specs.Harts.{Hart};
ghost use Rattle.live_run.specs.Seats.{HaveEnded};
ghost use Rattle.live_run.specs.Ends.{AreAllLinked, HasRoom, kept, ends_of, HaveFinished};

use crate::pair::{Claims, Pair, finish_pair};
use bounded_list::{BoundedList, NoMemory};
use hart_actor::HartActor;
use inline_tracker::CoreOutcome;
use order_core::CoreLog;
use record_lane::{Lane, Record, Reply, Ring};
use std::alloc::Global;
use tag_actor::TagActor;
use ticket_table::Pass;

/// The logs, the outcomes, the outputs and the passes of the cores, in their order.
#[derive(Drop)]
pub(crate) struct Ends {
    pub logs: BoundedList<CoreLog>,
    pub outcomes: BoundedList<CoreOutcome>,
    pub claims: BoundedList<Claims>,
    pub drawn: BoundedList<Pass>,
    pub served: BoundedList<Pass>,
}

impl Ends {
    /// Room for what so many cores leave.
    pub(crate) fn create(alloc: Global, cores: u32) -> Result<Ends, NoMemory>
        ensures { IfOk result (λ ends. ends ≡ ends_of cores []) }
    {
        Ok(Ends {
            logs: BoundedList::create(alloc, cores)?,
            outcomes: BoundedList::create(alloc, cores)?,
            claims: BoundedList::create(alloc, cores)?,
            drawn: BoundedList::create(alloc, cores)?,
            served: BoundedList::create(alloc, cores)?,
        })
    }

    /// Keeps what the actors of one more core leave.
    fn keep(&mut self, pair: Pair)
        requires { HasRoom self.old }
        ensures { self.new ≡ kept self.old pair }
    {
        let Pair {
            entries,
            outcome,
            claims,
            drawn,
            served,
        } = pair;
        self.logs.push(entries);
        self.outcomes.push(outcome);
        self.claims.push(claims);
        self.drawn.push(drawn);
        self.served.push(served);
    }
}

/// Ends the actors of all cores, whose parts go into the room for them.
pub(crate) fn finish_all(
    mut harts: Vec<HartActor>,
    mut followers: Vec<TagActor>,
    mut items: Vec<Ring<Record>>,
    mut replies: Vec<Lane<Reply>>,
    mut ends: Ends,
) -> Ends
    requires ended { HaveEnded harts.items followers.items }
    requires linked { AreAllLinked harts.items followers.items items.items replies.items }
    requires room { ends ≡ ends_of (length harts.items) [] }
    ensures { HaveFinished harts.items followers.items items.items replies.items result }
{
    while !harts.is_empty() {
        let pair = finish_pair(
            harts.remove(0),
            followers.remove(0),
            items.remove(0),
            replies.remove(0),
        );
        ends.keep(pair);
    }
    ends
}
