//! The actors of a new run, core by core.
ghost use Rattle.std.specs.Prelude.{◌≡◌, ◌+◌, ◌<◌, ◌≤◌, [], ◌∷◌, ◌++◌, IfOk, OnOk};
ghost use Rattle.machine.specs.Setups.{core_count};
ghost use Rattle.record_lane.specs.Rings.{bound_of};
ghost use Rattle.record_lane.specs.declared.limits.TheConstants.{MOST_LANE};
ghost use Rattle.live_run.specs.Seats.{IsSeat};
ghost use Rattle.live_run.specs.Beginnings.{IsNewHart, IsNewFollower, HaveBound, HavePasses, AreFirstSeats};

use crate::tables::Tables;
use hart_actor::HartActor;
use inline_tracker::Setup;
use record_lane::{Lane, Record, Reply, Ring};
use std::alloc::Global;
use tag_actor::TagActor;
use word_stores::NoMemory;

/// One core, with its tag actor and what goes between the two.
#[derive(Drop)]
pub(crate) struct Seat {
    hart: HartActor,
    follower: TagActor,
    items: Ring<Record>,
    replies: Lane<Reply>,
}

/// The cores so far. Place c of each list belongs to core c.
#[derive(Drop)]
pub(crate) struct Seats {
    pub(crate) harts: Vec<HartActor>,
    pub(crate) followers: Vec<TagActor>,
    pub(crate) items: Vec<Ring<Record>>,
    pub(crate) replies: Vec<Lane<Reply>>,
}

/// The seat of the next core, which takes its two passes. Its ring holds at most `bound` records, and its lane one reply.
fn first_seat(
    alloc: Global,
    setup: &Setup,
    tables: &mut Tables,
    core: u8,
    bound: u32,
) -> Result<Seat, NoMemory>
    requires bound { (1 ≤ bound) × (bound ≤ MOST_LANE) }
    requires core { core < core_count setup.now }
    requires passes { HavePasses setup.now core tables.old }
    ensures passes { OnOk result (HavePasses setup.now (core + 1) tables.new) }
    ensures tables { OnOk result ((tables.new.memory ≡ tables.old.memory) × (tables.new.tags ≡ tables.old.tags)) }
    ensures seat { IfOk result (λ seat. IsSeat setup.now tables.old.memory tables.old.tags core seat.hart seat.follower seat.items seat.replies) }
    ensures new { IfOk result (λ seat. IsNewHart setup.now core seat.hart × IsNewFollower setup.now seat.follower) }
    ensures bound { IfOk result (λ seat. bound_of seat.items ≡ bound) }
{
    let guest = setup.guest();
    let words = guest.image().words();
    let top = setup.limit() + u32::from(guest.image().cores());
    let drawn = tables.drawn.remove(0);
    let served = tables.served.remove(0);
    let (items, item_sender, item_taker) = Ring::create(alloc, bound, words, top)?;
    let (replies, reply_sender, reply_taker) = Lane::create(alloc, 1, words, top)?;
    let hart = HartActor::create(
        alloc,
        core,
        guest,
        setup.budget(),
        drawn,
        item_sender,
        reply_taker,
    )?;
    Ok(Seat {
        hart,
        follower: TagActor::create(*setup.policy(), served, item_taker, reply_sender),
        items,
        replies,
    })
}

impl Seats {
    /// No core yet.
    fn none(alloc: Global) -> Seats
        ensures { (result.harts.items ≡ []) × (result.followers.items ≡ []) × (result.items.items ≡ []) × (result.replies.items ≡ []) }
    {
        Seats {
            harts: Vec::new(alloc),
            followers: Vec::new(alloc),
            items: Vec::new(alloc),
            replies: Vec::new(alloc),
        }
    }

    /// One core more.
    fn push(&mut self, seat: Seat) -> Result<(), NoMemory>
        ensures harts { OnOk result (self.new.harts.items ≡ self.old.harts.items ++ seat.hart ∷ []) }
        ensures followers { OnOk result (self.new.followers.items ≡ self.old.followers.items ++ seat.follower ∷ []) }
        ensures items { OnOk result (self.new.items.items ≡ self.old.items.items ++ seat.items ∷ []) }
        ensures replies { OnOk result (self.new.replies.items ≡ self.old.replies.items ++ seat.replies ∷ []) }
    {
        let Seat {
            hart,
            follower,
            items,
            replies,
        } = seat;
        self.harts.push(hart).map_err(|_| NoMemory)?;
        self.followers.push(follower).map_err(|_| NoMemory)?;
        self.items.push(items).map_err(|_| NoMemory)?;
        self.replies.push(replies).map_err(|_| NoMemory)
    }
}

/// The seats of all cores, none of which has had a turn.
pub(crate) fn first_seats(
    alloc: Global,
    setup: &Setup,
    tables: &mut Tables,
    bound: u32,
) -> Result<Seats, NoMemory>
    requires bound { (1 ≤ bound) × (bound ≤ MOST_LANE) }
    requires passes { HavePasses setup.now 0 tables.old }
    ensures tables { OnOk result ((tables.new.memory ≡ tables.old.memory) × (tables.new.tags ≡ tables.old.tags)) }
    ensures seats { IfOk result (AreFirstSeats setup.now tables.old.memory tables.old.tags (core_count setup.now)) }
    ensures bound { IfOk result (λ seats. HaveBound bound seats.items.items) }
{
    let mut seats = Seats::none(alloc);
    for core in 0..setup.guest().image().cores() {
        let seat = first_seat(alloc, setup, tables, core, bound)?;
        seats.push(seat)?;
    }
    Ok(seats)
}
