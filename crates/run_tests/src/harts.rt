//! A hart whose ring is full.

ghost use Rattle.std.specs.Prelude.{IfOk};
ghost use Rattle.record_lane.specs.Rings.{IsTakerOf};
ghost use Rattle.hart_actor.specs.Objects.{AreOf};

use guest_images::{COUNT, guest_of};
use hart_actor::{HartActor, HartTurn};
use record_lane::{Got, Lane, Record, Reply, Ring, RingTaker};
use std::alloc::Global;
use std::sync::Wait;
use std::test::Fail;
use syscall_drain::Guest;
use word_stores::SharedMemory;

const BUDGET: u32 = 1_048_576;

const LIMIT: u32 = 10;

/// The limit and the one caller.
const TOP: u32 = 11;

/// A hart, the memory, the ring of one record and the lane of its turns, and the taker of the ring.
#[derive(Drop)]
struct Stage {
    hart: HartActor,
    memory: SharedMemory,
    items: Ring<Record>,
    replies: Lane<Reply>,
    taken: RingTaker<Record>,
}

fn open_stage(alloc: Global, guest: &Guest) -> Result<Stage, Fail>
    ensures hart { IfOk result (λ made. AreOf made.hart guest.now made.memory made.items made.replies) }
    ensures taker { IfOk result (λ made. IsTakerOf made.items made.taken) }
{
    if guest.image().cores() == 0 {
        return Err(Fail::new("no core"));
    }
    let words = guest.image().words();
    let (memory, mut passes) = SharedMemory::create(alloc, guest.image(), 1, LIMIT)?;
    let pass = passes.pop().ok_or("a pass")?;
    let (items, sender, taken) = Ring::<Record>::create(alloc, 1, words, TOP)?;
    let (replies, _answers, taker) = Lane::<Reply>::create(alloc, 1, words, TOP)?;
    let hart = HartActor::create(alloc, 0, guest, BUDGET, pass, sender, taker)?;
    Ok(Stage {
        hart,
        memory,
        items,
        replies,
        taken,
    })
}

/// A turn of up to 100 units, and how many units the hart has done after it.
fn turn_of<R: Wait>(
    rt: &R,
    hart: &mut HartActor,
    guest: &Guest,
    memory: &SharedMemory,
    items: &Ring<Record>,
    replies: &Lane<Reply>,
) -> (HartTurn, u32)
    requires { AreOf hart.old guest.now memory.now items.now replies.now }
    ensures { AreOf hart.new guest.now memory.now items.now replies.now }
{
    let turn = hart.turn(rt, guest, memory, items, replies, 100);
    (turn, hart.done())
}

/// The step of the next record, if there is one, of an instruction without an access.
fn next_quiet(items: &Ring<Record>, taken: &mut RingTaker<Record>) -> Option<u32>
    requires { IsTakerOf items.now taken.old }
    ensures { IsTakerOf items.now taken.new }
{
    match items.take(taken) {
        Got::Item(Record::Quiet { step, .. }) => Some(step),
        _ => None,
    }
}

#[test]
fn a_ring_of_one_record_stops_its_hart(rt: HostRuntime) -> Result<(), Fail> {
    let guest = guest_of(rt.alloc(), &COUNT, 1)?;
    let Stage {
        mut hart,
        memory,
        items,
        replies,
        mut taken,
    } = open_stage(rt.alloc(), &guest)?;
    let first = turn_of(&rt, &mut hart, &guest, &memory, &items, &replies);
    let second = turn_of(&rt, &mut hart, &guest, &memory, &items, &replies);
    let record = next_quiet(&items, &mut taken);
    let third = turn_of(&rt, &mut hart, &guest, &memory, &items, &replies);
    assert!(rt; first == (HartTurn::Went, 2));
    assert!(rt; second == (HartTurn::Full, 2));
    assert!(rt; record == Some(0));
    assert!(rt; third == (HartTurn::Went, 3));
    assert!(rt; next_quiet(&items, &mut taken) == Some(1));
    assert!(rt; next_quiet(&items, &mut taken) == None);
    Ok(())
}
