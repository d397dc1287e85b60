ghost use Rattle.std.specs.Prelude.{◌≡◌, [], length};
ghost use Rattle.record_lane.specs.Rings.{sent_by, taken_by, IsSenderOf, IsTakerOf};

use super::Row;
use bounded_list::NoMemory;
use record_lane::{Got, Item, Record, Ring, RingSender, RingTaker, Sent};
use std::alloc::Global;
use std::sync::Wait;
use std::test::Fail;
use std::thread;

pub fn ring_row<T: Item + Copy>(alloc: Global, first: T, second: T) -> Result<Row<T>, NoMemory>
    requires first { T.sound 1 1 first }
    requires second { T.sound 1 1 second }
{
    let (ring, mut sender, mut taker) = Ring::create(alloc, 1, 1, 1)?;
    let sent = ring.send(&mut sender, first);
    let refused = ring.send(&mut sender, second);
    let item = ring.take(&mut taker);
    let empty = ring.take(&mut taker);
    let _ = ring.send(&mut sender, second);
    let mut left = ring.close(sender, taker);
    let last = left.next();
    let none = left.next();
    Ok((sent, refused, item, empty, last, none))
}

// Sends so many blank records, numbered from 0.
fn send_all<R: Wait>(
    rt: &R,
    ring: &Ring<Record>,
    mut sender: RingSender<Record>,
    count: u32,
) -> RingSender<Record>
    requires { IsSenderOf ring.now sender × (sent_by sender ≡ []) }
    ensures { IsSenderOf ring.now result }
{
    let mut next = 0;
    'sends: for _ in rt.forever() {
        if next >= count {
            break;
        }
        match ring.send(&mut sender, Record::Blank { step: next, pc: 0 }) {
            Sent::Sent => next += 1,
            Sent::Full(_) => thread::yield_now(),
        }
    }
    sender
}

// Takes so many blank records, and counts those that come at their turn.
fn take_all<R: Wait>(
    rt: &R,
    ring: &Ring<Record>,
    mut taker: RingTaker<Record>,
    count: u32,
) -> (RingTaker<Record>, u32)
    requires { IsTakerOf ring.now taker }
    ensures { IsTakerOf ring.now result.0 }
{
    let mut next = 0;
    let mut in_order = 0;
    'takes: for _ in rt.forever() {
        if next >= count {
            break;
        }
        match ring.take(&mut taker) {
            Got::Item(record) => {
                if record == (Record::Blank { step: next, pc: 0 }) && in_order == next {
                    in_order += 1;
                }
                next += 1;
            }
            Got::Empty => thread::yield_now(),
        }
    }
    (taker, in_order)
}

#[test]
fn two_hundred_thousand_records_come_in_order_and_none_is_lost(
    rt: HostRuntime,
) -> Result<(), Fail> {
    for bound in [1, 2, 64] {
        let (ring, sender, taker) = Ring::create(rt.alloc(), bound, 1, 1)?;
        let shared = &ring;
        let handle = &rt;
        let (sender, (taker, in_order)) = thread::join(
            &rt,
            move ||
                requires { IsSenderOf shared.now sender × (sent_by sender ≡ []) }
                ensures { IsSenderOf shared.entry.now result }
            { send_all(handle, shared, sender, 200_000) },
            move ||
                requires { IsTakerOf shared.now taker }
                ensures { IsTakerOf shared.entry.now result.0 }
            { take_all(handle, shared, taker, 200_000) },
        );
        assert!(rt; in_order == 200_000, "bound {bound}");
        assert!(rt; ring.close(sender, taker).next() == None, "bound {bound}");
    }
    Ok(())
}
