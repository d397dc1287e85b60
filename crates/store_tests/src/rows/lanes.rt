ghost use Rattle.std.specs.Prelude.{◌≡◌, [], length};
ghost use Rattle.record_lane.specs.Lanes.{sent_by, taken_by, IsSenderOf, IsTakerOf};

use super::Row;
use bounded_list::NoMemory;
use record_lane::{Got, Item, Lane, Reply, Sender, Sent, Taker};
use std::alloc::Global;
use std::sync::Wait;
use std::test::Fail;
use std::thread;

pub fn lane_row<T: Item + Copy, R: Wait>(
    rt: &R,
    alloc: Global,
    first: T,
    second: T,
) -> Result<Row<T>, NoMemory>
    requires first { T.sound 1 1 first }
    requires second { T.sound 1 1 second }
{
    let (lane, mut sender, mut taker) = Lane::create(alloc, 1, 1, 1)?;
    let sent = lane.send(rt, &mut sender, first);
    let refused = lane.send(rt, &mut sender, second);
    let item = lane.take(rt, &mut taker);
    let empty = lane.take(rt, &mut taker);
    let _ = lane.send(rt, &mut sender, second);
    let mut left = lane.close(sender, taker);
    let last = left.next(rt);
    let none = left.next(rt);
    Ok((sent, refused, item, empty, last, none))
}

// A reply that bears this number.
fn numbered(number: u32) -> Reply {
    Reply {
        stop: false,
        trap: None,
        tags: u128::from(number),
        buffer: 0,
    }
}

// Sends so many replies, numbered from 0.
fn send_all<R: Wait>(
    rt: &R,
    lane: &Lane<Reply>,
    mut sender: Sender<Reply>,
    count: u32,
) -> Sender<Reply>
    requires { IsSenderOf lane.now sender × (sent_by sender ≡ []) }
    ensures { IsSenderOf lane.now result }
{
    let mut next = 0;
    'sends: for _ in rt.forever() {
        if next >= count {
            break;
        }
        match lane.send(rt, &mut sender, numbered(next)) {
            Sent::Sent => next += 1,
            Sent::Full(_) => thread::yield_now(),
        }
    }
    sender
}

// Takes so many replies, and counts those that come at their turn.
fn take_all<R: Wait>(
    rt: &R,
    lane: &Lane<Reply>,
    mut taker: Taker<Reply>,
    count: u32,
) -> (Taker<Reply>, u32)
    requires { IsTakerOf lane.now taker }
    ensures { IsTakerOf lane.now result.0 }
{
    let mut next = 0;
    let mut in_order = 0;
    'takes: for _ in rt.forever() {
        if next >= count {
            break;
        }
        match lane.take(rt, &mut taker) {
            Got::Item(reply) => {
                if reply == numbered(next) && in_order == next {
                    in_order += 1;
                }
                next += 1;
            }
            Got::Empty => thread::yield_now(),
        }
    }
    (taker, in_order)
}

#[test]
fn replies_go_from_thread_to_thread_in_order(rt: HostRuntime) -> Result<(), Fail> {
    let (lane, sender, taker) = Lane::create(rt.alloc(), 1, 1, 1)?;
    let shared = &lane;
    let handle = &rt;
    let (sender, (taker, in_order)) = thread::join(
        &rt,
        move ||
            requires { IsSenderOf shared.now sender × (sent_by sender ≡ []) }
            ensures { IsSenderOf shared.entry.now result }
        { send_all(handle, shared, sender, 20_000) },
        move ||
            requires { IsTakerOf shared.now taker }
            ensures { IsTakerOf shared.entry.now result.0 }
        { take_all(handle, shared, taker, 20_000) },
    );
    assert!(rt; in_order == 20_000);
    assert!(rt; lane.close(sender, taker).next(&rt) == None);
    Ok(())
}
