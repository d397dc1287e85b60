//! Records through a ring.

ghost use Rattle.std.specs.Prelude.{◌≡◌, [], length};
ghost use Rattle.record_lane.specs.Rings.{word_count_of, top_of, sent_by, IsSenderOf, IsTakerOf};

use super::BOUND;
use super::trace::{added, record_of};
use anyhow::{Result, anyhow};
use record_lane::{Got, Record, Ring, RingSender, RingTaker, Sent};
use std::alloc::Global;
use std::sync::Wait;
use std::thread;
use std::thread::Threads;

fn send_all<R: Wait>(
    rt: &R,
    ring: &Ring<Record>,
    mut sender: RingSender<Record>,
    count: u32,
) -> RingSender<Record>
    requires sender { IsSenderOf ring.now sender × (sent_by sender ≡ []) }
    requires numbers { (word_count_of ring.now ≡ 1024) × (top_of ring.now ≡ 1) }
    ensures { IsSenderOf ring.now result }
{
    let mut next = 0;
    'sends: for _ in rt.forever() {
        if next >= count {
            break;
        }
        match ring.send(&mut sender, record_of(next)) {
            Sent::Sent => next += 1,
            Sent::Full(_) => thread::yield_now(),
        }
    }
    sender
}

fn take_all<R: Wait>(
    rt: &R,
    ring: &Ring<Record>,
    mut taker: RingTaker<Record>,
    count: u32,
) -> (RingTaker<Record>, u32)
    requires { IsTakerOf ring.now taker }
    ensures { IsTakerOf ring.now result.0 }
{
    let mut next = 0;
    let mut sum = 0;
    'takes: for _ in rt.forever() {
        if next >= count {
            break;
        }
        match ring.take(&mut taker) {
            Got::Item(record) => {
                sum = added(sum, record);
                next += 1;
            }
            Got::Empty => thread::yield_now(),
        }
    }
    (taker, sum)
}

/// The checksum of so many records that went through.
pub fn pass<R: Threads + Wait + Sync>(rt: &R, alloc: Global, count: u32) -> Result<u32> {
    let (ring, sender, taker) = Ring::create(alloc, BOUND, 1024, 1).map_err(|_| anyhow!(
        "no memory"
    ))?;
    let shared = &ring;
    let (_, (_, sum)) = thread::join(
        rt,
        move ||
            requires { IsSenderOf shared.now sender × (sent_by sender ≡ []) × (word_count_of shared.now ≡ 1024) × (top_of shared.now ≡ 1) }
            ensures { IsSenderOf shared.entry.now result }
        { send_all(rt, shared, sender, count) },
        move ||
            requires { IsTakerOf shared.now taker }
            ensures { IsTakerOf shared.entry.now result.0 }
        { take_all(rt, shared, taker, count) },
    );
    Ok(sum)
}
