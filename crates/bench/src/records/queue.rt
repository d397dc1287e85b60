//! Records through a queue of `crossbeam_queue`.

use super::BOUND;
use super::trace::{added, record_of};
use crossbeam_queue::ArrayQueue;
use record_lane::Record;
use std::alloc::{AllocError, Global};
use std::sync::Wait;
use std::thread;
use std::thread::Threads;

fn send_all<R: Wait>(rt: &R, queue: &ArrayQueue<Record>, count: u32) {
    let mut next = 0;
    'sends: for _ in rt.forever() {
        if next >= count {
            break;
        }
        match queue.push(rt, record_of(next)) {
            Ok(()) => next += 1,
            Err(_) => thread::yield_now(),
        }
    }
}

fn take_all<R: Wait>(rt: &R, queue: &ArrayQueue<Record>, count: u32) -> u32 {
    let mut next = 0;
    let mut sum = 0;
    'takes: for _ in rt.forever() {
        if next >= count {
            break;
        }
        match queue.pop(rt) {
            Some(record) => {
                sum = added(sum, record);
                next += 1;
            }
            None => thread::yield_now(),
        }
    }
    sum
}

/// The checksum of so many records that went through.
pub fn pass<R: Threads + Wait + Sync>(
    rt: &R,
    alloc: Global,
    count: u32,
) -> Result<u32, AllocError> {
    let queue = ArrayQueue::new(alloc, BOUND as usize)?;
    let shared = &queue;
    let ((), sum) = thread::join(
        rt,
        move || send_all(rt, shared, count),
        move || take_all(rt, shared, count),
    );
    Ok(sum)
}
