//! Sends records from one thread to another: tells their count and a checksum of what came.
//!
//! A ring and a queue hold 64 records at most.

mod queue;
mod ring;
mod trace;

use crate::numbers::number;
use anyhow::{Result, ensure};
use std::sync::Wait;
use std::thread::Threads;

/// How many records a ring or a queue holds at most.
const BOUND: u32 = 64;

/// By what the records go from thread to thread.
#[derive(Clone, Copy)]
pub enum Way {
    /// A ring of slots.
    Ring,
    /// The queue that the kit has.
    Queue,
}

/// Sends as many records as the words say, and tells what came.
pub fn tell<R: AllocGlobal + Print + Threads + Wait + Sync>(
    rt: &R,
    way: Way,
    words: &[String],
) -> Result<()> {
    ensure!(words.len() == 1, "the size is: COUNT");
    let count = number(words, 0)?;
    let sum = match way {
        Way::Ring => ring::pass(rt, rt.alloc(), count)?,
        Way::Queue => queue::pass(rt, rt.alloc(), count)?,
    };
    println!(rt; "records {count} checksum {sum}")?;
    Ok(())
}
