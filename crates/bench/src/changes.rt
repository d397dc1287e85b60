//! Changes shared words from several threads, by a table of numbered words or by the bare steps that it is made of: tells how
//! many changes were made.
//!
//! The words are `read`, `write` or `serve`; `call`, or `bare` for the bare step; 1, 2 or 4 threads; `own` for a word of each
//! thread, or `one` for a word of all; and the count of changes of each thread.

mod bare;
mod drawing;
mod measure;
mod serving;

use self::measure::{Call, Measure, Side, WRITE, read_measure};
use anyhow::Result;
use rv_execute::Op;
use std::alloc::Global;
use std::thread::Threads;

fn count_changes<R: Threads + Sync>(rt: &R, alloc: Global, measure: Measure) -> Result<u64> {
    match (measure.side, measure.call) {
        (Side::Call, Call::Read) => drawing::draw(rt, alloc, measure, Op::Read),
        (Side::Call, Call::Write) => drawing::draw(rt, alloc, measure, WRITE),
        (Side::Call, Call::Serve) => serving::serve(rt, alloc, measure),
        (Side::Bare, Call::Read) => bare::add(rt, alloc, measure),
        (Side::Bare, Call::Write) => bare::exchange(rt, alloc, measure),
        (Side::Bare, Call::Serve) => bare::exchange_in_turns(rt, alloc, measure),
    }
}

/// Makes the changes that the words say, and tells how many.
pub fn tell<R: AllocGlobal + Print + Threads + Sync>(rt: &R, words: &[String]) -> Result<()> {
    let measure = read_measure(words)?;
    let changes = count_changes(rt, rt.alloc(), measure)?;
    println!(rt; "changes {changes}")?;
    Ok(())
}
