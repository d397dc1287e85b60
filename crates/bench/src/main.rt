//! Does one part of what a run does, at the size that the words say, and prints what came of it: to be measured from outside.
//!
//! The first word says which part, and the others its size:
//!
//! - `merge` or `walk`, CORES ENTRIES WORDS: the order of logs;
//! - `ring` or `queue`, COUNT: records from one thread to another;
//! - `words`, read|write|serve call|bare THREADS own|one COUNT: changes of shared words;
//! - `run`, IMAGE CORES BUDGET [BOUND QUANTUM]: a guest program.
//!
//! Where there are no words, each line of the standard input has such words.
#![tactic(auto)]

mod changes;
mod numbers;
mod orders;
mod records;
mod runs;

use anyhow::{Context, Result, anyhow};
use std::env;
use std::rt::{Env, Files};
use std::sync::Wait;
use std::thread::Threads;

/// The answer to other words.
const PARTS: &str = "the first word is merge, walk, ring, queue, words or run";

fn measure<R: AllocGlobal + Print + Files + Threads + Wait + Sync>(
    rt: &R,
    words: &[String],
) -> Result<()> {
    let (part, sizes) = words.split_first().context(PARTS)?;
    match part.as_str() {
        "merge" => orders::tell(rt, orders::Way::Merge, sizes),
        "walk" => orders::tell(rt, orders::Way::Walk, sizes),
        "ring" => records::tell(rt, records::Way::Ring, sizes),
        "queue" => records::tell(rt, records::Way::Queue, sizes),
        "words" => changes::tell(rt, sizes),
        "run" => runs::tell(rt, sizes),
        _ => Err(anyhow!("{}", PARTS)),
    }
}

fn run<R: Env + AllocGlobal + Input + Print + Files + Threads + Wait + Sync>(rt: &R) -> Result<()> {
    let words: Vec<String> = env::args(rt)?.skip(1).collect(rt.alloc())?;
    if !words.is_empty() {
        return measure(rt, &words);
    }
    for line in rt.lines(rt.alloc()) {
        let line = line?;
        let mut words = Vec::new(rt.alloc());
        for word in line.as_str().split_whitespace() {
            words.push(String::from_str(rt.alloc(), word)?)?;
        }
        measure(rt, &words)?;
    }
    Ok(())
}

fn main(rt: HostRuntime) -> Result<()> {
    run(&rt)
}
