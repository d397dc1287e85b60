//! Merges or walks logs: tells the length and a checksum of the order.

ghost use Rattle.std.specs.Prelude.{◌≤◌, length, IsTrue};
ghost use Rattle.order_core.specs.Logs.{logs_of, entry_count, AllTouchBelow};
ghost use Rattle.order_core.specs.WalkCalls.{IsWalking};

use crate::numbers::number;
use anyhow::{Context, Result, anyhow, ensure};
use order_core::{Access, CoreLog, Entry, MergeRoom, Walk, all_touch_below, merge};
use std::alloc::Global;

/// How the order is made.
#[derive(Clone, Copy)]
pub enum Way {
    Merge,
    Walk,
}

/// The size of the logs.
#[derive(Clone, Copy)]
struct Size {
    cores: u32,
    entries: u32,
    words: u32,
}

fn read_size(words: &[String]) -> Result<Size> {
    ensure!(words.len() == 3, "the sizes are: CORES ENTRIES WORDS");
    Ok(Size {
        cores: number(words, 0)?,
        entries: number(words, 1)?,
        words: number(words, 2)?,
    })
}

/// An entry that follows all that were made before: each fourth has no access, and the others go round the words.
fn next_entry(counts: &mut Vec<u32>, step: u32) -> Entry {
    let words = counts.len();
    if step % 4 == 3 || words == 0 {
        return Entry { touch: None };
    }
    let place = step.wrapping_mul(2_654_435_761) as usize % words;
    let number = counts[place];
    counts[place] = number.wrapping_add(1);
    let touch = u32::try_from(place).ok().map(|word| Access {
        word,
        number,
        found: step,
    });
    Entry { touch }
}

/// Logs that have a legal merge: the cores make their entries in turn.
fn make_logs(alloc: Global, size: Size) -> Result<Vec<CoreLog>> {
    let mut logs = Vec::new(alloc);
    for _ in 0..size.cores {
        let log = CoreLog::create(alloc, size.entries).map_err(|_| anyhow!("no memory"))?;
        logs.push(log)?;
    }
    let mut counts = vec![in alloc; 0; size.words as usize]?;
    let mut step = 0u32;
    for _ in 0..size.entries {
        for log in logs.iter_mut() {
            let entry = next_entry(&mut counts, step);
            step = step.wrapping_add(1);
            if log.len() < log.room() as usize {
                log.push(entry);
            }
        }
    }
    Ok(logs)
}

/// Whether the logs together hold at most so many entries.
fn entries_within(logs: &[CoreLog], most: u32) -> bool
    requires { length logs.now ≤ 32 }
    ensures { IsTrue result → entry_count (logs_of logs.now) ≤ most }
{
    let mut total = 0u64;
    for log in logs {
        total += log.len() as u64;
    }
    total <= u64::from(most)
}

/// What is told of an order: its length, and a sum that depends on each core and its place.
#[derive(Clone, Copy)]
struct Sum {
    length: u32,
    checksum: u32,
}

impl Sum {
    fn of_nothing() -> Sum {
        Sum {
            length: 0,
            checksum: 0,
        }
    }

    fn with(self, core: u8) -> Sum {
        Sum {
            length: self.length.wrapping_add(1),
            checksum: self.checksum.wrapping_mul(31).wrapping_add(u32::from(core)),
        }
    }
}

/// The order that `merge` gives of logs that hold so many entries at most.
fn sum_merged(alloc: Global, logs: &[CoreLog], words: u32, units: u32) -> Result<Sum>
    requires cores { length logs.now ≤ 32 }
    requires words { AllTouchBelow words (logs_of logs.now) }
    requires units { entry_count (logs_of logs.now) ≤ units }
{
    let mut room = MergeRoom::create(alloc, words, units).map_err(|_| anyhow!("no memory"))?;
    merge(logs, &mut room);
    let mut sum = Sum::of_nothing();
    for core in room.order().as_slice() {
        sum = sum.with(*core);
    }
    Ok(sum)
}

/// The order that a walk gives, as far as so many cores.
fn sum_walk(mut walk: Walk, logs: &[CoreLog], units: u32) -> Sum
    requires { IsWalking walk (logs_of logs.now) }
{
    let mut sum = Sum::of_nothing();
    'cores: for _ in 0..units {
        let Some(core) = walk.next(logs) else {
            return sum;
        };
        sum = sum.with(core);
    }
    sum
}

/// The order that a walk gives of logs that hold so many entries at most.
fn sum_walked(alloc: Global, logs: &[CoreLog], words: u32, units: u32) -> Result<Sum>
    requires cores { length logs.now ≤ 32 }
    requires words { AllTouchBelow words (logs_of logs.now) }
{
    let Ok(walk) = Walk::create(alloc, words, logs.len() as u8) else {
        return Err(anyhow!("no memory"));
    };
    Ok(sum_walk(walk, logs, units))
}

/// Makes logs of the size that the words say, and tells of their order.
pub fn tell<R: AllocGlobal + Print>(rt: &R, way: Way, words: &[String]) -> Result<()> {
    let size = read_size(words)?;
    let units = size
        .cores
        .checked_mul(size.entries)
        .context("too many entries")?;
    let logs = make_logs(rt.alloc(), size)?;
    ensure!(logs.len() <= 32, "too many cores");
    ensure!(entries_within(&logs, units), "too many entries");
    ensure!(
        all_touch_below(&logs, size.words),
        "a word is past the last"
    );
    let sum = match way {
        Way::Merge => sum_merged(rt.alloc(), &logs, size.words, units)?,
        Way::Walk => sum_walked(rt.alloc(), &logs, size.words, units)?,
    };
    let Sum { length, checksum } = sum;
    println!(rt; "entries {length} checksum {checksum}")?;
    Ok(())
}
