//! What is changed, and how often.

ghost use Rattle.std.specs.Prelude.{◌<◌};

use crate::numbers::number;
use anyhow::{Result, anyhow, ensure};
use rv_execute::Op;

#[derive(Clone, Copy)]
pub enum Call {
    Read,
    Write,
    Serve,
}

/// By the table, or by its bare step.
#[derive(Clone, Copy)]
pub enum Side {
    Call,
    Bare,
}

/// How far the words of two threads lie apart, so that no two share a line of the cache.
const APART: u32 = 16;

/// How many words a table has.
pub const WORDS: usize = 64;

/// A write of a whole word.
pub const WRITE: Op = Op::Write {
    mask: u32::MAX,
    value: 7,
};

/// No number comes near it.
pub const LIMIT: u32 = 4_000_000_000;

/// What is measured.
#[derive(Clone, Copy)]
pub struct Measure {
    pub call: Call,
    pub side: Side,
    pub threads: u32,
    pub shares_word: bool,
    pub count: u32,
}

/// The numbers that a thread serves.
#[derive(Clone, Copy)]
pub struct Turns {
    pub first: u32,
    pub step: u32,
}

impl Measure {
    /// The word of a thread, of the threads 0 to 3.
    pub fn word_of(&self, thread: u32) -> u32
        requires { thread < 4 }
        ensures { result < 64 }
    {
        if self.shares_word { 0 } else { thread * APART }
    }

    /// Which numbers a thread serves: the first, and how far the next is above each. On one word the threads take turns.
    pub fn turns_of(&self, thread: u32) -> Turns {
        if self.shares_word {
            Turns {
                first: thread,
                step: self.threads,
            }
        } else {
            Turns { first: 0, step: 1 }
        }
    }
}

fn read_call(word: &str) -> Result<Call> {
    match word {
        "read" => Ok(Call::Read),
        "write" => Ok(Call::Write),
        "serve" => Ok(Call::Serve),
        _ => Err(anyhow!("the changes are read, write or serve")),
    }
}

fn read_side(word: &str) -> Result<Side> {
    match word {
        "call" => Ok(Side::Call),
        "bare" => Ok(Side::Bare),
        _ => Err(anyhow!("the way is call or bare")),
    }
}

fn shares_word(word: &str) -> Result<bool> {
    match word {
        "own" => Ok(false),
        "one" => Ok(true),
        _ => Err(anyhow!("the words are own or one")),
    }
}

/// Reads the words.
pub fn read_measure(words: &[String]) -> Result<Measure> {
    ensure!(
        words.len() == 5,
        "the sizes are: read|write|serve call|bare THREADS own|one COUNT"
    );
    let threads = number(words, 2)?;
    ensure!(
        threads == 1 || threads == 2 || threads == 4,
        "there are 1, 2 or 4 threads"
    );
    Ok(Measure {
        call: read_call(words[0].as_str())?,
        side: read_side(words[1].as_str())?,
        threads,
        shares_word: shares_word(words[3].as_str())?,
        count: number(words, 4)?,
    })
}

/// The sum of what the threads return.
pub fn sum_of(counts: Vec<u64>) -> u64 {
    let mut sum = 0u64;
    for count in counts.iter() {
        sum = sum.wrapping_add(*count);
    }
    sum
}
