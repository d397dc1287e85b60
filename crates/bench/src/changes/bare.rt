//! The bare steps of a table with no rule.

ghost use Rattle.std.specs.Prelude.{◌≡◌, ◌<◌, IfOk};

use super::measure::{Measure, Turns, WORDS, sum_of};
use anyhow::{Result, anyhow};
use atomic_table::{Play, Seat, Shared, Split, Table, TableRule};
use std::alloc::Global;
use std::thread::{self, Threads};

/// No rule.
struct Anything;

impl TableRule<(), (), ()> for Anything {
    ghost holds = { λ _ _. Unit {0} };

    ghost first = { λ _. tt };
}

impl Play<(), ()> for Anything {
    ghost then = { λ _ _ _ _. Unit {0} };
}

impl Split<()> for Anything {
    ghost left = { λ _. tt };

    ghost right = { λ _. tt };
}

type Words = Shared<(), (), (), Anything>;

/// What a word grows by with its count.
const HALF: u64 = 4_294_967_296;

/// What one thread does.
#[derive(Drop)]
struct Stepper<'t> {
    shared: &'t Words,
    seat: Seat<(), ()>,
    word: u32,
    turns: Turns,
    count: u32,
    ghost place: { (seat.table_id ≡ shared.now.table_id) × (word < shared.now.table_id.words) },
}

/// Counts up a word, one step a time.
fn add_all(stepper: Stepper) -> u64 {
    let Stepper {
        shared,
        mut seat,
        word,
        turns: _,
        count,
    } = stepper;
    let mut done = 0u64;
    'adds: for _ in 0..count {
        shared.fetch_add::<Anything>(&mut seat, word as usize, HALF);
        done = done.wrapping_add(1);
    }
    done
}

/// Exchanges the word for one with a count of one more, and gives what it wrote. It begins with what the word may be.
fn exchange_one(shared: &Words, seat: &mut Seat<(), ()>, word: u32, first: u64) -> u64
    requires { (seat.old.table_id ≡ shared.now.table_id) × (word < shared.now.table_id.words) }
    ensures { seat.new.table_id ≡ seat.old.table_id }
{
    let mut seen = first;
    'tries: for _ in 0..u32::MAX {
        let new = seen.wrapping_add(HALF);
        let found = shared.compare_exchange::<Anything>(seat, word as usize, seen, new);
        if found == seen {
            return new;
        }
        seen = found;
    }
    seen
}

/// Exchanges a word for one more, one step a time. An exchange that is lost is tried again.
fn exchange_all(stepper: Stepper) -> u64 {
    let Stepper {
        shared,
        mut seat,
        word,
        turns: _,
        count,
    } = stepper;
    let mut done = 0u64;
    let mut seen = 0;
    'exchanges: for _ in 0..count {
        seen = exchange_one(shared, &mut seat, word, seen);
        done = done.wrapping_add(1);
    }
    done
}

/// Exchanges the word for one with a count of one more when it has this count. False where it had not in very many tries.
fn exchange_at(shared: &Words, seat: &mut Seat<(), ()>, word: u32, count: u32) -> bool
    requires { (seat.old.table_id ≡ shared.now.table_id) × (word < shared.now.table_id.words) }
    ensures { seat.new.table_id ≡ seat.old.table_id }
{
    let seen = (count as u64).wrapping_mul(HALF);
    let new = seen.wrapping_add(HALF);
    'tries: for _ in 0..u32::MAX {
        if shared.compare_exchange::<Anything>(seat, word as usize, seen, new) == seen {
            return true;
        }
    }
    false
}

/// Exchanges a word at each number of the thread.
fn exchange_turns(stepper: Stepper) -> u64 {
    let Stepper {
        shared,
        mut seat,
        word,
        turns,
        count,
    } = stepper;
    let mut done = 0u64;
    let mut number = turns.first;
    'numbers: for _ in 0..count {
        if !exchange_at(shared, &mut seat, word, number) {
            return done;
        }
        number = number.saturating_add(turns.step);
        done = done.wrapping_add(1);
    }
    done
}

/// The steppers of a table, one for each thread.
fn steppers<'t>(
    alloc: Global,
    shared: &'t Words,
    mut seat: Seat<(), ()>,
    measure: Measure,
) -> Result<Vec<Stepper<'t>>>
    requires { (seat.table_id ≡ shared.now.table_id) × (shared.now.table_id.words ≡ 64) }
{
    let mut jobs = Vec::new(alloc);
    'threads: for thread in 0..4 {
        if thread < measure.threads {
            jobs.push(Stepper {
                shared,
                seat: shared.split_seat::<Anything>(&mut seat),
                word: measure.word_of(thread),
                turns: measure.turns_of(thread),
                count: measure.count,
            })?;
        }
    }
    Ok(jobs)
}

/// A table of words that are 0, with its first seat.
fn create(alloc: Global) -> Result<(Table<(), (), (), Anything, Global>, Seat<(), ()>)>
    ensures { IfOk result (λ made. (made.1.table_id ≡ made.0.shared.table_id) × (made.0.shared.table_id.words ≡ 64)) }
{
    let words = vec![in alloc; 0u64; WORDS]?;
    let Ok(made) = Table::of_words(alloc, &words, &()) else {
        return Err(anyhow!("no memory"));
    };
    Ok(made)
}

/// How many times the threads count a word up.
pub fn add<R: Threads + Sync>(rt: &R, alloc: Global, measure: Measure) -> Result<u64> {
    let (table, seat) = create(alloc)?;
    let jobs = steppers(alloc, &table.shared, seat, measure)?;
    Ok(sum_of(thread::map_vec(rt, jobs, &|job| add_all(job))?))
}

/// How many times the threads exchange a word.
pub fn exchange<R: Threads + Sync>(rt: &R, alloc: Global, measure: Measure) -> Result<u64> {
    let (table, seat) = create(alloc)?;
    let jobs = steppers(alloc, &table.shared, seat, measure)?;
    Ok(sum_of(thread::map_vec(rt, jobs, &|job| exchange_all(job))?))
}

/// How many times the threads exchange a word, each at its own numbers.
pub fn exchange_in_turns<R: Threads + Sync>(
    rt: &R,
    alloc: Global,
    measure: Measure,
) -> Result<u64> {
    let (table, seat) = create(alloc)?;
    let jobs = steppers(alloc, &table.shared, seat, measure)?;
    Ok(sum_of(thread::map_vec(rt, jobs, &|job| exchange_turns(job))?))
}
