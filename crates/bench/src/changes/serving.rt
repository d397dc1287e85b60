//! Numbers that threads serve.

ghost use Rattle.std.specs.Prelude.{◌≡◌, ◌<◌, length};
ghost use Rattle.ticket_table.specs.declared.change.Role.TheVariants.{Serve};
ghost use Rattle.ticket_table.specs.Calls.{MayServe};
ghost use Rattle.ticket_table.specs.Passes.{IsPassOf, AreFresh};

use super::measure::{LIMIT, Measure, Turns, WORDS, WRITE, sum_of};
use anyhow::{Context, Result, anyhow};
use std::alloc::Global;
use std::thread::{self, Threads};
use ticket_table::{Pass, Role, Served, TicketTable};

/// What one thread serves: so many numbers.
#[derive(Drop)]
struct Server<'t> {
    table: &'t TicketTable,
    pass: Pass,
    word: u32,
    turns: Turns,
    count: u32,
    ghost role: { table.now.basis.terms.role ≡ Serve },
    ghost limit: { table.now.basis.terms.limit ≡ 4000000000 },
    ghost pass_of_table: { IsPassOf table.now pass },
    ghost within: { word < length table.now.basis.first },
}

/// Serves a number as soon as its turn has come. False where it did not come in very many tries.
fn serve_one(table: &TicketTable, pass: &mut Pass, word: u32, number: u32) -> bool
    requires role { table.now.basis.terms.role ≡ Serve }
    requires may { MayServe table.now pass.old word number }
    ensures { IsPassOf table.now pass.new }
{
    'tries: for _ in 0..u32::MAX {
        if let Served::Done { old: _ } = table.serve(pass, word, number, WRITE) {
            return true;
        }
    }
    false
}

fn serve_all(server: Server) -> u64 {
    let Server {
        table,
        mut pass,
        word,
        turns,
        count,
    } = server;
    let mut done = 0u64;
    let mut number = turns.first;
    'numbers: for _ in 0..count {
        if number >= LIMIT || !serve_one(table, &mut pass, word, number) {
            return done;
        }
        number = number.saturating_add(turns.step);
        done = done.wrapping_add(1);
    }
    done
}

/// The server of a thread, of the threads 0 to 3.
fn server_of<'t>(table: &'t TicketTable, pass: Pass, measure: Measure, thread: u32) -> Server<'t>
    requires role { table.now.basis.terms.role ≡ Serve }
    requires limit { table.now.basis.terms.limit ≡ 4000000000 }
    requires pass { IsPassOf table.now pass }
    requires words { length table.now.basis.first ≡ 64 }
    requires thread { thread < 4 }
{
    Server {
        table,
        pass,
        word: measure.word_of(thread),
        turns: measure.turns_of(thread),
        count: measure.count,
    }
}

/// The servers of a table, one for each thread. On one word they take turns.
fn servers<'t>(
    alloc: Global,
    table: &'t TicketTable,
    mut passes: Vec<Pass>,
    measure: Measure,
) -> Result<Vec<Server<'t>>>
    requires role { table.now.basis.terms.role ≡ Serve }
    requires limit { table.now.basis.terms.limit ≡ 4000000000 }
    requires callers { table.now.basis.terms.callers ≡ 4 }
    requires words { length table.now.basis.first ≡ 64 }
    requires passes { AreFresh table.now passes.items }
{
    let fourth = passes.pop().context("four passes")?;
    let third = passes.pop().context("four passes")?;
    let second = passes.pop().context("four passes")?;
    let first = passes.pop().context("four passes")?;
    let mut jobs = Vec::new(alloc);
    jobs.push(server_of(table, first, measure, 0))?;
    if measure.threads > 1 {
        jobs.push(server_of(table, second, measure, 1))?;
    }
    if measure.threads > 2 {
        jobs.push(server_of(table, third, measure, 2))?;
        jobs.push(server_of(table, fourth, measure, 3))?;
    }
    Ok(jobs)
}

/// How many numbers the threads serve.
pub fn serve<R: Threads + Sync>(rt: &R, alloc: Global, measure: Measure) -> Result<u64> {
    let payloads = vec![in alloc; 0u32; WORDS]?;
    let Ok((table, passes)) = TicketTable::create(alloc, &payloads, 4, LIMIT, Role::Serve) else {
        return Err(anyhow!("no memory"));
    };
    let jobs = servers(alloc, &table, passes, measure)?;
    Ok(sum_of(thread::map_vec(rt, jobs, &|job| serve_all(job))?))
}
