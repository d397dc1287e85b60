//! Numbers that threads draw.

ghost use Rattle.std.specs.Prelude.{◌≡◌, ◌<◌, false, length};
ghost use Rattle.ticket_table.specs.declared.change.Role.TheVariants.{Draw};
ghost use Rattle.ticket_table.specs.Calls.{MayDraw};
ghost use Rattle.ticket_table.specs.Passes.{IsPassOf, is_spent, AreFresh};

use super::measure::{LIMIT, Measure, WORDS, sum_of};
use anyhow::{Context, Result, anyhow};
use rv_execute::Op;
use std::alloc::Global;
use std::thread::{self, Threads};
use ticket_table::{Pass, Role, TicketTable};

/// What one thread draws.
#[derive(Drop)]
struct Drawer<'t> {
    table: &'t TicketTable,
    pass: Pass,
    word: u32,
    op: Op,
    count: u32,
    ghost role: { table.now.basis.terms.role ≡ Draw },
    ghost may: { MayDraw table.now pass word },
}

/// Draws so many numbers, or fewer where the pass is spent before.
fn draw_all(drawer: Drawer) -> u64 {
    let Drawer {
        table,
        mut pass,
        word,
        op,
        count,
    } = drawer;
    let mut done = 0u64;
    'draws: for _ in 0..count {
        let taken = table.take(&mut pass, word, op);
        if taken.spent {
            return done;
        }
        done = done.wrapping_add(1);
    }
    done
}

/// The drawer of a thread, of the threads 0 to 3.
fn drawer_of<'t>(
    table: &'t TicketTable,
    pass: Pass,
    op: Op,
    measure: Measure,
    thread: u32,
) -> Drawer<'t>
    requires role { table.now.basis.terms.role ≡ Draw }
    requires words { length table.now.basis.first ≡ 64 }
    requires pass { IsPassOf table.now pass × (is_spent pass ≡ false) }
    requires thread { thread < 4 }
{
    Drawer {
        table,
        pass,
        word: measure.word_of(thread),
        op,
        count: measure.count,
    }
}

/// The drawers of a table, one for each thread.
fn drawers<'t>(
    alloc: Global,
    table: &'t TicketTable,
    mut passes: Vec<Pass>,
    op: Op,
    measure: Measure,
) -> Result<Vec<Drawer<'t>>>
    requires role { table.now.basis.terms.role ≡ Draw }
    requires callers { table.now.basis.terms.callers ≡ 4 }
    requires words { length table.now.basis.first ≡ 64 }
    requires passes { AreFresh table.now passes.items }
{
    let fourth = passes.pop().context("four passes")?;
    let third = passes.pop().context("four passes")?;
    let second = passes.pop().context("four passes")?;
    let first = passes.pop().context("four passes")?;
    let mut jobs = Vec::new(alloc);
    jobs.push(drawer_of(table, first, op, measure, 0))?;
    if measure.threads > 1 {
        jobs.push(drawer_of(table, second, op, measure, 1))?;
    }
    if measure.threads > 2 {
        jobs.push(drawer_of(table, third, op, measure, 2))?;
        jobs.push(drawer_of(table, fourth, op, measure, 3))?;
    }
    Ok(jobs)
}

/// How many numbers the threads draw.
pub fn draw<R: Threads + Sync>(rt: &R, alloc: Global, measure: Measure, op: Op) -> Result<u64> {
    let payloads = vec![in alloc; 0u32; WORDS]?;
    let Ok((table, passes)) = TicketTable::create(alloc, &payloads, 4, LIMIT, Role::Draw) else {
        return Err(anyhow!("no memory"));
    };
    let jobs = drawers(alloc, &table, passes, op, measure)?;
    Ok(sum_of(thread::map_vec(rt, jobs, &|job| draw_all(job))?))
}
