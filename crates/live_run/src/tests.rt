//! Runs of small programs, and the same runs by one thread along their orders.
ghost use Rattle.std.specs.Prelude.{◌≡◌, ◌<◌, IfOk};
ghost use Rattle.machine.specs.FinishedRuns.{IsFinishedRun};

mod orders;
mod rows;

use super::*;
use guest_images::{COUNT, HI, JUMP, LRSC, PASS, STORE_BUFFERING, loaded, small_image};
use inline_tracker::{CoreOutcome, Finished, Setup, Stepped, Tracker, status_of};
use outside::OpenGate;
use record_lane::Trap;
use record_lane::limits::MOST_LANE;
use std::alloc::Global;
use std::test::Fail;
use syscall_drain::Guest;
use tag_policy::{Policy, read_policy};

/// A program and what it is run on, and what comes of it in whichever order.
#[derive(Clone, Copy)]
struct Row<'a> {
    name: &'a str,
    program: &'a [u32],
    cores: u8,
    input: &'a [u8],
    policy: Policy,
    units: u32,
    /// The class of its end, if it is the same in each order.
    class: Option<u8>,
    /// The trap of core 0.
    trap: Option<Trap>,
    output: &'a [u8],
}

/// A program without input, under the standard policy, that is not trapped and writes nothing.
fn quiet<'a>(name: &'a str, program: &'a [u32], cores: u8, units: u32) -> Row<'a> {
    Row {
        name,
        program,
        cores,
        input: b"",
        policy: Policy::standard(),
        units,
        class: None,
        trap: None,
        output: b"",
    }
}

/// The setup of a row: one page of stack for each core, and one of heap.
fn setup_of(alloc: Global, row: &Row<'_>) -> Result<Setup, Fail> {
    if row.cores < 1 || row.cores > 4 || row.input.len() > 4 {
        return Err(Fail::new("a row with other numbers"));
    }
    let bytes = small_image(alloc, row.program)?;
    let image = loaded(alloc, &bytes, row.cores, 1, 1)?;
    let guest = Guest::new(image, Vec::from_slice(alloc, row.input)?);
    Ok(Setup::new(guest, row.policy, 4096, 4_294_967_280))
}

/// The parts of a setup's run with this bound of its rings and this quantum.
fn parts_of<'a>(
    alloc: Global,
    setup: &'a Setup,
    bound: u32,
    quantum: u32,
) -> Result<LiveParts<'a>, Fail>
    ensures { IfOk result (λ parts. parts.setup ≡ setup.entry.now) }
{
    if bound < 1 || bound > MOST_LANE || quantum < 1 {
        return Err(Fail::new("no shape of a run"));
    }
    Ok(LiveParts::create(alloc, setup, RunShape { bound, quantum })?)
}

/// What one thread comes to along the order of a run.
fn again(alloc: Global, setup: &Setup, finished: &mut Finished) -> Result<Finished, Fail>
    ensures same { finished.new.run ≡ finished.old.run }
    ensures finished { IfOk result (λ again. IsFinishedRun setup.now again.run) }
{
    let mut tracker = Tracker::create(alloc, setup)?;
    for _ in 0..finished.units() {
        let Some(core) = finished.next_core() else {
            return Err(Fail::new("an order that is too short"));
        };
        if tracker.step(core) != Stepped::Went {
            return Err(Fail::new("a unit that cannot be"));
        }
    }
    match tracker.finish() {
        Ok(again) => Ok(again),
        Err(_) => Err(Fail::new("an order that is not complete")),
    }
}

/// In what the ends of a core differ in two runs.
fn difference_of_ends(one: &CoreOutcome, other: &CoreOutcome) -> Option<&'static str> {
    if one.end != other.end {
        Some("the end of a core")
    } else if one.units != other.units {
        Some("the units of a core")
    } else if one.trap != other.trap {
        Some("the trap of a core")
    } else if one.notes.as_slice() != other.notes.as_slice() {
        Some("the notes of a core")
    } else {
        None
    }
}

/// In what two runs of a setup differ.
#[tactic(auto, using(inline_tracker::proofs::Walked::log_count))]
fn difference(setup: &Setup, one: &Finished, other: &Finished) -> Option<&'static str>
    requires one { IsFinishedRun setup.now one.now.run }
    requires other { IsFinishedRun setup.now other.now.run }
{
    for core in 0..setup.guest().image().cores() {
        if one.log(core).as_slice() != other.log(core).as_slice() {
            return Some("the log of a core");
        }
        let ends = difference_of_ends(one.core(core), other.core(core));
        if ends.is_some() {
            return ends;
        }
    }
    if one.output().as_slice() == other.output().as_slice() {
        None
    } else {
        Some("the output")
    }
}

/// In what a run is other than its row says.
fn difference_to_row(setup: &Setup, finished: &Finished, row: &Row<'_>) -> Option<&'static str>
    requires { IsFinishedRun setup.now finished.now.run }
{
    let class = status_of(finished);
    if finished.units() != row.units {
        Some("its units")
    } else if row.class.unwrap_or(class) != class {
        Some("its class")
    } else if trap_of_first(setup, finished) != row.trap {
        Some("its trap")
    } else if finished.output().as_slice() != row.output {
        Some("its output")
    } else {
        None
    }
}

/// The trap of core 0.
fn trap_of_first(setup: &Setup, finished: &Finished) -> Option<Trap>
    requires { IsFinishedRun setup.now finished.now.run }
{
    if setup.guest().image().cores() == 0 {
        return None;
    }
    finished.core(0).trap
}

/// In what a run is other than its row says, or differs from what one thread comes to along its order.
fn fault_of(
    alloc: Global,
    setup: &Setup,
    mut finished: Finished,
    row: &Row<'_>,
) -> Result<Option<&'static str>, Fail>
    requires { IsFinishedRun setup.now finished.run }
{
    let again = again(alloc, setup, &mut finished)?;
    let fault = difference_to_row(setup, &finished, row);
    Ok(fault.or(difference(setup, &finished, &again)))
}
