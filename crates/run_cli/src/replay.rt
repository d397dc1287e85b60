//! A report beside the run along its own order.
ghost use Rattle.std.specs.Prelude.{◌≡◌, ◌+◌, ◌<◌, ◌≤◌, List, ℕ, [], All, length, take, codes, Ok, OnOk, IfOk, IfErr};
ghost use Rattle.machine.specs.Setups.{IsSetup, core_count};
ghost use Rattle.machine.specs.Runs.{IsPlayable};
ghost use Rattle.machine.specs.FinishedRuns.{IsFinishedRun};
ghost use Rattle.trap_report.specs.Reading.{saved_of};
ghost use Rattle.trap_report.specs.Saved.{HasRanges, AreInRange, reported_by};
ghost use Rattle.machine.specs.declared.limits.TheConstants.{MOST_UNITS};
ghost use Rattle.run_cli.specs.Seen.{files_seen};
ghost use Rattle.run_cli.specs.Asked.{Asked, replay_in, setup_in};
ghost use Rattle.run_cli.specs.Work.{setup_told};
ghost use Rattle.run_cli.specs.Causes.{IsCalm, EndedBefore, Caused};
ghost use Rattle.run_cli.specs.Endings.{AnswersReplay, text_answer};
ghost use Rattle.run_cli.specs.Forms.{report_ending, IsNoReport, Disagrees, Agrees};

use crate::ending::Ending;
use crate::files::{FileKind, read_file};
use crate::options::{ImageOptions, ReplayOptions, SetupOptions};
use crate::setup::read_setup;
use inline_tracker::{Finished, Setup, Stepped, Tracker};
use order_core::Order;
use outside::Files;
use std::alloc::Global;
use trap_report::{ReportFault, ReportKind, Saved, first_difference, read_report};

/// The line of the first unit of a report.
const FIRST_UNIT: u32 = 8;

/// The ending where bytes are no report.
fn report_ending(fault: ReportFault) -> Ending
    ensures { result ≡ report_ending fault }
{
    match fault {
        ReportFault::Bad { line, kind } => Ending::Report { line, kind },
        ReportFault::NoMemory => Ending::Memory,
    }
}

/// What the bytes of a report say.
fn saved_in(alloc: Global, bytes: &[u8]) -> Result<Saved, Ending>
    requires { length bytes.now ≤ 536870912 }
    ensures says { IfOk result (λ saved. saved_of bytes.now ≡ Ok (reported_by saved)) }
    ensures ranges { IfOk result AreInRange }
    ensures refused { IfErr result (IsNoReport bytes.now) }
{
    match read_report(alloc, bytes) {
        Ok(saved) => Ok(saved),
        Err(fault) => Err(report_ending(fault)),
    }
}

/// The setup of a report's numbers.
fn setup_told<'a>(options: &ReplayOptions<'a>, saved: &Saved) -> SetupOptions<'a>
    requires { HasRanges (reported_by saved.now).numbers }
    ensures { setup_in result ≡ setup_told (replay_in options.now) (reported_by saved.now).numbers }
{
    SetupOptions {
        image: ImageOptions {
            name: options.image,
            cores: saved.cores,
            stack: saved.stack,
            heap: saved.heap,
        },
        input: options.input,
        policy: options.policy,
        budget: saved.budget,
        limit: saved.limit,
    }
}

/// Takes the steps of an order, up to one of a core that has ended. How many it took.
fn step_along(tracker: &mut Tracker<'_>, order: &[u8]) -> usize
    requires fresh { tracker.old.order ≡ [] }
    requires cores { All (λ core. core < core_count tracker.old.setup) order.now }
    ensures after { tracker.new ≡ record tracker.old { order = take result order.now } }
    ensures within { result ≤ length order.now }
    ensures playable { IsPlayable tracker.old.setup (take result order.now) }
    ensures stops { result < length order.now → EndedBefore tracker.old.setup order.now result }
{
    for (units, core) in order.iter().enumerate() {
        let Stepped::Went = tracker.step(*core) else {
            return units;
        };
    }
    order.len()
}

/// The ending where an order stops after so many units.
fn stopped(units: usize) -> Ending
    requires { units ≤ MOST_UNITS }
    ensures { result ≡ Ending.Report (units + 8) ReportKind.Order }
{
    Ending::Report {
        line: FIRST_UNIT + units as u32,
        kind: ReportKind::Order,
    }
}

/// The run along an order, where that is complete.
fn run_along(alloc: Global, setup: &Setup, order: &[u8]) -> Result<Finished, Ending>
    requires sound { IsSetup setup.now }
    requires cores { All (λ core. core < core_count setup.now) order.now }
    ensures run { IfOk result (λ finished. IsFinishedRun setup.now finished.run) }
    ensures order { IfOk result (λ finished. finished.run.order ≡ order.now) }
    ensures refused { (bytes : List ℕ) → IfErr result (Disagrees setup.now order.now bytes) }
{
    let Ok(mut tracker) = Tracker::create(alloc, setup) else {
        return Err(Ending::Memory);
    };
    let units = step_along(&mut tracker, order);
    if units < order.len() {
        return Err(stopped(units));
    }
    match tracker.finish() {
        Ok(finished) => Ok(finished),
        Err(_) => Err(stopped(units)),
    }
}

/// Compares bytes with the report of the run along an order.
fn compare(alloc: Global, setup: &Setup, order: &[u8], bytes: &[u8]) -> Result<(), Ending>
    requires sound { IsSetup setup.now }
    requires cores { All (λ core. core < core_count setup.now) order.now }
    ensures same { OnOk result (Agrees setup.now order.now bytes.now) }
    ensures refused { IfErr result (Disagrees setup.now order.now bytes.now) }
{
    let mut finished = run_along(alloc, setup, order)?;
    match first_difference(setup, &mut finished, bytes) {
        Some(place) => Err(Ending::Differs(place)),
        None => Ok(()),
    }
}

/// Compares the report of a file with the run along its own order.
pub fn replay_report<F: Files>(
    alloc: Global,
    options: &ReplayOptions<'_>,
    files: &mut F,
) -> Result<(), Ending>
    ensures same { OnOk result (AnswersReplay (files_seen (F.held files.old) (F.faults files.old)) (replay_in options.now) (text_answer (codes "same\n"))) }
    ensures calm { OnOk result (IsCalm (files_seen (F.held files.old) (F.faults files.old)) (files_seen (F.held files.new) (F.faults files.new))) }
    ensures refused { IfErr result (Caused (Asked.Replay (replay_in options.now))
        (files_seen (F.held files.old) (F.faults files.old)) (files_seen (F.held files.new) (F.faults files.new))) }
{
    let bytes = read_file(alloc, FileKind::Report, options.report, files)?;
    let saved = saved_in(alloc, bytes.as_slice())?;
    let setup = read_setup(alloc, &setup_told(options, &saved), files)?;
    compare(alloc, &setup, saved.order.as_slice(), bytes.as_slice())
}
