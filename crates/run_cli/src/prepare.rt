//! From the options of a run to a finished run.
ghost use Rattle.std.specs.Prelude.{◌≡◌, OnOk, IfOk, IfErr};
ghost use Rattle.machine.specs.FinishedRuns.{IsFinishedRun};
ghost use Rattle.run_cli.specs.Seen.{files_seen};
ghost use Rattle.run_cli.specs.Asked.{Asked, run_in};
ghost use Rattle.run_cli.specs.Work.{IsSetupOf};
ghost use Rattle.run_cli.specs.Causes.{IsCalm, Caused};
ghost use Rattle.run_cli.specs.Endings.{IsOrderOf};

use crate::ending::Ending;
use crate::live::run_in_threads;
use crate::options::RunOptions;
use crate::setup::read_setup;
use inline_tracker::{Finished, Setup};
use live_run::RunShape;
use outside::{Files, Gate};
use std::alloc::Global;
use std::sync::Wait;
use std::thread::Threads;

/// A finished run with its setup.
#[derive(Drop)]
pub struct Run {
    pub setup: Setup,
    pub finished: Finished,
}

/// The run that the options say, to its end.
pub fn prepare<F: Files, G: Gate, X: Threads + Wait + Sync>(
    rt: &X,
    alloc: Global,
    options: &RunOptions<'_>,
    files: &mut F,
    gate: &G,
) -> Result<Run, Ending>
    ensures setup { IfOk result (λ run. IsSetupOf (files_seen (F.held files.old) (F.faults files.old)) (run_in options.now).setup run.setup) }
    ensures finished { IfOk result (λ run. IsFinishedRun run.setup run.finished.run) }
    ensures order { IfOk result (λ run. IsOrderOf run.setup run.finished.run.order) }
    ensures calm { OnOk result (IsCalm (files_seen (F.held files.old) (F.faults files.old)) (files_seen (F.held files.new) (F.faults files.new))) }
    ensures refused { IfErr result (Caused (Asked.Run (run_in options.now))
        (files_seen (F.held files.old) (F.faults files.old)) (files_seen (F.held files.new) (F.faults files.new))) }
{
    let setup = read_setup(alloc, &options.setup, files)?;
    let shape = RunShape {
        bound: options.lane,
        quantum: options.quantum,
    };
    match run_in_threads(rt, alloc, &setup, shape, gate) {
        Ok(finished) => Ok(Run { setup, finished }),
        Err(NoMemory) => Err(Ending::Memory),
    }
}
