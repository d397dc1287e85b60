//! The run of a setup, with a thread for each of its actors.
ghost use Rattle.std.specs.Prelude.{◌≡◌, ◌≤◌, IfOk};
ghost use Rattle.order_core.specs.CanonicalMerge.{canonical};
ghost use Rattle.record_lane.specs.declared.limits.TheConstants.{MOST_LANE};
ghost use Rattle.machine.specs.FinishedRuns.{IsFinishedRun};

use inline_tracker::{Finished, Setup};
use live_run::{LiveParts, RunShape, assemble, run};
use order_core::NoMemory;
use outside::Gate;
use std::alloc::Global;
use std::sync::Wait;
use std::thread::Threads;

/// Runs a setup to the end of each core. All memory is taken before the first turn.
pub fn run_in_threads<G: Gate, X: Threads + Wait + Sync>(
    rt: &X,
    alloc: Global,
    setup: &Setup,
    shape: RunShape,
    gate: &G,
) -> Result<Finished, NoMemory>
    requires bound { (1 ≤ shape.bound) × (shape.bound ≤ MOST_LANE) }
    requires quantum { 1 ≤ shape.quantum }
    ensures run { IfOk result (λ finished. IsFinishedRun setup.now finished.run) }
    ensures merged { IfOk result (λ finished. finished.run.order ≡ canonical finished.run.logs) }
{
    let parts = LiveParts::create(alloc, setup, shape)?;
    Ok(assemble(run(rt, parts, gate)))
}
