//! Runs a guest program under the standard policy: tells the class of its outcome and the count of its units.
//!
//! The words are the path of the image, the count of cores and the budget of units of each, and for a run by actors in threads
//! the bound of the rings and the quantum of the turns. Without these two the tracker runs it on one thread, its cores in turn.

mod measure;

use self::measure::{Measure, Shape, read_measure};
use anyhow::{Context, Result, anyhow};
use guest_images::loaded;
use inline_tracker::{Finished, Setup, Tracker, status_of};
use live_run::{LiveParts, RunShape, assemble, run};
use outside::OpenGate;
use std::alloc::Global;
use std::fs;
use std::rt::Files;
use std::sync::Wait;
use std::thread::Threads;
use syscall_drain::Guest;
use tag_policy::Policy;

/// The first access number that is spent: no run comes near it.
const LIMIT: u32 = 4_294_967_280;

fn read_setup(alloc: Global, bytes: &[u8], measure: &Measure) -> Result<Setup> {
    let Ok(image) = loaded(alloc, bytes, measure.cores, 16, 256) else {
        return Err(anyhow!("the image is refused"));
    };
    let guest = Guest::new(image, Vec::new(alloc));
    Ok(Setup::new(guest, Policy::standard(), measure.budget, LIMIT))
}

/// By the tracker: round after round, a unit of each core that has not ended.
fn track(alloc: Global, setup: &Setup) -> Result<Finished> {
    let mut tracker = Tracker::create(alloc, setup).map_err(|_| anyhow!("no memory"))?;
    let cores = setup.guest().image().cores();
    for _ in 0..setup.budget() {
        for core in 0..cores {
            tracker.step(core);
        }
    }
    tracker.finish().map_err(|_| anyhow!("a core goes on"))
}

/// By a thread for each core and one for each tag actor.
fn run_in_threads<X: Threads + Wait + Sync>(
    rt: &X,
    alloc: Global,
    setup: &Setup,
    shape: Shape,
) -> Result<Finished> {
    let shape = RunShape {
        bound: shape.bound,
        quantum: shape.quantum,
    };
    let parts = LiveParts::create(alloc, setup, shape).map_err(|_| anyhow!("no memory"))?;
    Ok(assemble(run(rt, parts, &OpenGate)))
}

/// Runs the guest that the words say, and tells how it went.
pub fn tell<R: AllocGlobal + Print + Files + Threads + Wait + Sync>(
    rt: &R,
    words: &[String],
) -> Result<()> {
    let image = words.first().context("an image is missing")?;
    let measure = read_measure(words)?;
    let bytes = fs::read(rt, image.as_str())?;
    let setup = read_setup(rt.alloc(), bytes.as_slice(), &measure)?;
    let finished = match measure.shape {
        None => track(rt.alloc(), &setup)?,
        Some(shape) => run_in_threads(rt, rt.alloc(), &setup, shape)?,
    };
    println!(rt; "class {} units {}", status_of(&finished), finished.units())?;
    Ok(())
}
