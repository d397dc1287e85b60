//! The tracker, unit by unit.

use guest_images::{HI, LRSC, guest_of};
use inline_tracker::{Finished, Setup, StepFault, Stepped, Tracker, status_of};
use record_lane::Trap;
use std::alloc::Global;
use std::process::Abort;
use std::test::Fail;
use syscall_drain::End;
use tag_policy::Policy;

/// One core that runs the program that prints `hi`.
fn printing(alloc: Global) -> Result<Setup, Fail> {
    let guest = guest_of(alloc, &HI, 1)?;
    Ok(Setup::new(guest, Policy::standard(), 1_048_576, 4_294_967_280))
}

/// Steps a core, and says how it went.
fn step(tracker: &mut Tracker<'_>, core: u8) -> Stepped {
    tracker.step(core)
}

/// How a core ended, after how many units, and with which trap.
fn ending(tracker: &Tracker<'_>, core: u8) -> Option<(End, u32, Option<Trap>)> {
    let outcome = tracker.outcome(core)?;
    Some((outcome.end, outcome.units, outcome.trap))
}

/// Whether the cores of the order that follows are these, and it ends there.
fn goes_on_with(finished: &mut Finished, cores: &[u8]) -> bool {
    for core in cores {
        if finished.next_core() != Some(*core) {
            return false;
        }
    }
    finished.next_core().is_none()
}

#[test]
fn hi_is_stepped_to_its_end(rt: HostRuntime) -> Result<(), Fail> {
    let no_such_core = Stepped::Refused(StepFault::NoSuchCore);
    let setup = printing(rt.alloc())?;
    let mut tracker = Tracker::create(rt.alloc(), &setup)?;
    assert!(rt; step(&mut tracker, 1) == no_such_core);
    for _ in 0..13 {
        assert!(rt; ending(&tracker, 0).is_none());
        assert!(rt; step(&mut tracker, 0) == Stepped::Went);
    }
    assert!(rt; step(&mut tracker, 0) == Stepped::Refused(StepFault::Ended));
    assert!(rt; step(&mut tracker, 1) == no_such_core);
    assert!(rt; ending(&tracker, 0) == Some((End::Exit(0), 13, None)));
    Ok(())
}

/// Steps a tracker of `hi` by this order.
fn finished_by(alloc: Global, setup: &Setup, order: &[u8]) -> Result<Finished, Fail> {
    let mut tracker = Tracker::create(alloc, setup)?;
    for core in order {
        step(&mut tracker, *core);
    }
    Ok(tracker.finish().ok().ok_or("is not finished")?)
}

#[test]
fn a_finished_run_tells_its_output_and_its_order(rt: HostRuntime) -> Result<(), Fail> {
    let setup = printing(rt.alloc())?;
    let order = [0; 13];
    let mut finished = finished_by(rt.alloc(), &setup, &order)?;
    assert!(rt; status_of(&finished) == 0);
    assert!(rt; finished.units() == 13);
    assert!(rt; finished.output().as_slice() == b"hi\n".as_slice());
    assert!(rt; goes_on_with(&mut finished, &order));
    finished.rewind();
    assert!(rt; goes_on_with(&mut finished, &order));
    Ok(())
}

#[test]
fn a_core_that_has_not_ended_is_not_finished(rt: HostRuntime) -> Result<(), Fail> {
    let setup = printing(rt.alloc())?;
    let mut tracker = Tracker::create(rt.alloc(), &setup)?;
    for _ in 0..3 {
        assert!(rt; step(&mut tracker, 0) == Stepped::Went);
    }
    assert!(rt; tracker.finish().is_err());
    Ok(())
}

/// Two cores that run this order end so, and the run has this status.
fn try_reservation(
    rt: &impl Abort,
    alloc: Global,
    order: &[u8],
    first: End,
    status: u8,
) -> Result<(), Fail> {
    let guest = guest_of(alloc, &LRSC, 2)?;
    let setup = Setup::new(guest, Policy::standard(), 1_048_576, 4_294_967_280);
    let mut tracker = Tracker::create(alloc, &setup)?;
    for core in order {
        assert!(rt; step(&mut tracker, *core) == Stepped::Went);
    }
    assert!(rt; ending(&tracker, 0) == Some((first, 8, None)));
    assert!(rt; ending(&tracker, 1) == Some((End::Exit(0), 6, None)));
    let finished = tracker.finish().ok().ok_or("is not finished")?;
    assert!(rt; status_of(&finished) == status);
    Ok(())
}

#[test]
fn a_store_of_another_core_ends_a_reservation(rt: HostRuntime) -> Result<(), Fail> {
    let between = [0, 0, 0, 1, 1, 1, 0, 0, 0, 0, 0, 1, 1, 1];
    let after = [0, 0, 0, 0, 0, 0, 0, 0, 1, 1, 1, 1, 1, 1];
    try_reservation(&rt, rt.alloc(), &between, End::Exit(1), 1)?;
    try_reservation(&rt, rt.alloc(), &after, End::Exit(0), 0)
}
