//! A run from its parts to the end of its actors.
ghost use Rattle.live_run.specs.Parts.{HasRunTo};

use crate::actors::{drive_all, run_all};
use crate::parts::LiveParts;
use crate::turns::TurnsOfAll;
use outside::Gate;
use std::sync::Wait;
use std::thread::Threads;

/// Goes on with the run until each actor has ended, each on a thread of its own where one can be had.
pub fn run<'a, G: Gate, X: Threads + Wait + Sync>(
    rt: &X,
    parts: LiveParts<'a>,
    gate: &G,
) -> LiveParts<'a>
    ensures { HasRunTo parts.entry result }
{
    let actors = parts.actors;
    let actors = run_all(rt, &parts.objects, actors, gate);
    LiveParts { actors, ..parts }
}

/// Goes on with the run until each actor has ended, all in turns on the caller's thread.
pub fn drive<'a, G: Gate, X: Wait>(rt: &X, parts: LiveParts<'a>, gate: &G) -> LiveParts<'a>
    ensures { HasRunTo parts.entry result }
{
    let actors = parts.actors;
    let actors = drive_all(rt, &parts.objects, actors, gate, TurnsOfAll::none());
    LiveParts { actors, ..parts }
}
