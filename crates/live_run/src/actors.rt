//! All actors of a run.
ghost use Rattle.std.specs.Prelude.{◌≤◌};
ghost use Rattle.live_run.specs.Seats.{HaveEnded};
ghost use Rattle.live_run.specs.Parts.{AreSeatedAt};

use crate::objects::Objects;
use crate::rounds::drive;
use crate::threads::run_in_threads;
use crate::turns::TurnsOfAll;
use hart_actor::HartActor;
use outside::Gate;
use std::sync::Wait;
use std::thread::Threads;
use tag_actor::TagActor;

/// The actors of a run. Each core and its tag actor stand at the core's number.
#[derive(Drop)]
pub(crate) struct Actors {
    pub harts: Vec<HartActor>,
    pub followers: Vec<TagActor>,
}

/// Turns of all actors, each on a thread of its own, until all have ended. Where a thread cannot be made, all actors are called
/// back, and have their further turns here.
pub(crate) fn run_all<G: Gate, X: Threads + Wait + Sync>(
    rt: &X,
    objects: &Objects<'_>,
    actors: Actors,
    gate: &G,
) -> Actors
    requires seats { AreSeatedAt objects.now actors }
    requires quantum { 1 ≤ objects.now.quantum }
    ensures seats { AreSeatedAt objects.now result }
    ensures ended { HaveEnded result.harts.items result.followers.items }
{
    let _guest = objects.setup.guest();
    let Actors { harts, followers } = actors;
    let (harts, followers, turns) = run_in_threads(rt, harts, followers, objects, gate);
    drive_all(rt, objects, Actors { harts, followers }, gate, turns)
}

/// Turns of all actors, one after another in the order of the cores, until all have ended. `turns` are those that they have had.
pub(crate) fn drive_all<G: Gate, R: Wait>(
    rt: &R,
    objects: &Objects<'_>,
    actors: Actors,
    gate: &G,
    turns: TurnsOfAll,
) -> Actors
    requires seats { AreSeatedAt objects.now actors }
    requires quantum { 1 ≤ objects.now.quantum }
    ensures seats { AreSeatedAt objects.now result }
    ensures ended { HaveEnded result.harts.items result.followers.items }
{
    let _guest = objects.setup.guest();
    let Actors {
        mut harts,
        mut followers,
    } = actors;
    drive(rt, &mut harts, &mut followers, objects, gate, turns);
    Actors { harts, followers }
}
