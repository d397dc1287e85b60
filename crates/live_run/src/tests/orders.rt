//! Runs whose actors have their turns in orders drawn by lot.
ghost use Rattle.std.specs.Prelude.{◌≡◌, ◌<◌, ◌≤◌, length, IfOk};
ghost use Rattle.live_run.specs.Places.{EachIs, AreSame};
ghost use Rattle.live_run.specs.Seats.{HaveEnded};
ghost use Rattle.live_run.specs.Parts.{AreSeatedAt};

use super::*;
use crate::actor::{Actor, Lasting};
use crate::actors::Actors;
use crate::objects::Objects;
use crate::work::pass_and_visit;
use outside::Who;
use std::sync::Wait;

/// A linear congruential generator.
#[derive(Drop)]
struct Lots {
    state: u32,
}

impl Lots {
    /// A number below this one.
    fn below(&mut self, count: u32) -> u32
        requires { 0 < count }
        ensures { result < count }
    {
        self.state = self
            .state
            .wrapping_mul(1_664_525)
            .wrapping_add(1_013_904_223);
        (self.state >> 16) % count
    }

    /// One of the actors of so many cores.
    fn who(&mut self, cores: u8) -> Who
        requires { 0 < cores }
    {
        let core = self.below(u32::from(cores)) as u8;
        if self.below(2) == 0 {
            Who::Hart(core)
        } else {
            Who::Tag(core)
        }
    }
}

/// A turn of the actor at a place of a list, if there is one.
fn turn_at<A: Actor<S>, S, R: Wait>(rt: &R, actors: &mut [A], place: &S, core: u8)
    requires fits { EachIs (A.fits place.now) actors.old }
    ensures { AreSame A.same actors.old actors.new }
{
    let at = usize::from(core);
    if at < actors.len() {
        pass_and_visit(rt, &mut actors[at], place, core, &OpenGate, &mut 0);
    }
}

/// A turn of one actor.
fn turn_of<R: Wait>(rt: &R, objects: &Objects<'_>, actors: Actors, who: Who) -> Actors
    requires seats { AreSeatedAt objects.now actors }
    requires quantum { 1 ≤ objects.now.quantum }
    ensures seats { AreSeatedAt objects.now result }
{
    let Actors {
        mut harts,
        mut followers,
    } = actors;
    match who {
        Who::Hart(core) => turn_at(rt, &mut harts, objects, core),
        Who::Tag(core) => turn_at(rt, &mut followers, objects, core),
    }
    Actors { harts, followers }
}

/// The parts after a turn of one actor, of at most so many units or records.
fn after_turn<'a, R: Wait>(rt: &R, parts: LiveParts<'a>, who: Who, quantum: u32) -> LiveParts<'a>
    requires { 1 ≤ quantum }
    ensures { result.setup ≡ parts.entry.setup }
{
    let LiveParts {
        objects,
        actors,
        room,
    } = parts;
    let objects = Objects { quantum, ..objects };
    let actors = turn_of(rt, &objects, actors, who);
    LiveParts {
        objects,
        actors,
        room,
    }
}

/// Gives the actors of a run turns by lot until all have ended.
fn run_by_lot<'a, R: Wait>(
    rt: &R,
    mut parts: LiveParts<'a>,
    lots: &mut Lots,
) -> Result<LiveParts<'a>, Fail>
    ensures setup { IfOk result (λ ended. ended.setup ≡ parts.entry.setup) }
    ensures ended { IfOk result (λ ended. HaveEnded ended.harts ended.followers) }
{
    for _ in 0..100_000 {
        if parts.ended() {
            return Ok(parts);
        }
        let who = lots.who(4);
        parts = after_turn(rt, parts, who, 1 + lots.below(4));
    }
    Err(Fail::new("a run that does not end"))
}

/// Runs a row in an order by lot. Answers the class of its end, and in what it is other than it should be.
fn class_by_lot<R: Wait>(
    rt: &R,
    alloc: Global,
    row: &Row<'_>,
    seed: u32,
) -> Result<(u8, Option<&'static str>), Fail>
    ensures { IfOk result (λ end. end.0 ≤ 5) }
{
    let setup = setup_of(alloc, row)?;
    let mut lots = Lots { state: seed };
    let parts = parts_of(alloc, &setup, 1 + lots.below(2), 1)?;
    let finished = assemble(run_by_lot(rt, parts, &mut lots)?);
    let class = status_of(&finished);
    let fault = fault_of(alloc, &setup, finished, row)?;
    Ok((class, fault))
}

#[test]
fn each_order_is_that_of_a_run(rt: HostRuntime) -> Result<(), Fail> {
    let alloc = rt.alloc();
    let reserving = quiet("load-reserved and store-conditional", &LRSC, 4, 26);
    let buffering = Row {
        class: Some(1),
        ..quiet("store buffering", &STORE_BUFFERING, 4, 44)
    };
    let mut seen = [false; 6];
    for seed in 0..100 {
        let (class, fault) = class_by_lot(&rt, alloc, &reserving, seed)?;
        assert!(rt;
            fault == None,
            "load-reserved and store-conditional from {seed}"
        );
        seen[usize::from(class)] = true;
        let (_, fault) = class_by_lot(&rt, alloc, &buffering, seed)?;
        assert!(rt; fault == None, "store buffering from {seed}");
    }
    // A store between the two of core 0 makes its second fail, and then it exits with 1.
    assert!(rt; seen == [true, true, false, false, false, false]);
    Ok(())
}
