//! All actors in turns on one thread.
ghost use Rattle.std.specs.Prelude.{◌≡◌, ◌≤◌, IsTrue, length};
ghost use Rattle.live_run.specs.Places.{EachIs, AreSame};

use crate::actor::{Actor, Lasting, Visit};
use crate::turns::{Turns, TurnsOfAll};
use crate::work::pass_and_visit;
use outside::Gate;
use std::sync::Wait;

/// A turn of each actor that has not ended. Answers whether all have ended.
fn go_round<A: Actor<S>, S, G: Gate, R: Wait>(
    rt: &R,
    actors: &mut [A],
    place: &S,
    gate: &G,
    turns: &mut Turns,
) -> bool
    requires fits { EachIs (A.fits place.now) actors.old }
    requires few { length actors.old ≤ 255 }
    ensures same { AreSame A.same actors.old actors.new }
    ensures ended { IsTrue result → EachIs (λ _. A.has_ended) actors.new }
{
    let mut over = true;
    for core in 0..actors.len() {
        let number = core as u8;
        let turns = &mut turns[usize::from(number)];
        let visit = pass_and_visit(rt, &mut actors[core], place, number, gate, turns);
        over &= visit == Visit::Ended;
    }
    over
}

/// Turns of all actors, one after another, until all have ended. `turns` are those that they have had.
pub(crate) fn drive<A: Actor<S>, B: Actor<S>, S, G: Gate, R: Wait>(
    rt: &R,
    harts: &mut [A],
    followers: &mut [B],
    place: &S,
    gate: &G,
    mut turns: TurnsOfAll,
)
    requires harts { EachIs (A.fits place.now) harts.old × (length harts.old ≤ 255) }
    requires followers { EachIs (B.fits place.now) followers.old × (length followers.old ≤ 255) }
    ensures same_harts { AreSame A.same harts.old harts.new }
    ensures same_followers { AreSame B.same followers.old followers.new }
    ensures harts { EachIs (λ _. A.has_ended) harts.new }
    ensures followers { EachIs (λ _. B.has_ended) followers.new }
{
    'rounds: for _ in rt.forever() {
        let harts_over = go_round(rt, harts, place, gate, &mut turns.harts);
        let followers_over = go_round(rt, followers, place, gate, &mut turns.followers);
        if harts_over && followers_over {
            return;
        }
    }
    unreachable!()
}
