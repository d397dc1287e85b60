//! Each actor on a thread of its own.
ghost use Rattle.std.specs.Prelude.{◌≡◌, ◌≤◌, IfOk, IfErr, MatchResult, length, vec_len, vec_capacity};
ghost use Rattle.live_run.specs.Places.{EachIs, AreSame};

use crate::actor::{Actor, Lasting};
use crate::turns::TurnsOfAll;
use crate::work::work;
use outside::Gate;
use std::snapshot::Snapshot;
use std::sync::Wait;
use std::sync::atomic::{AtomicBool, Ordering};
use std::thread::{self, Promise, PromisedHandle, Scope, Threads};

/// The promise of a thread: this actor comes back, with how many turns it has had.
#[derive(Drop)]
pub(crate) struct ComesBack<A>(Snapshot<A>);

impl<A: Lasting> Promise<(A, u64)> for ComesBack<A> {
    ghost kept_by = { λ promise back. A.same promise.0.value back.0 };
}

/// Starts a thread with the work of an actor. Where it cannot be made, all actors are called back, and this one is here.
fn start<'s, E, A: Actor<S> + Send + Drop + 's, S: Sync + 's, G: Gate + 's, X: Wait + Sync + 's>(
    scope: &Scope<'s, E>,
    rt: &'s X,
    actor: A,
    place: &'s S,
    core: u8,
    gate: &'s G,
    recall: &'s AtomicBool,
) -> Result<PromisedHandle<(A, u64), ComesBack<A>>, (A, u64)>
    requires { A.fits place.now core actor }
    ensures away { IfOk result (λ handle. handle.promise.0.value ≡ actor) }
    ensures here { IfErr result (λ back. A.same actor back.0) }
{
    let promise = ComesBack(Snapshot::of(&actor));
    let run = move || -> (A, u64)
        requires { A.fits place.now core actor }
        ensures { A.same actor result.0 }
    { work(rt, actor, place, core, gate, recall) };
    match scope.spawn_with(promise, run) {
        Ok(handle) => Ok(handle),
        Err(refused) => {
            recall.store(true, Ordering::SeqCst);
            Err((refused.value)())
        }
    }
}

/// The actor and its turns, once its thread has come to an end.
fn come_back<A: Lasting + Drop, X: Threads>(
    rt: &X,
    started: Result<PromisedHandle<(A, u64), ComesBack<A>>, (A, u64)>,
) -> (A, u64)
    ensures { MatchResult started (λ handle. A.same handle.promise.0.value result.0) (λ here. result ≡ here) }
{
    match started {
        Ok(handle) => handle.join(rt),
        Err(here) => here,
    }
}

/// Starts the actors of the last pair of a list, those of the pairs before it in the same way, and waits until all have come back.
fn run_pairs<
    's,
    E,
    A: Actor<S> + Send + Drop + 's,
    B: Actor<S> + Send + Drop + 's,
    S: Sync + 's,
    G: Gate + 's,
    X: Threads + Wait + Sync + 's,
>(
    scope: &Scope<'s, E>,
    rt: &'s X,
    harts: &mut Vec<A>,
    followers: &mut Vec<B>,
    place: &'s S,
    gate: &'s G,
    recall: &'s AtomicBool,
    turns: &mut TurnsOfAll,
)
    requires harts { EachIs (A.fits place.now) harts.old.items × (vec_len harts.old ≤ 255) × (vec_len harts.old ≤ vec_capacity harts.old) }
    requires followers { EachIs (B.fits place.now) followers.old.items × (vec_len followers.old ≡ vec_len harts.old) × (vec_len followers.old ≤ vec_capacity followers.old) }
    ensures harts { AreSame A.same harts.old.items harts.new.items × (vec_capacity harts.new ≡ vec_capacity harts.old) }
    ensures followers { AreSame B.same followers.old.items followers.new.items × (vec_capacity followers.new ≡ vec_capacity followers.old) }
{
    if recall.load(Ordering::SeqCst) {
        return;
    }
    let Some(hart) = harts.pop() else { return };
    let Some(follower) = followers.pop() else {
        unreachable!()
    };
    let core = harts.len() as u8;
    let hart = start(scope, rt, hart, place, core, gate, recall);
    let follower = start(scope, rt, follower, place, core, gate, recall);
    run_pairs(scope, rt, harts, followers, place, gate, recall, turns);
    let (hart, hart_turns) = come_back(rt, hart);
    let (follower, follower_turns) = come_back(rt, follower);
    harts.push_reserved(hart);
    followers.push_reserved(follower);
    turns.harts[usize::from(core)] = hart_turns;
    turns.followers[usize::from(core)] = follower_turns;
}

/// Turns of all actors, each on a thread of its own, until all have ended or a thread cannot be made. Answers the turns that they
/// have had.
pub(crate) fn run_in_threads<
    A: Actor<S> + Send + Drop,
    B: Actor<S> + Send + Drop,
    S: Sync,
    G: Gate,
    X: Threads + Wait + Sync,
>(rt: &X, harts: Vec<A>, followers: Vec<B>, place: &S, gate: &G) -> (Vec<A>, Vec<B>, TurnsOfAll)
    requires harts { EachIs (A.fits place.now) harts.items × (vec_len harts ≤ 255) × (vec_len harts ≤ vec_capacity harts) }
    requires followers { EachIs (B.fits place.now) followers.items × (vec_len followers ≡ vec_len harts) × (vec_len followers ≤ vec_capacity followers) }
    ensures harts { AreSame A.same harts.items result.0.items }
    ensures followers { AreSame B.same followers.items result.1.items }
{
    let recall = AtomicBool::new(false);
    let flag = &recall;
    thread::scope(
        thread::scope_env(),
        rt,
        move |scope| -> (Vec<A>, Vec<B>, TurnsOfAll)
            requires harts { EachIs (A.fits place.now) harts.items × (vec_len harts ≤ 255) × (vec_len harts ≤ vec_capacity harts) }
            requires followers { EachIs (B.fits place.now) followers.items × (vec_len followers ≡ vec_len harts) × (vec_len followers ≤ vec_capacity followers) }
            ensures harts { AreSame A.same harts.items result.0.items }
            ensures followers { AreSame B.same followers.items result.1.items }
        {
            let mut harts = harts;
            let mut followers = followers;
            let mut turns = TurnsOfAll::none();
            run_pairs(
                scope,
                rt,
                &mut harts,
                &mut followers,
                place,
                gate,
                flag,
                &mut turns,
            );
            (harts, followers, turns)
        },
    )
}
