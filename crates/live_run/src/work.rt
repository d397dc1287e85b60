//! One actor at work, on a thread of its own.
ghost use Rattle.std.specs.Prelude.{◌≡◌};
ghost use Rattle.live_run.specs.declared.actor.Visit.TheVariants.{Ended};

use crate::actor::{Actor, Visit};
use crossbeam_utils::Backoff;
use outside::Gate;
use std::hint;
use std::sync::Wait;
use std::sync::atomic::{AtomicBool, Ordering};

/// How often an actor that has to wait looks again at once, before it backs off.
const LOOKS: u32 = 64;

/// Waiting between two turns of an actor that has to wait: short at first, and longer each time.
#[derive(Drop)]
struct Pause {
    looks: u32,
    backoff: Backoff,
}

impl Pause {
    fn new() -> Pause {
        Pause {
            looks: 0,
            backoff: Backoff::new(),
        }
    }

    /// Begins anew with a short one.
    fn reset(&mut self) {
        self.looks = 0;
        self.backoff.reset();
    }

    fn wait(&mut self) {
        if self.looks < LOOKS {
            self.looks += 1;
            hint::spin_loop();
        } else {
            self.backoff.snooze();
        }
    }
}

/// Passes the gate and has a turn, if the actor has not ended. `turns` is how many it has had.
pub(crate) fn pass_and_visit<A: Actor<S>, S, G: Gate, R: Wait>(
    rt: &R,
    actor: &mut A,
    place: &S,
    core: u8,
    gate: &G,
    turns: &mut u64,
) -> Visit
    requires { A.fits place.now core actor.old }
    ensures same { A.same actor.old actor.new }
    ensures ended { result ≡ Ended → A.has_ended actor.new }
{
    if actor.ended() {
        return Visit::Ended;
    }
    gate.before(A::who(core), *turns, actor.done());
    *turns = turns.saturating_add(1);
    actor.visit(rt, place, usize::from(core))
}

/// Gives an actor turns until it has ended or all actors are called back. Answers how many it has had.
pub(crate) fn work<A: Actor<S>, S, G: Gate, R: Wait>(
    rt: &R,
    mut actor: A,
    place: &S,
    core: u8,
    gate: &G,
    recall: &AtomicBool,
) -> (A, u64)
    requires { A.fits place.now core actor }
    ensures { A.same actor result.0 }
{
    let mut pause = Pause::new();
    let mut turns = 0u64;
    'turns: for _ in rt.forever() {
        if recall.load(Ordering::SeqCst) {
            return (actor, turns);
        }
        match pass_and_visit(rt, &mut actor, place, core, gate, &mut turns) {
            Visit::Went => pause.reset(),
            Visit::Waits => pause.wait(),
            Visit::Ended => return (actor, turns),
        }
    }
    unreachable!()
}
