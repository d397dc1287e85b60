//! What the two kinds of actors have in common: turns, until they have ended.
ghost use Rattle.std.specs.Prelude.{◌≡◌, ◌↔◌, ℕ, true, IsTrue};
ghost use Rattle.hart_actor.specs.Harts.{HasEnded};
ghost use Rattle.hart_actor.specs.Objects.{IsSameHart};
ghost use Rattle.tag_actor.specs.Turns.{IsSameActor};
ghost use Rattle.live_run.specs.Places.{FitsHart, FitsFollower};
ghost use Rattle.live_run.specs.declared.actor.Visit.TheVariants.{Ended};

use crate::objects::Objects;
use hart_actor::{HartActor, HartTurn};
use outside::Who;
use std::sync::Wait;
use tag_actor::{TagActor, TagTurn};

/// What a turn came to.
#[derive(Clone, Copy, Debug, PartialEq, Eq)]
pub(crate) enum Visit {
    /// It did something.
    Went,
    /// It did nothing: another actor has to go first.
    Waits,
    /// There is nothing left to do.
    Ended,
}

/// An actor, wherever its turns are.
pub(crate) trait Lasting {
    // The second is the first at a later moment.
    ghost same: { Self → Self → Type 0 };

    ghost has_ended: { Self → Type 0 };

    /// The actor of this kind at a core.
    fn who(core: u8) -> Who;

    /// How many units or records it has done.
    fn done(&self) -> u32;

    /// Whether it has nothing left to do.
    fn ended(&self) -> bool
        ensures { IsTrue result ↔ has_ended self.now };

    ghost same_self: { (a : Self) → same a a };

    ghost same_more: { (a b c : Self) → same a b → same b c → same a c };
}

/// An actor whose turns are at a place of the type `S`.
pub(crate) trait Actor<S>: Lasting {
    // The place has what the actor of the core with this number uses.
    ghost fits: { S → ℕ → Self → Type 0 };

    /// A turn of the actor of this core.
    fn visit<R: Wait>(&mut self, rt: &R, place: &S, core: usize) -> Visit
        requires { fits place.now core self.old }
        ensures same { Self.same self.old self.new }
        ensures ended { result ≡ Ended → Self.has_ended self.new };

    ghost fits_still: { (place : S) (core : ℕ) (a b : Self) → fits place core a → Self.same a b → fits place core b };
}

impl Lasting for HartActor {
    ghost use Rattle.hart_actor.proofs.Turning.{same_self as same_hart, same_more as same_hart_more};

    ghost same = { IsSameHart };

    ghost has_ended = { HasEnded };

    ghost same_self = { same_hart };

    ghost same_more = { same_hart_more };

    fn who(core: u8) -> Who {
        Who::Hart(core)
    }

    fn done(&self) -> u32 {
        HartActor::done(self)
    }

    fn ended(&self) -> bool {
        HartActor::ended(self)
    }
}

impl Lasting for TagActor {
    ghost use Rattle.tag_actor.proofs.Leading.{same_self as same_follower, same_on as same_follower_more};

    ghost same = { IsSameActor };

    ghost has_ended = { λ follower. follower.ended ≡ true };

    ghost same_self = { same_follower };

    ghost same_more = { same_follower_more };

    fn who(core: u8) -> Who {
        Who::Tag(core)
    }

    fn done(&self) -> u32 {
        TagActor::done(self)
    }

    fn ended(&self) -> bool {
        TagActor::ended(self)
    }
}

impl<'a> Actor<Objects<'a>> for HartActor {
    ghost use Rattle.live_run.specs.Staying.{hart_fits_still};

    ghost fits = { λ place core hart. FitsHart place.setup.now.program place.memory place.items.items place.replies.items place.quantum core hart };

    ghost fits_still = { λ place core a b. hart_fits_still place.setup.now.program place.memory place.items.items place.replies.items place.quantum core a b };

    fn visit<R: Wait>(&mut self, rt: &R, place: &Objects<'a>, core: usize) -> Visit {
        let turn = self.turn(
            rt,
            place.setup.guest(),
            &place.memory,
            &place.items[core],
            &place.replies[core],
            place.quantum,
        );
        match turn {
            HartTurn::Went => Visit::Went,
            HartTurn::Full | HartTurn::Waits => Visit::Waits,
            HartTurn::Ended => Visit::Ended,
        }
    }
}

impl<'a> Actor<Objects<'a>> for TagActor {
    ghost use Rattle.live_run.specs.Staying.{follower_fits_still};

    ghost fits = { λ place core follower. FitsFollower place.tags place.items.items place.replies.items place.quantum core follower };

    ghost fits_still = { λ place core a b. follower_fits_still place.tags place.items.items place.replies.items place.quantum core a b };

    fn visit<R: Wait>(&mut self, rt: &R, place: &Objects<'a>, core: usize) -> Visit {
        let turn = self.turn(
            rt,
            &place.tags,
            &place.items[core],
            &place.replies[core],
            place.quantum,
        );
        match turn {
            TagTurn::Went => Visit::Went,
            TagTurn::Empty | TagTurn::NotYet { .. } | TagTurn::ReplyFull => Visit::Waits,
            TagTurn::Ended => Visit::Ended,
        }
    }
}
