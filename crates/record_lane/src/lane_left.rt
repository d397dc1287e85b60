//! What a closed lane still holds.

ghost use Rattle.std.specs.Prelude.{◌≡◌, true};
ghost use Rattle.crossbeam_queue.specs.Passes.{view, IsPassOf};

use crate::item::Item;
use crate::lane_rule::{InLane, Side, Takes};
use crossbeam_queue::{Pass, RuledArrayQueue};
use std::sync::Wait;

/// The items that were sent into a lane and not taken, after the lane was closed.
#[derive(Drop)]
pub struct Left<T: Item> {
    pub(crate) queue: RuledArrayQueue<T, Side<T>, InLane>,
    pub(crate) pass: Pass<T, Side<T>>,
    ghost of_lane: { IsPassOf queue pass },
    ghost whole: { ((view pass).sends ≡ true) × ((view pass).takes ≡ true) },
}

impl<T: Item> Left<T> {
    ghost use Rattle.std.specs.Prelude.{[], ◌∷◌, MatchOption};
    ghost use Rattle.record_lane.specs.Lanes.{left_in};

    /// The oldest item that is left; `None` exactly where all were given.
    pub fn next<R: Wait>(&mut self, rt: &R) -> Option<T>
        ensures { MatchOption result ((left_in self.old ≡ []) × (left_in self.new ≡ [])) (λ x. left_in self.old ≡ x ∷ left_in self.new) }
    {
        self.queue.pop_as::<Takes, R>(rt, &mut self.pass)
    }
}
