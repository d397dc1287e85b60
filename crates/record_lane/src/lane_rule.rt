//! The rule of a lane's queue, and what each kind of step tells its caller.

ghost use Rattle.std.specs.Prelude.{ℕ};

use crate::item::Item;
use crossbeam_queue::protocol::{Join, Lesson, Outcome, Protocol, Split};
use std::collections::LinkedList;
use std::marker::{Brand, PhantomData};

/// What a token of a lane knows. Proofs alone speak of sides.
pub struct Side<T> {
    pub sends: bool,
    pub takes: bool,
    /// All that was sent, where it sends.
    pub sent: LinkedList<T>,
    /// All that was taken, where it takes.
    pub taken: LinkedList<T>,
    /// What had been sent when it last took.
    pub seen: LinkedList<T>,
    /// How many had been taken when it last sent.
    pub gone: u64,
    pub words: u32,
    pub top: u32,
    pub bound: u32,
}

/// The rule: what was sent is what was taken and then what the queue holds.
pub struct InLane;

impl<T: Item> Protocol<T, Side<T>> for InLane {
    ghost use Rattle.std.specs.Prelude.{true, []};
    ghost use Rattle.record_lane.specs.LaneRule.{side, IsLaneState};

    ghost holds = { IsLaneState T.sound };

    ghost first = { side true true [] [] [] 0 0 0 0 };
}

/// The numbers of a lane, which are known where it is made.
pub trait Numbers {
    ghost words: { ℕ };

    ghost top: { ℕ };

    ghost bound: { ℕ };
}

impl Numbers for Brand {
    ghost words = { 0 };

    ghost top = { 0 };

    ghost bound = { 0 };
}

/// The sender's side is cut from the taker's.
pub struct Cut<N> {
    numbers: PhantomData<N>,
}

impl<T, N: Numbers> Split<Side<T>> for Cut<N> {
    ghost use Rattle.record_lane.specs.LaneRule.{sender_side, taker_side};

    ghost left = { λ v. sender_side v N.words N.top N.bound };

    ghost right = { λ v. taker_side v N.words N.top N.bound };
}

/// The two sides become one.
pub struct Whole;

impl<T> Join<Side<T>> for Whole {
    ghost use Rattle.record_lane.specs.LaneRule.{whole_side, spent_side};

    ghost both = { whole_side };

    ghost spent = { spent_side };
}

impl<T> Lesson<T, Side<T>> for Whole {
    ghost use Rattle.record_lane.specs.LaneRule.{HoldsRest};

    ghost fact = { HoldsRest };
}

/// A push by the sender.
pub struct Sends;

impl<T> Outcome<T, Side<T>> for Sends {
    ghost use Rattle.record_lane.specs.LaneRule.{IsSend};

    ghost then = { IsSend };
}

impl<T> Lesson<T, Side<T>> for Sends {
    ghost use Rattle.record_lane.specs.LaneRule.{FollowsSent};

    ghost fact = { FollowsSent };
}

/// A pop by the taker.
pub struct Takes;

impl<T: Item> Outcome<T, Side<T>> for Takes {
    ghost use Rattle.record_lane.specs.LaneRule.{IsTake};

    ghost then = { IsTake T.sound };
}

impl<T> Lesson<T, Side<T>> for Takes {
    ghost use Rattle.record_lane.specs.LaneRule.{FollowsTaken};

    ghost fact = { FollowsTaken };
}
