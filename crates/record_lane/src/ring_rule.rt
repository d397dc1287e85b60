//! The rule of a ring's table, and what each kind of step tells its caller.

use crate::item::Item;
use atomic_table::{Join, Play, Split, TableRule};
use std::collections::LinkedList;

/// What a token of a ring knows. Proofs alone speak of ends.
pub struct End<T> {
    pub sends: bool,
    pub takes: bool,
    /// All that was sent, where it sends.
    pub sent: LinkedList<T>,
    /// All that was taken, where it takes.
    pub taken: LinkedList<T>,
    /// It has the free slot of the next place to send to.
    pub puts: bool,
    /// The item whose slot it has.
    pub gets: Option<T>,
    /// What had been sent when it last looked.
    pub seen: LinkedList<T>,
    /// How many had been taken when it last looked.
    pub gone: u64,
    /// How often it has looked.
    pub looks: u64,
    pub words: u32,
    pub top: u32,
}

/// The numbers of a ring, which its table is told when it is made.
#[derive(Clone, Copy)]
pub struct Limits {
    pub bound: u32,
    pub words: u32,
    pub top: u32,
}

/// The rule: what was sent is what was taken and then what the slots hold.
pub struct InRing;

impl<T: Item> TableRule<Option<T>, End<T>, Limits> for InRing {
    ghost use Rattle.record_lane.specs.RingRule.{whole_end, IsRingState};

    ghost holds = { λ limits. IsRingState T.sound limits.words limits.top limits.bound };

    ghost first = { λ limits. whole_end limits.words limits.top };
}

/// The sender looks at the head, and takes the next slot where it is free.
pub struct SeesHead;

impl<T> Play<Option<T>, End<T>> for SeesHead {
    ghost use Rattle.record_lane.specs.RingRule.{SawHead};

    ghost then = { SawHead };
}

/// The sender, which knows of room, looks at the tail, and takes the next slot.
pub struct SeesRoom;

impl<T> Play<Option<T>, End<T>> for SeesRoom {
    ghost use Rattle.record_lane.specs.RingRule.{SawRoom};

    ghost then = { SawRoom };
}

/// The sender raises the tail, and gives the slot back with its item.
pub struct RaisesTail;

impl<T> Play<Option<T>, End<T>> for RaisesTail {
    ghost use Rattle.record_lane.specs.RingRule.{RaisedTail};

    ghost then = { RaisedTail };
}

/// The taker looks at the tail, and takes the oldest item's slot where there is one.
pub struct SeesTail;

impl<T: Item> Play<Option<T>, End<T>> for SeesTail {
    ghost use Rattle.record_lane.specs.RingRule.{SawTail};

    ghost then = { SawTail T.sound };
}

/// The taker, which knows of an item, looks at the head, and takes the item's slot.
pub struct SeesItem;

impl<T: Item> Play<Option<T>, End<T>> for SeesItem {
    ghost use Rattle.record_lane.specs.RingRule.{SawItem};

    ghost then = { SawItem T.sound };
}

/// The taker raises the head, and gives the slot back free.
pub struct RaisesHead;

impl<T> Play<Option<T>, End<T>> for RaisesHead {
    ghost use Rattle.record_lane.specs.RingRule.{RaisedHead};

    ghost then = { RaisedHead };
}

/// The sender's end is cut from the taker's.
pub struct Cut;

impl<T> Split<End<T>> for Cut {
    ghost use Rattle.record_lane.specs.RingRule.{sender_end, taker_end};

    ghost left = { sender_end };

    ghost right = { taker_end };
}

/// The two ends become one.
pub struct Whole;

impl<T> Join<End<T>> for Whole {
    ghost use Rattle.record_lane.specs.RingRule.{joined_end, spent_end};

    ghost both = { joined_end };

    ghost spent = { spent_end };
}

/// A look that tells of both ends what is held.
pub struct Total;

impl<T> Play<Option<T>, End<T>> for Total {
    ghost use Rattle.record_lane.specs.RingRule.{SawAll};

    ghost then = { SawAll };
}
