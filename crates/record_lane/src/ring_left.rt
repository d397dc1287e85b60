//! What a closed ring still holds.

ghost use Rattle.std.specs.Prelude.{◌≡◌, ◌≤◌, [], length};
ghost use Rattle.record_lane.specs.RingRule.{IsRingTable, IsWhole};

use crate::item::Item;
use crate::ring_rule::{End, InRing, Limits};
use crate::ring_step::take_at;
use atomic_table::{Seat, Table};
use std::alloc::Global;

/// The items that were sent into a ring and not taken, after the ring was closed.
#[derive(Drop)]
pub struct RingLeft<T: Item> {
    pub(crate) table: Table<Option<T>, End<T>, Limits, InRing, Global>,
    pub(crate) seat: Seat<Option<T>, End<T>>,
    pub(crate) head: u64,
    pub(crate) tail: u64,
    pub(crate) bound: u32,
    ghost sized: { IsRingTable table.shared.table_id table.shared.key bound },
    ghost of_ring: { seat.table_id ≡ table.shared.table_id },
    ghost whole: { IsWhole seat.me.0 },
    ghost at_home: { seat.me.1 ≡ [] },
    ghost counted: { length seat.me.0.taken ≡ head },
    ghost known: { tail ≤ length seat.me.0.seen },
}

impl<T: Item> RingLeft<T> {
    ghost use Rattle.std.specs.Prelude.{◌∷◌, MatchOption};
    ghost use Rattle.record_lane.specs.Rings.{left_in};

    /// The oldest item that is left; `None` exactly where all were given.
    pub fn next(&mut self) -> Option<T>
        ensures { MatchOption result ((left_in self.old ≡ []) × (left_in self.new ≡ [])) (λ x. left_in self.old ≡ x ∷ left_in self.new) }
    {
        let table = &self.table;
        match take_at(
            &table.shared,
            &mut self.seat,
            self.head,
            self.tail,
            self.bound,
        ) {
            Some((item, tail)) => {
                self.head += 1;
                self.tail = tail;
                Some(item)
            }
            None => None,
        }
    }
}
