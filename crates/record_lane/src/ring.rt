//! A bounded queue of slots from one thread to another, in which the order of the items is proved. No call of it waits.

ghost use Rattle.std.specs.Prelude.{◌≡◌};
ghost use Rattle.record_lane.specs.RingRule.{IsRingTable};

use crate::answer::{Got, Sent};
use crate::item::Item;
use crate::ring_left::RingLeft;
use crate::ring_rule::{Cut, End, InRing, Limits, Total, Whole};
use crate::ring_step::{send_at, take_at};
use crate::ring_token::{RingSender, RingTaker};
use atomic_table::Table;
use bounded_list::NoMemory;
use std::alloc::Global;

/// A queue of at most `bound` items in as many slots, with one sender and one taker. All its items are sound for the numbers
/// `words` and `top` that it was made for. Threads use it through a `&`, each with its own token.
#[derive(Drop)]
pub struct Ring<T: Item> {
    table: Table<Option<T>, End<T>, Limits, InRing, Global>,
    bound: u32,
    ghost sized: { IsRingTable table.shared.table_id table.shared.key bound },
}

impl<T: Item> Ring<T> {
    ghost use Rattle.std.specs.Prelude.{◌^◌, ◌<◌, ◌≤◌, ◌+◌, [], ◌∷◌, ◌++◌, length, IfOk};
    ghost use Rattle.record_lane.specs.declared.limits.TheConstants.{MOST_LANE};
    ghost use Rattle.record_lane.specs.Histories.{IsPrefix, OnSent, IfFull, IfItem, OnEmpty};
    ghost use Rattle.record_lane.specs.Rings.{bound_of, word_count_of, top_of, sent_by, gone_by, taken_by, seen_by, sender_looks, taker_looks, left_in, IsSenderOf, IsTakerOf, WasFull, WasEmpty};

    /// An empty ring for items that are sound for `words` and `top`, with its two tokens. `NoMemory` where there is none to be had.
    pub fn create(
        alloc: Global,
        bound: u32,
        words: u32,
        top: u32,
    ) -> Result<(Ring<T>, RingSender<T>, RingTaker<T>), NoMemory>
        requires { (0 < bound) × (bound ≤ MOST_LANE) }
        ensures numbers { IfOk result (λ made. (bound_of made.0 ≡ bound) × (word_count_of made.0 ≡ words) × (top_of made.0 ≡ top)) }
        ensures sender { IfOk result (λ made. IsSenderOf made.0 made.1 × (sent_by made.1 ≡ []) × (gone_by made.1 ≡ 0)) }
        ensures taker { IfOk result (λ made. IsTakerOf made.0 made.2 × (taken_by made.2 ≡ []) × (seen_by made.2 ≡ [])) }
    {
        let limits = Limits { bound, words, top };
        let Ok((table, mut seat)) = Table::vacant(alloc, &[0; 17], bound as usize, &limits) else {
            return Err(NoMemory);
        };
        let taker = table.shared.split_seat::<Cut>(&mut seat);
        Ok((
            Ring { table, bound },
            RingSender {
                seat,
                tail: 0,
                head: 0,
            },
            RingTaker {
                seat: taker,
                head: 0,
                tail: 0,
            },
        ))
    }

    /// Puts the item behind all that the ring holds. `Full`, with the item, only where the ring held `bound` items at a moment of this call.
    pub fn send(&self, sender: &mut RingSender<T>, item: T) -> Sent<T>
        requires sender { IsSenderOf self.now sender.old }
        requires item { T.sound (word_count_of self.now) (top_of self.now) item }
        requires count { length (sent_by sender.old) < 2 ^ 61 }
        ensures sender { IsSenderOf self.now sender.new }
        ensures sent { OnSent result (sent_by sender.new ≡ sent_by sender.old ++ item ∷ []) }
        ensures room { OnSent result (length (sent_by sender.new) ≤ gone_by sender.new + bound_of self.now) }
        ensures full { IfFull result (λ back. (back ≡ item) × (sent_by sender.new ≡ sent_by sender.old)) }
        ensures cause { IfFull result (λ _. WasFull self.now sender.old sender.new) }
        ensures look { sender_looks sender.new ≡ sender_looks sender.old + 1 }
    {
        match send_at(
            &self.table.shared,
            &mut sender.seat,
            sender.tail,
            sender.head,
            self.bound,
            item,
        ) {
            Ok(head) => {
                sender.tail += 1;
                sender.head = head;
                Sent::Sent
            }
            Err(item) => Sent::Full(item),
        }
    }

    /// Takes the oldest item that the ring holds. `Empty` only where the ring held none at a moment of this call.
    pub fn take(&self, taker: &mut RingTaker<T>) -> Got<T>
        requires { IsTakerOf self.now taker.old }
        ensures taker { IsTakerOf self.now taker.new }
        ensures item { IfItem result (λ x. taken_by taker.new ≡ taken_by taker.old ++ x ∷ []) }
        ensures sound { IfItem result (T.sound (word_count_of self.now) (top_of self.now)) }
        ensures count { IfItem result (λ _. length (taken_by taker.new) ≤ 2 ^ 61) }
        ensures order { IfItem result (λ _. IsPrefix (taken_by taker.new) (seen_by taker.new)) }
        ensures empty { OnEmpty result (taken_by taker.new ≡ taken_by taker.old) }
        ensures cause { OnEmpty result (WasEmpty self.now taker.old taker.new) }
        ensures look { taker_looks taker.new ≡ taker_looks taker.old + 1 }
    {
        match take_at(
            &self.table.shared,
            &mut taker.seat,
            taker.head,
            taker.tail,
            self.bound,
        ) {
            Some((item, tail)) => {
                taker.head += 1;
                taker.tail = tail;
                Got::Item(item)
            }
            None => Got::Empty,
        }
    }

    /// What is left when both tokens are given back: all that was sent and not taken.
    pub fn close(self, sender: RingSender<T>, taker: RingTaker<T>) -> RingLeft<T>
        requires sender { IsSenderOf self sender }
        requires taker { IsTakerOf self taker }
        ensures whole { sent_by sender ≡ taken_by taker ++ left_in result }
        ensures few { length (left_in result) ≤ bound_of self }
    {
        let Ring { table, bound } = self;
        let mut seat = sender.seat;
        table.shared.join_seat::<Whole>(&mut seat, taker.seat);
        table.shared.load::<Total>(&mut seat, 0);
        RingLeft {
            table,
            seat,
            head: taker.head,
            tail: taker.tail,
            bound,
        }
    }
}
