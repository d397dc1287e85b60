//! One send and one take of a ring, by the seat of one token.

ghost use Rattle.std.specs.Prelude.{◌≡◌, ◌^◌, ◌<◌, ◌≤◌, true, false, [], ◌∷◌, length, Some, None, IfSome, IfNone, IfOk, IfErr};
ghost use Rattle.record_lane.specs.RingRule.{IsRingTable, IsClaim, HasItem, IsRingSend, IsRingFull, IsRingTake, IsRingEmpty};

use crate::item::Item;
use crate::ring_rule::{
    End, InRing, Limits, RaisesHead, RaisesTail, SeesHead, SeesItem, SeesRoom, SeesTail,
};
use atomic_table::{Seat, Shared};

type Slots<T> = Shared<Option<T>, End<T>, Limits, InRing>;

type Place<T> = Seat<Option<T>, End<T>>;

/// The words of a ring's table: the tail and the head are 128 bytes apart, so that they share no cache line.
const TAIL: usize = 0;

const HEAD: usize = 16;

/// Puts the item into the free slot that the seat holds.
fn put_in<T: Item>(slots: &Slots<T>, seat: &mut Place<T>, slot: usize, item: T)
    requires place { seat.old.table_id ≡ slots.now.table_id }
    requires held { seat.old.me.1 ≡ (slot, None) ∷ [] }
    ensures { (seat.new.table_id ≡ seat.old.table_id) × (seat.new.id ≡ seat.old.id) × (seat.new.me ≡ (seat.old.me.0, (slot, Some item) ∷ [])) }
{
    let free = slots.exchange(seat, slot, Some(item));
    let None = free else { unreachable!() };
}

/// Takes the item out of the slot that the seat holds.
fn take_out<T: Item>(slots: &Slots<T>, seat: &mut Place<T>, slot: usize) -> T
    requires place { seat.old.table_id ≡ slots.now.table_id }
    requires held { (x : T) × (seat.old.me.1 ≡ (slot, Some x) ∷ []) }
    ensures item { seat.old.me.1 ≡ (slot, Some result) ∷ [] }
    ensures seat { (seat.new.table_id ≡ seat.old.table_id) × (seat.new.id ≡ seat.old.id) × (seat.new.me ≡ (seat.old.me.0, (slot, None) ∷ [])) }
{
    let Some(item) = slots.exchange(seat, slot, None) else {
        unreachable!()
    };
    item
}

/// Takes the free slot of the place `tail`, and gives a count of taken items that leaves room for it: `head`, where that does,
/// or else what a look at the head finds.
fn claim_free<T: Item>(
    slots: &Slots<T>,
    seat: &mut Place<T>,
    tail: u64,
    head: u64,
    bound: u32,
) -> Option<u64>
    requires place { (seat.old.table_id ≡ slots.now.table_id) × IsRingTable slots.now.table_id slots.now.key bound }
    requires seat { (seat.old.me.1 ≡ []) × (seat.old.me.0.sends ≡ true) × (seat.old.me.0.puts ≡ false) }
    requires tail { (length seat.old.me.0.sent ≡ tail) × (tail < 2 ^ 61) }
    requires head { (head ≤ tail) × (head ≤ seat.old.me.0.gone) }
    ensures place { seat.new.table_id ≡ seat.old.table_id }
    ensures claimed { IfSome result (λ now. IsClaim slots.now.key.bound seat.old.me seat.new.me × (now ≤ tail) × (now ≤ seat.new.me.0.gone)) }
    ensures full { IfNone result (IsRingFull bound seat.old.me.0 seat.new.me.0 × (seat.new.me.1 ≡ [])) }
{
    let room = u64::from(bound);
    // A slot can be taken at a step on a word alone: here on the sender's own word, which is in its cache mostly.
    if tail < head + room {
        slots.load::<SeesRoom>(seat, TAIL);
        return Some(head);
    }
    let found = slots.load::<SeesHead>(seat, HEAD);
    if tail < found + room {
        Some(found)
    } else {
        None
    }
}

/// Sends the item to the place `tail`, if its slot is free, and gives the count of taken items that is known then.
pub(crate) fn send_at<T: Item>(
    slots: &Slots<T>,
    seat: &mut Place<T>,
    tail: u64,
    head: u64,
    bound: u32,
    item: T,
) -> Result<u64, T>
    requires place { (seat.old.table_id ≡ slots.now.table_id) × IsRingTable slots.now.table_id slots.now.key bound }
    requires seat { (seat.old.me.1 ≡ []) × (seat.old.me.0.sends ≡ true) × (seat.old.me.0.puts ≡ false) }
    requires tail { (length seat.old.me.0.sent ≡ tail) × (tail < 2 ^ 61) }
    requires head { (head ≤ tail) × (head ≤ seat.old.me.0.gone) }
    requires item { T.sound seat.old.me.0.words seat.old.me.0.top item }
    ensures seat { (seat.new.table_id ≡ seat.old.table_id) × (seat.new.me.1 ≡ []) }
    ensures sent { IfOk result (λ now. IsRingSend bound seat.old.me.0 item seat.new.me.0 × (now ≤ tail) × (now ≤ seat.new.me.0.gone)) }
    ensures full { IfErr result (λ back. (back ≡ item) × IsRingFull bound seat.old.me.0 seat.new.me.0) }
{
    let Some(known) = claim_free(slots, seat, tail, head, bound) else {
        return Err(item);
    };
    put_in(slots, seat, (tail % u64::from(bound)) as usize, item);
    slots.fetch_add::<RaisesTail>(seat, TAIL, 1);
    Ok(known)
}

/// Takes the slot of the item of the place `head`, and gives a count of sent items that has it: `tail`, where that does,
/// or else what a look at the tail finds.
fn claim_item<T: Item>(
    slots: &Slots<T>,
    seat: &mut Place<T>,
    head: u64,
    tail: u64,
    bound: u32,
) -> Option<u64>
    requires place { (seat.old.table_id ≡ slots.now.table_id) × IsRingTable slots.now.table_id slots.now.key bound }
    requires seat { (seat.old.me.1 ≡ []) × (seat.old.me.0.takes ≡ true) × (seat.old.me.0.gets ≡ None) }
    requires head { length seat.old.me.0.taken ≡ head }
    requires tail { tail ≤ length seat.old.me.0.seen }
    ensures place { seat.new.table_id ≡ seat.old.table_id }
    ensures claimed { IfSome result (λ now. HasItem T.sound slots.now.key.bound seat.old.me seat.new.me × (now ≤ length seat.new.me.0.seen)) }
    ensures empty { IfNone result (IsRingEmpty seat.old.me.0 seat.new.me.0 × (seat.new.me.1 ≡ []) × (tail ≤ head)) }
{
    // As for the sender, the step is on the taker's own word, where that does.
    if head < tail {
        slots.load::<SeesItem>(seat, HEAD);
        return Some(tail);
    }
    let found = slots.load::<SeesTail>(seat, TAIL);
    if head < found { Some(found) } else { None }
}

/// Takes the item of the place `head`, if there is one, and gives the count of sent items that is known then.
pub(crate) fn take_at<T: Item>(
    slots: &Slots<T>,
    seat: &mut Place<T>,
    head: u64,
    tail: u64,
    bound: u32,
) -> Option<(T, u64)>
    requires place { (seat.old.table_id ≡ slots.now.table_id) × IsRingTable slots.now.table_id slots.now.key bound }
    requires seat { (seat.old.me.1 ≡ []) × (seat.old.me.0.takes ≡ true) × (seat.old.me.0.gets ≡ None) }
    requires head { length seat.old.me.0.taken ≡ head }
    requires tail { tail ≤ length seat.old.me.0.seen }
    ensures seat { (seat.new.table_id ≡ seat.old.table_id) × (seat.new.me.1 ≡ []) }
    ensures item { IfSome result (λ took. IsRingTake T.sound seat.old.me.0 took.0 seat.new.me.0 × (took.1 ≤ length seat.new.me.0.seen)) }
    ensures empty { IfNone result (IsRingEmpty seat.old.me.0 seat.new.me.0 × (tail ≤ head)) }
{
    let known = claim_item(slots, seat, head, tail, bound)?;
    let item = take_out(slots, seat, (head % u64::from(bound)) as usize);
    slots.fetch_add::<RaisesHead>(seat, HEAD, 1);
    Some((item, known))
}
