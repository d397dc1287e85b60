//! The two tokens of a ring.

ghost use Rattle.std.specs.Prelude.{◌≡◌, ◌≤◌, [], length};

use crate::ring_rule::End;
use atomic_table::Seat;

/// The right to send into one ring. It knows what was sent, which proofs alone see, and how many that were.
#[derive(Drop)]
pub struct RingSender<T> {
    pub(crate) seat: Seat<Option<T>, End<T>>,
    pub(crate) tail: u64,
    /// No more than have been taken.
    pub(crate) head: u64,
    ghost at_home: { seat.me.1 ≡ [] },
    ghost counted: { length seat.me.0.sent ≡ tail },
    ghost known: { (head ≤ tail) × (head ≤ seat.me.0.gone) },
}

/// The right to take from one ring. It knows what was taken, which proofs alone see, and how many that were.
#[derive(Drop)]
pub struct RingTaker<T> {
    pub(crate) seat: Seat<Option<T>, End<T>>,
    pub(crate) head: u64,
    /// No more than have been sent.
    pub(crate) tail: u64,
    ghost at_home: { seat.me.1 ≡ [] },
    ghost counted: { length seat.me.0.taken ≡ head },
    ghost known: { tail ≤ length seat.me.0.seen },
}
