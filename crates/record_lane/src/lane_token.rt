//! The two tokens of a lane.

use crate::lane_rule::Side;
use crossbeam_queue::Pass;

/// The right to send into one lane. It knows what was sent, which proofs alone see.
#[derive(Drop)]
pub struct Sender<T> {
    pub(crate) pass: Pass<T, Side<T>>,
}

/// The right to take from one lane. It knows what was taken, which proofs alone see.
#[derive(Drop)]
pub struct Taker<T> {
    pub(crate) pass: Pass<T, Side<T>>,
}
