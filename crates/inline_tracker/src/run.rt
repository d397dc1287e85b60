//! The state of a run: its cores, its words, its order so far and the guest's output.
use crate::finished::CoreOutcome;
use crate::memory::Cell;
use crate::seat::Seat;
use bounded_list::BoundedList;
use order_core::{Bytes, CoreLog, Order};

/// A run. The lists of logs and outcomes are empty until it has finished.
#[derive(Drop)]
pub(crate) struct Run {
    pub(crate) seats: Vec<Seat>,
    pub(crate) cells: Vec<Cell>,
    pub(crate) order: Order,
    pub(crate) output: Bytes,
    pub(crate) logs: BoundedList<CoreLog>,
    pub(crate) outcomes: BoundedList<CoreOutcome>,
}
