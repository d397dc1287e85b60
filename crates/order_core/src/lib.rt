//! Orders of several cores' accesses: access logs, and their canonical merge.
#![tactic(auto)]

mod core_set;
mod entry;
pub mod laws;
mod merge_room;
mod numbers;
mod shape;
mod system;
mod waiting;
mod walk;

pub use bounded_list::{BoundedList, NoMemory};
pub use entry::{Access, Bytes, CoreLog, Entry, Order, Pieces};
pub use merge_room::{MergeRoom, all_touch_below, merge};
pub use shape::{Move, Shape};
pub use system::System;
pub use walk::Walk;
