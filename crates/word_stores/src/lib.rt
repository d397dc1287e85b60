//! The two memories of a run: the words of its image, which cores change by drawn numbers, and their tags, which are changed in
//! the order of those numbers.
#![tactic(auto)]

mod shared_memory;
mod tag_memory;

pub use bounded_list::NoMemory;
pub use shared_memory::SharedMemory;
pub use tag_memory::TagMemory;
pub use ticket_table::{Closed, Pass, Served};
