//! What one instruction of RV32IMA asks of memory and does to its hart.
#![tactic(auto)]

mod alu;
mod ask;
mod fault;
mod finish;
mod hart;
mod lanes;
mod op;
mod payload;
mod start;
mod touched;

pub use ask::Ask;
pub use fault::Fault;
pub use finish::resume;
pub use hart::Hart;
pub use op::{MOST_NUMBERS, NO_NUMBER, Op, Taken};
pub use payload::apply;
pub use start::begin;
pub use touched::bytes_touched;
