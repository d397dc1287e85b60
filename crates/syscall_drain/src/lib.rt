//! One core's units: what the next one asks, and what the core is after an answer.
#![tactic(auto)]

mod after_unit;
mod answer;
mod arguments;
mod ask;
mod break_call;
mod buffer;
mod core_state;
mod decision;
mod end;
mod gathered;
mod guest;
mod instruction;
pub mod limits;
mod local_core;
mod phase;
mod read_call;
mod task;
mod write_call;

pub use ask::{Answer, CoreAsk, Made, NextUnit};
pub use core_state::CoreState;
pub use end::End;
pub use guest::Guest;
