//! The one-thread run: one unit of one core at a time, in the order that the caller picks.
#![tactic(auto)]

mod advance;
mod ending;
mod finished;
pub mod laws;
mod memory;
mod opening;
mod run;
mod run_order;
mod seat;
mod setup;
mod status;
mod step;
mod tracker;
mod unit;

pub use finished::{CoreOutcome, Finished, status_of};
pub use setup::Setup;
pub use step::{StepFault, Stepped};
pub use tracker::Tracker;
