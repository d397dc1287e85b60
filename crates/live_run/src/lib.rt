//! A run with a thread for each actor: the cores of a setup and their tag actors.
#![tactic(auto)]

mod actor;
mod actors;
mod closing;
mod ends;
mod finishing;
pub mod laws;
mod objects;
mod opening;
mod output;
mod pair;
mod parts;
mod room;
mod rounds;
mod running;
mod tables;
#[cfg(test)]
mod tests;
mod threads;
mod turns;
mod work;

pub use finishing::assemble;
pub use parts::{LiveParts, RunShape};
pub use room::RunRoom;
pub use running::{drive, run};
