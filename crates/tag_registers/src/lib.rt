//! The tags of one core, as its records make them.
#![tactic(auto)]

mod ask;
mod consuming;
mod file;
pub mod laws;
mod looks;
mod reply;
mod touches;
mod units;

pub use ask::TagAsk;
pub use file::TagFile;

#[cfg(test)]
mod tests;
