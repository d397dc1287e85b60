//! The option words of a command: those that follow its first word.
//!
//! Each option stands at most once, in any order, as `--name value` or as `--name=value`.
#![tactic(auto)]

mod command;
pub mod laws;
mod number;
mod options;
mod word;

pub use number::number_in;
pub use options::{OptionRow, Options, WordsFault, read_options};

#[cfg(test)]
mod tests;
