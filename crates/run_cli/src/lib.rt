//! The commands of the program: a run and its report, the replay of a report, the memory map of an image.
#![tactic(auto)]

mod deliver;
mod dispatch;
mod ending;
mod files;
mod limits;
mod live;
mod map_text;
mod offline_commands;
mod options;
mod prepare;
mod refusal;
mod replay;
mod setup;
mod words;

pub use dispatch::command;
pub use offline_commands::offline;
