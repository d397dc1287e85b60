//! The actor beside a core that follows its tags: it takes the core's records, changes tag words in the order of their numbers,
//! and answers the core at its meetings.
#![tactic(auto)]

mod actor;
mod answer;
pub mod laws;
mod moves;
mod stage;
mod turning;

pub use actor::{TagActor, TagParts};
pub use answer::TagTurn;
