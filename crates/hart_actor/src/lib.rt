//! One core in turns: it runs its program on the shared memory, and tells its tag actor of each unit.
#![tactic(auto)]

mod hart;
mod note;
mod output;
mod parts;
mod stage;
mod turn;
mod ward;

pub use hart::HartActor;
pub use parts::HartParts;
pub use turn::HartTurn;
