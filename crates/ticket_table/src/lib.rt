//! Words that many threads change one at a time, each change with its number: a ticket that is drawn or served.
#![tactic(auto)]

mod change;
mod closed;
mod dealing;
mod gathering;
pub mod laws;
mod pass;
mod rule;
mod served;
mod steps;
mod tickets;
mod word;

pub use change::{Change, Role, Terms};
pub use closed::Closed;
pub use pass::Pass;
pub use served::Served;
pub use tickets::TicketTable;
pub use word::{number, payload};
