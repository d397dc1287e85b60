//! The rules by which tags go from operands to results, for up to four policies at once, and the texts that
//! name them.
#![tactic(auto)]

mod fault;
mod keys;
mod kinds;
mod masks;
mod memory;
mod policy;
mod reading;
mod rules;
mod tables;
mod values;

pub use fault::{PolicyFault, PolicyKind};
pub use kinds::Kinds;
pub use policy::Policy;
pub use reading::read_policy;
pub use rules::{Change, Check, Mode, Rules, Version};
