//! The whole machine as definitions: its setups, its states, and its step.
#![tactic(auto)]

pub mod limits;
