//! Tests of the command that runs a guest, by guests whose cores race, and by gates that hold actors up.
#![tactic(auto)]

#[cfg(test)]
mod gates;
#[cfg(test)]
mod races;
