//! Tests of the instructions and of policies, by the public calls of their crates.
#![tactic(auto)]

#[cfg(test)]
mod decode;
#[cfg(test)]
mod execute;
#[cfg(test)]
mod policies;
#[cfg(test)]
mod touched;
