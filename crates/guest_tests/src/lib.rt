//! Tests of the command that runs a guest, by what guests write and report, each with the replay of its report.
#![tactic(auto)]

#[cfg(test)]
mod examples;
#[cfg(test)]
mod guests;
#[cfg(test)]
mod policies;
