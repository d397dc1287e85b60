//! Tests of the commands: their words and files, replays, maps, and what is left where calls or memory fail.
#![tactic(auto)]

#[cfg(test)]
mod faults;
#[cfg(test)]
mod maps;
#[cfg(test)]
mod memory;
#[cfg(test)]
mod refusals;
#[cfg(test)]
mod replays;
