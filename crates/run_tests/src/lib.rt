//! Tests of single actors, of the tracker and of reports, by the public calls of their crates.
#![tactic(auto)]

#[cfg(test)]
mod harts;
#[cfg(test)]
mod reading;
#[cfg(test)]
mod spelling;
#[cfg(test)]
mod tag_actors;
#[cfg(test)]
mod trackers;
#[cfg(test)]
mod units;
