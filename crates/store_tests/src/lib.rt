//! Tests of images, memories, lanes and orders, by the public calls of their crates.
#![tactic(auto)]

#[cfg(test)]
mod images;
#[cfg(test)]
mod lists;
#[cfg(test)]
mod memories;
#[cfg(test)]
mod orders;
#[cfg(test)]
mod rows;
#[cfg(test)]
mod systems;
#[cfg(test)]
mod tickets;
