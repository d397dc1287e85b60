//! What is told before each turn of an actor.

/// An actor of a run: the core with this number, or the tag actor beside it.
#[derive(Clone, Copy, Debug, PartialEq, Eq)]
pub enum Who {
    Hart(u8),
    Tag(u8),
}

/// A place that each actor passes before a turn. It may hold the actor up, or look at its counts.
///
/// Nothing of a run depends on it: an actor does the same after it, whenever it comes through.
pub trait Gate: Sync {
    /// Is called before a turn of an actor: `turn` counts its turns from 0, and `done` is how many units or records it has done.
    fn before(&self, who: Who, turn: u64, done: u32);
}

/// A gate that holds nobody up.
#[derive(Clone, Copy, Debug, Default)]
pub struct OpenGate;

impl Gate for OpenGate {
    fn before(&self, who: Who, turn: u64, done: u32) {
        let _ = (who, turn, done);
    }
}
