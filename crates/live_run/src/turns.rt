//! How many turns the actors of a run have had. The gate is told of it, and no clause speaks of it.

/// The turns of the actors of one kind, each at its core's number.
pub(crate) type Turns = [u64; 256];

/// The turns of all cores and of all tag actors.
#[derive(Clone, Copy)]
pub(crate) struct TurnsOfAll {
    pub harts: Turns,
    pub followers: Turns,
}

impl TurnsOfAll {
    /// Before the first turn of any.
    pub(crate) fn none() -> TurnsOfAll {
        TurnsOfAll {
            harts: [0; 256],
            followers: [0; 256],
        }
    }
}
