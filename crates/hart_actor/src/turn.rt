ghost use Rattle.std.specs.Prelude.{◌≡◌, if◌then◌else◌};
ghost use Rattle.hart_actor.specs.declared.turn.HartTurn.TheVariants.{Went};

/// What a turn came to.
#[derive(Clone, Copy, Debug, PartialEq, Eq)]
pub enum HartTurn {
    /// A unit was done, a record sent or a reply taken.
    Went,
    /// Nothing was done: the next record does not fit into the ring.
    Full,
    /// Nothing was done: the reply to the meeting has not come.
    Waits,
    /// The last record has been sent.
    Ended,
}

/// What one step of a turn came to.
#[derive(Clone, Copy, Debug, PartialEq, Eq)]
pub(crate) enum Step {
    /// It made a move, with so many units, 0 or 1. `grown` where the log, what was sent or what was taken has one item more.
    Moved { units: u32, grown: bool },
    /// The next record does not fit into the ring.
    Full,
    /// The reply to the meeting has not come.
    Waits,
    /// There is no move left.
    Ended,
}

/// The answer of a turn that is blocked: `Went` where it went before.
pub(crate) fn went_or(went: bool, blocked: HartTurn) -> HartTurn
    ensures { result ≡ (if went then Went else blocked) }
{
    if went { HartTurn::Went } else { blocked }
}
