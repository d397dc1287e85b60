use rv_execute::Fault;

/// How a core ended.
#[derive(Clone, Copy, Debug, PartialEq, Eq)]
pub enum End {
    /// By the exit call, with the low byte of its argument.
    Exit(u8),
    /// At a meeting, where it had a trap.
    Trapped,
    /// At an instruction that faulted.
    Fault(Fault),
    /// It spent its budget of units.
    Budget,
    /// An access of it had a number at or above the run's limit.
    Spent,
}
