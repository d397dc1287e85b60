//! What a step of the tracker answers.

/// Why a step was refused.
#[derive(Clone, Copy, Debug, PartialEq, Eq)]
pub enum StepFault {
    /// The core has ended.
    Ended,
    /// There is no such core.
    NoSuchCore,
}

/// What became of a step.
#[derive(Clone, Copy, Debug, PartialEq, Eq)]
pub enum Stepped {
    /// The core spent one unit.
    Went,
    /// Nothing changed.
    Refused(StepFault),
}
