use crate::read_call::ReadStage;
use crate::write_call::WriteStage;

/// Where a core is in a system call. The call's arguments stand in registers until its return unit.
#[derive(Clone, Copy, Debug, PartialEq, Eq)]
pub(crate) enum Phase {
    /// In no call: the next unit is an instruction.
    Running,
    /// In a read call.
    Reading(ReadStage),
    /// In a write call.
    Writing(WriteStage),
    /// Before the claim of a call for the program break.
    Breaking,
    /// Before the return unit of a call with this result.
    Returning(u32),
}
