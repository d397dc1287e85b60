use record_lane::MeetKind;
use rv_decode::Insn;
use rv_execute::{Fault, Op};

/// What the next unit of a core is.
#[derive(Clone, Copy, Debug, PartialEq, Eq)]
pub(crate) enum Task {
    /// None: the core has ended.
    Over,
    /// A unit without an access.
    Quiet(QuietReason),
    /// A unit with an access to a word.
    Access(u32, Op, AccessReason),
    /// A meeting with the core's tag actor.
    Meeting(MeetKind),
}

/// Why a unit has no access.
#[derive(Clone, Copy, Debug, PartialEq, Eq)]
pub(crate) enum QuietReason {
    /// A fault before an instruction is known or used.
    Blank(Fault),
    /// A fault of an instruction.
    Faulted(Fault, Insn),
    /// An instruction that needs no access.
    Plain(Insn),
    /// The return of a call, with its result.
    Return(u32),
}

/// Why a unit has an access. Bit i of a number of bytes is set where byte i of the word is touched.
#[derive(Clone, Copy, Debug, PartialEq, Eq)]
pub(crate) enum AccessReason {
    /// An instruction.
    Insn(Insn),
    /// A store of a read call to these bytes of a word of its buffer.
    Fill(u8),
    /// A read of a write call of these bytes of a word of its buffer.
    Gather(u8),
    /// A call's claim on a device.
    Claim,
}
