use rv_decode::Insn;

/// Why a unit touched a word. Bit i of `bytes` is set where byte i of the word, from the lowest on, is touched.
#[derive(Clone, Copy, Debug, PartialEq, Eq)]
pub enum Why {
    /// The access of an instruction. `hit` is false only for a store-conditional that did not store.
    Insn { insn: Insn, hit: bool, bytes: u8 },
    /// A store of a read call.
    Fill { bytes: u8 },
    /// A read of a write call.
    Gather { bytes: u8 },
    /// A call's claim on a device word.
    Claim,
    /// An access at or above the run's limit, which changed nothing but the count.
    Spent,
}

/// The two meetings of a hart with its tag actor.
#[derive(Clone, Copy, Debug, PartialEq, Eq)]
pub enum MeetKind {
    /// The decision unit of a call.
    Call,
    /// The verdict on the bytes that a write call gathered.
    Verdict,
}

/// What one unit of a hart was. `step` is the number of the unit in its hart, `pc` the address of its instruction.
#[derive(Clone, Copy, Debug, PartialEq, Eq)]
pub enum Record {
    /// An instruction without an access, or, `faulted`, one that ended in a fault of its target, its address or its page.
    Quiet {
        step: u32,
        pc: u32,
        insn: Insn,
        faulted: bool,
    },
    /// A unit that ended in a fault before its instruction was known or used: no fetch, no decoding, EBREAK.
    Blank {
        step: u32,
        pc: u32,
    },
    /// A unit with an access to this word, which had this number there.
    Touch {
        step: u32,
        pc: u32,
        word: u32,
        number: u32,
        why: Why,
    },
    /// A meeting. `call` is the number of the system call.
    Meet {
        step: u32,
        pc: u32,
        call: u32,
        kind: MeetKind,
    },
    /// The return unit of a call.
    Back {
        step: u32,
        pc: u32,
    },
    /// The hart has ended; its last record.
    End,
}
