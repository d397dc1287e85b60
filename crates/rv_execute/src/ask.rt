use crate::fault::Fault;
use crate::op::Op;

/// What an instruction asks before it can be finished.
#[derive(Clone, Copy, Debug, PartialEq, Eq)]
pub enum Ask {
    /// Nothing: it needs no memory.
    Quiet,
    /// One access to the word at `addr`, a multiple of 4.
    Touch { addr: u32, op: Op },
    /// The environment, by ECALL.
    Ecall,
    /// It cannot be finished, for a reason that the instruction and its operands alone show.
    Fault(Fault),
}
