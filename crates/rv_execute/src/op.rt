use rv_decode::AmoKind;

/// The number that no access ever has. A store-conditional that has lost its reservation is asked with it.
pub const NO_NUMBER: u32 = 4294967295;

/// How many numbers the accesses to a word have at most. Each number is below this, so that the next one is not `NO_NUMBER` either.
pub const MOST_NUMBERS: u32 = NO_NUMBER - 1;

/// What an access does to the word that it touches. Masks and values have the word's 32 bits.
#[derive(Clone, Copy, Debug, PartialEq, Eq)]
pub enum Op {
    /// Keeps the word.
    Read,
    /// Stores the bits of `value` that `mask` has.
    Write { mask: u32, value: u32 },
    /// An atomic memory operation with the register operand `value`.
    Amo { kind: AmoKind, value: u32 },
    /// A store-conditional: stores where the access has this number.
    Sc { number: u32, value: u32 },
    /// The claim of a read call on the input's position: at most `want` bytes of the `total`.
    TakeInput { want: u32, total: u32 },
    /// The claim of a write call on the output's length: `len` bytes more.
    Place { len: u32 },
    /// The claim of a call for the program break: `want`, where it is from `low` to `high`.
    Break { want: u32, low: u32, high: u32 },
}

/// What an access found: how many accesses its word had before it, and the word.
/// `spent`: its number is at or above the run's limit of accesses, and it changed nothing else.
#[derive(Clone, Copy, Debug, PartialEq, Eq)]
pub struct Taken {
    pub number: u32,
    pub old: u32,
    pub spent: bool,
}
