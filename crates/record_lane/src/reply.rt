/// The first check that fired in a core: the unit and its address, the kind of check from 1 to 7,
/// and the policy bits that fired it.
#[derive(Clone, Copy, Debug, PartialEq, Eq)]
pub struct Trap {
    pub step: u32,
    pub pc: u32,
    pub kind: u8,
    pub bits: u8,
}

/// What a tag actor answers at a meeting. `stop` where its core has a trap; register r has the bits
/// 4r to 4r + 3 of `tags`.
#[derive(Clone, Copy, Debug, PartialEq, Eq)]
pub struct Reply {
    pub stop: bool,
    pub trap: Option<Trap>,
    pub tags: u128,
    pub buffer: u8,
}
