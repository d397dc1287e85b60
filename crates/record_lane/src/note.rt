use crate::record::MeetKind;
use bounded_list::BoundedList;

/// What a core keeps of one meeting: the unit, the address and the number of the call, and the reply's
/// tags and `stop`.
#[derive(Clone, Copy, Debug, PartialEq, Eq)]
pub struct CallNote {
    pub step: u32,
    pub pc: u32,
    pub call: u32,
    pub kind: MeetKind,
    pub tags: u128,
    pub buffer: u8,
    pub stop: bool,
}

/// The notes of one core, in order.
pub type Notes = BoundedList<CallNote>;
