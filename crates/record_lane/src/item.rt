ghost use Rattle.std.specs.Prelude.{ℕ};
ghost use Rattle.record_lane.specs.Sound.{IsSoundRecord, IsSoundReply};

use crate::record::Record;
use crate::reply::Reply;

/// What can go through a lane. Its one meaning is whether a value is sound for two numbers: a count of
/// words, and a bound on the numbers of accesses.
pub trait Item {
    ghost sound: { ℕ → ℕ → Self → Type 0 };
}

impl Item for Record {
    ghost sound = { IsSoundRecord };
}

impl Item for Reply {
    ghost sound = { IsSoundReply };
}
