//! The records that are sent, and what is made of those that come.

ghost use Rattle.record_lane.specs.Sound.{IsSoundRecord};

use record_lane::{Record, Why};

/// The record of this number: each fourth touches a word, and the others are blank.
pub fn record_of(number: u32) -> Record
    ensures { IsSoundRecord 1024 1 result }
{
    if number % 4 == 3 {
        Record::Touch {
            step: number,
            pc: number,
            word: number % 1024,
            number: 0,
            why: Why::Claim,
        }
    } else {
        Record::Blank {
            step: number,
            pc: number,
        }
    }
}

/// A checksum with one more record.
pub fn added(sum: u32, record: Record) -> u32 {
    let part = match record {
        Record::Touch { step, word, .. } => step.wrapping_add(word),
        Record::Blank { step, .. } => step,
        _ => 1,
    };
    sum.wrapping_mul(31).wrapping_add(part)
}
