//! Comparing bytes with the report of a run.
ghost use Rattle.std.specs.Prelude.{◌≡◌, ◌+◌, ◌<◌, ◌≤◌, ◌≢◌, length, slice_get, take, MatchOption};
ghost use Rattle.machine.specs.FinishedRuns.{IsFinishedRun};
ghost use Rattle.trap_report.specs.Text.{text};
ghost use Rattle.trap_report.specs.Difference.{DifferFirstAt, IsFirstDifference};

use crate::block::Block;
use crate::cursor::Cursor;
use crate::spelling::push_line;
use inline_tracker::{Finished, Setup};

/// The first place at which bytes are not those of the report of a finished run of a setup, counted
/// from 0: the length of the shorter where one is the front of the other. `None` where they are the
/// report.
pub fn first_difference(setup: &Setup, finished: &mut Finished, bytes: &[u8]) -> Option<u64>
    requires { IsFinishedRun setup.now finished.old.run }
    ensures first { IsFirstDifference (text setup.now finished.old.run.order) bytes.now result }
    ensures same { finished.new.run ≡ finished.old.run }
{
    finished.rewind();
    let mut cursor = Cursor::new();
    let mut block = Block::new();
    let mut at = 0;
    while let Some(line) = cursor.next_line(setup, finished) {
        block.clear();
        push_line(&mut block, &line);
        if let Some(place) = difference_in(block.as_bytes(), &bytes[at..]) {
            return Some((at + place) as u64);
        }
        at += block.len();
    }
    if at < bytes.len() {
        Some(at as u64)
    } else {
        None
    }
}

// The first place of a text at which bytes have not the same, or `None` where they begin with it.
fn difference_in(text: &[u8], bytes: &[u8]) -> Option<usize>
    ensures { MatchOption result
        ((length text.now ≤ length bytes.now) × (text.now ≡ take (length text.now) bytes.now))
        (λ place. (place < length text.now) × (place ≤ length bytes.now) × DifferFirstAt place text.now bytes.now) }
{
    for (place, byte) in text.iter().enumerate() {
        if bytes.get(place).copied() != Some(*byte) {
            return Some(place);
        }
    }
    None
}
