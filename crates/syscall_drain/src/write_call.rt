//! The call write: a read of each word that holds a byte of its buffer, the verdict on what was gathered, and a claim
//! on the output.
ghost use Rattle.std.specs.Prelude.{◌≡◌, ◌<◌, ◌≤◌, ◌+◌, ◌||◌, ◌==◌, ℕ, List};
ghost use Rattle.elf_image.specs.Layout.{words_of};
ghost use Rattle.rv_execute.specs.Harts.{state_of};
ghost use Rattle.syscall_drain.specs.Arguments.{fails_at, is_mapped_at};
ghost use Rattle.syscall_drain.specs.WriteCall.{write_phase, write_task, write_next, gathered_by};
ghost use Rattle.syscall_drain.specs.Sound.{IsSoundWrite, IsSoundTask};

use crate::arguments::{byte_count, call_buffer, first_argument};
use crate::buffer::{Buffer, buffer_word};
use crate::decision::{BAD_ADDRESS, BAD_DESCRIPTOR};
use crate::gathered::Gathered;
use crate::guest::Guest;
use crate::limits::MOST_BYTES;
use crate::phase::Phase;
use crate::task::{AccessReason, Task};
use elf_image::Image;
use elf_image::device::OUTPUT_WORD;
use record_lane::MeetKind;
use rv_execute::{Hart, Op};

/// How far a write call is.
#[derive(Clone, Copy, Debug, PartialEq, Eq)]
pub(crate) enum WriteStage {
    /// Before the read of word `index` of its buffer.
    Gathering { index: u32 },
    /// Before the verdict.
    Judging,
    /// Before its claim on the output.
    Placing,
}

#[tactic(auto, using(crate::proofs::Pages::call_tests))]
fn is_mapped(image: &Image, address: u32) -> bool
    ensures { result ≡ is_mapped_at image.now address }
{
    image.word_of(address).is_some()
}

/// Whether some byte of a buffer passes the last address or is not on a mapped page.
#[tactic(auto, using(crate::proofs::Pages::call_tests))]
fn has_unmapped(image: &Image, buffer: Buffer) -> bool
    requires some { 0 < buffer.count }
    requires few { buffer.count ≤ MOST_BYTES }
    ensures { result ≡ fails_at (is_mapped_at image.now) buffer.start buffer.count }
{
    match buffer.start.checked_add(buffer.count - 1) {
        None => true,
        Some(last) => !(is_mapped(image, buffer.start) && is_mapped(image, last)),
    }
}

fn is_output(descriptor: u32) -> bool
    ensures { result ≡ ((descriptor == 1) || (descriptor == 2)) }
{
    descriptor == 1 || descriptor == 2
}

/// The phase after the decision of the call.
pub(crate) fn write_phase(guest: &Guest, hart: &Hart) -> Phase
    ensures { result ≡ write_phase guest.now (state_of hart.now) }
{
    let buffer = call_buffer(hart);
    if !is_output(first_argument(hart)) {
        Phase::Returning(BAD_DESCRIPTOR)
    } else if buffer.count == 0 {
        Phase::Returning(0)
    } else if has_unmapped(guest.image(), buffer) {
        Phase::Returning(BAD_ADDRESS)
    } else {
        Phase::Writing(WriteStage::Gathering { index: 0 })
    }
}

/// The read of a word of the buffer.
fn read(guest: &Guest, hart: &Hart, index: u32) -> Task
    requires { (gathered : List ℕ) × IsSoundWrite (state_of hart.now) gathered (WriteStage.Gathering index) }
    ensures value { result ≡ write_task guest.now (state_of hart.now) (WriteStage.Gathering index) }
    ensures sound { IsSoundTask (words_of guest.now.layout) (state_of hart.now) result }
{
    let buffer = call_buffer(hart);
    let word = buffer_word(guest.image(), buffer, index);
    Task::Access(word, Op::Read, AccessReason::Gather(buffer.bytes(index)))
}

/// The claim on the output.
#[tactic(auto, using(crate::proofs::Within::device_words))]
fn place(guest: &Guest, hart: &Hart) -> Task
    ensures value { result ≡ write_task guest.now (state_of hart.now) WriteStage.Placing }
    ensures sound { IsSoundTask (words_of guest.now.layout) (state_of hart.now) result }
{
    let op = Op::Place {
        len: byte_count(hart),
    };
    Task::Access(OUTPUT_WORD, op, AccessReason::Claim)
}

/// The next unit of the call.
pub(crate) fn write_task(guest: &Guest, hart: &Hart, gathered: &Gathered, stage: WriteStage) -> Task
    requires { IsSoundWrite (state_of hart.now) gathered.now stage }
    ensures value { result ≡ write_task guest.now (state_of hart.now) stage }
    ensures sound { IsSoundTask (words_of guest.now.layout) (state_of hart.now) result }
{
    match stage {
        WriteStage::Gathering { index } => read(guest, hart, index),
        WriteStage::Judging => Task::Meeting(MeetKind::Verdict),
        WriteStage::Placing => place(guest, hart),
    }
}

/// The phase after the read of a word.
fn next_read(hart: &Hart, index: u32) -> Phase
    requires { index ≤ 1024 }
    ensures { result ≡ write_next (state_of hart.now) (WriteStage.Gathering index) }
{
    if index + 1 < call_buffer(hart).words() {
        Phase::Writing(WriteStage::Gathering { index: index + 1 })
    } else {
        Phase::Writing(WriteStage::Judging)
    }
}

/// Adds the buffer's bytes of a word that was read, and gives the phase after an access of the call.
pub(crate) fn write_next(
    hart: &Hart,
    gathered: &mut Gathered,
    stage: WriteStage,
    found: u32,
) -> Phase
    requires { IsSoundWrite (state_of hart.now) gathered.old stage }
    ensures phase { result ≡ write_next (state_of hart.now) stage }
    ensures bytes { gathered.new ≡ gathered_by (state_of hart.now) stage found gathered.old }
{
    match stage {
        WriteStage::Gathering { index } => {
            gathered.gather(call_buffer(hart), index, found);
            next_read(hart, index)
        }
        WriteStage::Judging => Phase::Writing(WriteStage::Judging),
        WriteStage::Placing => Phase::Returning(byte_count(hart)),
    }
}
