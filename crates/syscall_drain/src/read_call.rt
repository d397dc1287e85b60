//! The call read: a claim on the input, and a store for each word that holds a byte taken.
ghost use Rattle.std.specs.Prelude.{◌≡◌, ◌<◌, ◌≤◌, ◌+◌};
ghost use Rattle.elf_image.specs.Layout.{is_writable, words_of};
ghost use Rattle.rv_execute.specs.Harts.{state_of};
ghost use Rattle.syscall_drain.specs.Arguments.{fails_at, buffer_start};
ghost use Rattle.syscall_drain.specs.Buffers.{word_count};
ghost use Rattle.syscall_drain.specs.ReadCall.{read_phase, read_task, read_next, store_phase, store_after, bytes_taken};
ghost use Rattle.syscall_drain.specs.Sound.{IsSoundRead, IsSoundTask};

use crate::arguments::{byte_count, call_buffer, first_argument};
use crate::buffer::{Buffer, buffer_word};
use crate::decision::{BAD_ADDRESS, BAD_DESCRIPTOR};
use crate::guest::Guest;
use crate::limits::MOST_BYTES;
use crate::phase::Phase;
use crate::task::{AccessReason, Task};
use elf_image::Image;
use elf_image::device::INPUT_WORD;
use rv_execute::{Hart, Op};

/// How far a read call is.
#[derive(Clone, Copy, Debug, PartialEq, Eq)]
pub(crate) enum ReadStage {
    /// Before its claim on the input.
    Claiming,
    /// It took `count` bytes from position `start` of the input on, and is before the store of word `index` of them.
    Storing { index: u32, start: u32, count: u32 },
}

/// Whether some byte of a buffer passes the last address or is not on a writable page. At most 4,096
/// bytes lie on the pages of the first and of the last of them.
#[tactic(auto, using(crate::proofs::Pages::call_tests))]
fn has_unwritable(image: &Image, buffer: Buffer) -> bool
    requires some { 0 < buffer.count }
    requires few { buffer.count ≤ MOST_BYTES }
    ensures { result ≡ fails_at (is_writable image.now) buffer.start buffer.count }
{
    match buffer.start.checked_add(buffer.count - 1) {
        None => true,
        Some(last) => !(image.writable(buffer.start) && image.writable(last)),
    }
}

/// The phase after the decision of the call.
pub(crate) fn read_phase(guest: &Guest, hart: &Hart) -> Phase
    ensures { result ≡ read_phase guest.now (state_of hart.now) }
{
    let buffer = call_buffer(hart);
    if first_argument(hart) != 0 {
        Phase::Returning(BAD_DESCRIPTOR)
    } else if buffer.count == 0 {
        Phase::Returning(0)
    } else if has_unwritable(guest.image(), buffer) {
        Phase::Returning(BAD_ADDRESS)
    } else {
        Phase::Reading(ReadStage::Claiming)
    }
}

/// The claim on the input.
#[tactic(auto, using(crate::proofs::Within::device_words))]
fn claim(guest: &Guest, hart: &Hart) -> Task
    ensures value { result ≡ read_task guest.now (state_of hart.now) ReadStage.Claiming }
    ensures sound { IsSoundTask (words_of guest.now.layout) (state_of hart.now) result }
{
    let op = Op::TakeInput {
        want: byte_count(hart),
        total: guest.input().len() as u32,
    };
    Task::Access(INPUT_WORD, op, AccessReason::Claim)
}

/// The store of a word of the bytes that were taken.
fn store(guest: &Guest, hart: &Hart, index: u32, start: u32, count: u32) -> Task
    requires { IsSoundRead (state_of hart.now) (ReadStage.Storing index start count) }
    ensures value { result ≡ read_task guest.now (state_of hart.now) (ReadStage.Storing index start count) }
    ensures sound { IsSoundTask (words_of guest.now.layout) (state_of hart.now) result }
{
    let taken = Buffer {
        start: call_buffer(hart).start,
        count,
    };
    let word = buffer_word(guest.image(), taken, index);
    let op = taken.fill(index, guest.input(), start);
    Task::Access(word, op, AccessReason::Fill(taken.bytes(index)))
}

/// The next unit of the call.
pub(crate) fn read_task(guest: &Guest, hart: &Hart, stage: ReadStage) -> Task
    requires { IsSoundRead (state_of hart.now) stage }
    ensures value { result ≡ read_task guest.now (state_of hart.now) stage }
    ensures sound { IsSoundTask (words_of guest.now.layout) (state_of hart.now) result }
{
    match stage {
        ReadStage::Claiming => claim(guest, hart),
        ReadStage::Storing {
            index,
            start,
            count,
        } => store(guest, hart, index, start, count),
    }
}

/// The phase after the claim on the input that found this position.
fn claimed(guest: &Guest, hart: &Hart, position: u32) -> Phase
    ensures { result ≡ store_phase position (bytes_taken guest.now (state_of hart.now) position) }
{
    let left = (guest.input().len() as u32).saturating_sub(position);
    let count = byte_count(hart).min(left);
    if count == 0 {
        Phase::Returning(0)
    } else {
        Phase::Reading(ReadStage::Storing {
            index: 0,
            start: position,
            count,
        })
    }
}

/// The phase after a store.
fn stored(hart: &Hart, index: u32, start: u32, count: u32) -> Phase
    requires few { count ≤ MOST_BYTES }
    requires low { index ≤ 1024 }
    ensures { result ≡ store_after (state_of hart.now) index start count }
{
    let taken = Buffer {
        start: call_buffer(hart).start,
        count,
    };
    if index + 1 < taken.words() {
        Phase::Reading(ReadStage::Storing {
            index: index + 1,
            start,
            count,
        })
    } else {
        Phase::Returning(count)
    }
}

/// The phase after an access of the call that found this.
pub(crate) fn read_next(guest: &Guest, hart: &Hart, stage: ReadStage, found: u32) -> Phase
    requires { IsSoundRead (state_of hart.now) stage }
    ensures { result ≡ read_next guest.now (state_of hart.now) stage found }
{
    match stage {
        ReadStage::Claiming => claimed(guest, hart, found),
        ReadStage::Storing {
            index,
            start,
            count,
        } => stored(hart, index, start, count),
    }
}
