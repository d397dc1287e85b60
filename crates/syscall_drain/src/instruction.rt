//! The unit of the instruction at a hart's program counter.
ghost use Rattle.std.specs.Prelude.{◌≡◌};
ghost use Rattle.elf_image.specs.Layout.{word_of, fetched, words_of};
ghost use Rattle.rv_decode.specs.Ranges.{Fits};
ghost use Rattle.rv_decode.specs.Rows.{decoded};
ghost use Rattle.rv_execute.specs.Harts.{state_of};
ghost use Rattle.rv_execute.specs.Instructions.{asked};
ghost use Rattle.syscall_drain.specs.Tasks.{outside_fault, only_loads, access_task, fault_task, asked_task, decoded_task, fetched_task};
ghost use Rattle.syscall_drain.specs.Sound.{IsSoundTask};

use crate::buffer::word_of;
use crate::task::{AccessReason, QuietReason, Task};
use elf_image::Image;
use record_lane::MeetKind;
use rv_decode::{Insn, decode};
use rv_execute::{Ask, Fault, Hart, Op, begin};

/// The fault of an access of an instruction outside the mapped pages.
fn outside_fault(insn: Insn) -> Fault
    ensures { result ≡ outside_fault insn }
{
    match insn {
        Insn::Load { .. } | Insn::Lr { .. } => Fault::LoadOutside,
        _ => Fault::StoreOutside,
    }
}

/// Whether an access of an instruction needs no permission.
fn only_loads(insn: Insn) -> bool
    ensures { result ≡ only_loads insn }
{
    matches!(insn, Insn::Load { .. } | Insn::Lr { .. })
}

/// An instruction that faults.
fn faulted(fault: Fault, insn: Insn) -> Task
    ensures { result ≡ Task.Quiet (QuietReason.Faulted fault insn) }
{
    Task::Quiet(QuietReason::Faulted(fault, insn))
}

/// An instruction that asks for an access: its page is to be mapped, and for more than a load to be writable.
fn access_task(image: &Image, hart: &Hart, insn: Insn, address: u32, op: Op) -> Task
    requires fits { Fits insn }
    requires asked { asked (state_of hart.now) insn ≡ Ask.Touch address op }
    ensures value { result ≡ access_task image.now insn address op (word_of image.now address) }
    ensures sound { IsSoundTask (words_of image.now) (state_of hart.now) result }
{
    match word_of(image, address) {
        None => faulted(outside_fault(insn), insn),
        Some(word) => {
            if only_loads(insn) {
                Task::Access(word, op, AccessReason::Insn(insn))
            } else if image.writable(address) {
                Task::Access(word, op, AccessReason::Insn(insn))
            } else {
                faulted(Fault::StoreReadOnly, insn)
            }
        }
    }
}

/// A fault of an instruction: EBREAK's comes before its instruction is used.
fn fault_task(insn: Insn, fault: Fault) -> Task
    ensures { result ≡ fault_task insn fault }
{
    match fault {
        Fault::Break => Task::Quiet(QuietReason::Blank(Fault::Break)),
        _ => faulted(fault, insn),
    }
}

/// The unit of an instruction.
fn insn_task(image: &Image, hart: &Hart, insn: Insn) -> Task
    requires { Fits insn }
    ensures value { result ≡ asked_task image.now insn (asked (state_of hart.now) insn) }
    ensures sound { IsSoundTask (words_of image.now) (state_of hart.now) result }
{
    match begin(hart, insn) {
        Ask::Quiet => Task::Quiet(QuietReason::Plain(insn)),
        Ask::Touch { addr, op } => access_task(image, hart, insn, addr, op),
        Ask::Ecall => Task::Meeting(MeetKind::Call),
        Ask::Fault(fault) => fault_task(insn, fault),
    }
}

/// The unit of the instruction that a word means.
fn decoded_task(image: &Image, hart: &Hart, word: u32) -> Task
    ensures value { result ≡ decoded_task image.now (state_of hart.now) (decoded word) }
    ensures sound { IsSoundTask (words_of image.now) (state_of hart.now) result }
{
    match decode(word) {
        None => Task::Quiet(QuietReason::Blank(Fault::Illegal)),
        Some(insn) => insn_task(image, hart, insn),
    }
}

/// The unit of the instruction at the program counter.
pub(crate) fn fetched_task(image: &Image, hart: &Hart) -> Task
    ensures value { result ≡ fetched_task image.now (state_of hart.now) (fetched image.now hart.now.pc) }
    ensures sound { IsSoundTask (words_of image.now) (state_of hart.now) result }
{
    match image.fetch(hart.pc) {
        None => Task::Quiet(QuietReason::Blank(Fault::FetchOutside)),
        Some(word) => decoded_task(image, hart, word),
    }
}
