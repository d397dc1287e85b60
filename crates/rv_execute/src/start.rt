//! What an instruction asks.

ghost use Rattle.std.specs.Prelude.{◌≡◌, ◌-◌, ◌<◌, ◌==◌, ◌%◌, if◌then◌else◌};
ghost use Rattle.std.specs.Option.{ForSome};
ghost use Rattle.rv_decode.specs.Ranges.{Fits};
ghost use Rattle.rv_execute.specs.Harts.{state_of, reg};
ghost use Rattle.rv_execute.specs.Results.{is_taken};
ghost use Rattle.rv_execute.specs.Payloads.{stored, load_size, store_size};
ghost use Rattle.rv_execute.specs.Instructions.{asked, ask_jump, ask_access, asked_number, jump_target};

use crate::alu::branches;
use crate::ask::Ask;
use crate::fault::Fault;
use crate::hart::Hart;
use crate::lanes::{byte_write, half_write};
use crate::op::{MOST_NUMBERS, NO_NUMBER, Op};
use rv_decode::{BranchKind, Insn, LoadKind, StoreKind};

/// What an instruction asks of memory or of the environment before it can be finished. The hart stays as it is.
///
/// The address of a `Touch` is that of the word in which the accessed bytes lie.
#[tactic(auto, unfolding(crate::specs::Instructions::asked))]
pub fn begin(hart: &Hart, insn: Insn) -> Ask
    requires { Fits insn }
    ensures { result ≡ asked (state_of hart.now) insn }
{
    match insn {
        Insn::Jal { imm, .. } => go_to(hart.jump_target(imm)),
        Insn::Jalr { rs1, imm, .. } => go_to(hart.register_target(rs1, imm)),
        Insn::Branch {
            kind,
            rs1,
            rs2,
            imm,
        } => branch(hart, kind, rs1, rs2, imm),
        Insn::Load { kind, rs1, imm, .. } => load(kind, hart.address(rs1, imm)),
        Insn::Store {
            kind,
            rs1,
            rs2,
            imm,
        } => store(kind, hart.address(rs1, imm), hart.register(rs2)),
        Insn::Lr { rs1, .. } => load(LoadKind::Lw, hart.register(rs1)),
        Insn::Sc { rs1, rs2, .. } => store_conditional(hart, rs1, rs2),
        Insn::Amo { kind, rs1, rs2, .. } => {
            store_word(
                hart.register(rs1),
                Op::Amo {
                    kind,
                    value: hart.register(rs2),
                },
            )
        }
        Insn::Ecall => Ask::Ecall,
        Insn::Ebreak => Ask::Fault(Fault::Break),
        Insn::Lui { .. } | Insn::Auipc { .. } | Insn::Imm { .. } | Insn::Reg { .. } | Insn::Fence =>
            Ask::Quiet,
    }
}

/// The number with which a store-conditional to this address is asked.
pub fn number_asked(kept: Option<(u32, u32)>, address: u32) -> u32
    requires { ForSome kept (λ k. k.1 < MOST_NUMBERS) }
    ensures { result ≡ asked_number kept address }
{
    match kept {
        Some((word, number)) => {
            if word == address {
                number + 1
            } else {
                NO_NUMBER
            }
        }
        None => NO_NUMBER,
    }
}

fn go_to(target: u32) -> Ask
    ensures { result ≡ ask_jump target }
{
    if target % 4 == 0 {
        Ask::Quiet
    } else {
        Ask::Fault(Fault::FetchMisaligned)
    }
}

fn branch(hart: &Hart, kind: BranchKind, rs1: u8, rs2: u8, imm: i32) -> Ask
    requires first { rs1 < 32 }
    requires second { rs2 < 32 }
    ensures { result ≡ (if is_taken kind (reg (state_of hart.now) rs1) (reg (state_of hart.now) rs2) then ask_jump (jump_target (state_of hart.now) imm) else Ask.Quiet) }
{
    if branches(kind, hart.register(rs1), hart.register(rs2)) {
        go_to(hart.jump_target(imm))
    } else {
        Ask::Quiet
    }
}

/// An access to the word in which this address lies.
fn touch(address: u32, op: Op) -> Ask
    ensures { result ≡ Ask.Touch (address - address % 4) op }
{
    Ask::Touch {
        addr: address - address % 4,
        op,
    }
}

fn load(kind: LoadKind, address: u32) -> Ask
    ensures { result ≡ ask_access (load_size kind) address Fault.LoadMisaligned Op.Read }
{
    let is_aligned = match kind {
        LoadKind::Lb | LoadKind::Lbu => true,
        LoadKind::Lh | LoadKind::Lhu => address % 2 == 0,
        LoadKind::Lw => address % 4 == 0,
    };
    if is_aligned {
        touch(address, Op::Read)
    } else {
        Ask::Fault(Fault::LoadMisaligned)
    }
}

fn store(kind: StoreKind, address: u32, value: u32) -> Ask
    ensures { result ≡ ask_access (store_size kind) address Fault.StoreMisaligned (stored kind (address % 4) value) }
{
    match kind {
        StoreKind::Sb => touch(address, byte_write(address % 4, value)),
        StoreKind::Sh => store_half(address, value),
        StoreKind::Sw => store_word(
            address,
            Op::Write {
                mask: u32::MAX,
                value,
            },
        ),
    }
}

fn store_half(address: u32, value: u32) -> Ask
    ensures { result ≡ ask_access 2 address Fault.StoreMisaligned (stored StoreKind.Sh (address % 4) value) }
{
    if address % 2 == 0 {
        touch(address, half_write(address % 4, value))
    } else {
        Ask::Fault(Fault::StoreMisaligned)
    }
}

/// An access to the whole word at this address, as of a store.
fn store_word(address: u32, op: Op) -> Ask
    ensures { result ≡ ask_access 4 address Fault.StoreMisaligned op }
{
    if address % 4 == 0 {
        touch(address, op)
    } else {
        Ask::Fault(Fault::StoreMisaligned)
    }
}

fn store_conditional(hart: &Hart, rs1: u8, rs2: u8) -> Ask
    requires first { rs1 < 32 }
    requires second { rs2 < 32 }
    ensures { let at = reg (state_of hart.now) rs1 in result ≡ ask_access 4 at Fault.StoreMisaligned (Op.Sc (asked_number hart.now.kept at) (reg (state_of hart.now) rs2)) }
{
    let address = hart.register(rs1);
    let number = number_asked(hart.kept, address);
    store_word(
        address,
        Op::Sc {
            number,
            value: hart.register(rs2),
        },
    )
}
