//! Whether an instruction's registers and immediate can be written into a word.

ghost use Rattle.std.specs.Prelude.{◌≡◌, ◌<◌, ◌↔◌, IsTrue, pos};
ghost use Rattle.rv_decode.specs.Kinds.{imm_functs};
ghost use Rattle.rv_decode.specs.Ranges.{Fits, IsRegister, IsUpper, IsTwelveBits, IsBranchOffset, IsJumpOffset, IsOperand};

use crate::insn::{ImmKind, Insn};
use crate::kinds::imm_functs;

fn is_register(register: u8) -> bool
    ensures { IsTrue result ↔ IsRegister register }
{
    register < 32
}

fn is_upper(imm: u32) -> bool
    ensures { IsTrue result ↔ IsUpper imm }
{
    imm % 4096 == 0
}

fn is_twelve_bits(imm: i32) -> bool
    ensures { IsTrue result ↔ IsTwelveBits imm }
{
    -2048 <= imm && imm <= 2047
}

fn is_branch_offset(imm: i32) -> bool
    ensures { IsTrue result ↔ IsBranchOffset imm }
{
    -4096 <= imm && imm <= 4094 && imm % 2 == 0
}

fn is_jump_offset(imm: i32) -> bool
    ensures { IsTrue result ↔ IsJumpOffset imm }
{
    -1_048_576 <= imm && imm <= 1_048_574 && imm % 2 == 0
}

fn is_operand(kind: ImmKind, imm: i32) -> bool
    ensures { IsTrue result ↔ IsOperand (imm_functs kind).funct7 imm }
{
    match imm_functs(kind).funct7 {
        Some(_) => 0 <= imm && imm <= 31,
        None => is_twelve_bits(imm),
    }
}

/// Whether there is a word that means the instruction.
pub fn fits(insn: Insn) -> bool
    ensures { IsTrue result ↔ Fits insn }
{
    match insn {
        Insn::Lui { rd, imm } | Insn::Auipc { rd, imm } => is_register(rd) && is_upper(imm),
        Insn::Jal { rd, imm } => is_register(rd) && is_jump_offset(imm),
        Insn::Jalr { rd, rs1, imm } => is_register(rd) && is_register(rs1) && is_twelve_bits(imm),
        Insn::Branch { rs1, rs2, imm, .. } => {
            is_register(rs1) && is_register(rs2) && is_branch_offset(imm)
        }
        Insn::Load { rd, rs1, imm, .. } => {
            is_register(rd) && is_register(rs1) && is_twelve_bits(imm)
        }
        Insn::Store { rs1, rs2, imm, .. } => {
            is_register(rs1) && is_register(rs2) && is_twelve_bits(imm)
        }
        Insn::Imm { kind, rd, rs1, imm } => {
            is_register(rd) && is_register(rs1) && is_operand(kind, imm)
        }
        Insn::Reg { rd, rs1, rs2, .. }
        | Insn::Sc { rd, rs1, rs2 }
        | Insn::Amo { rd, rs1, rs2, .. } => {
            is_register(rd) && is_register(rs1) && is_register(rs2)
        }
        Insn::Fence | Insn::Ecall | Insn::Ebreak => true,
        Insn::Lr { rd, rs1 } => is_register(rd) && is_register(rs1),
    }
}
