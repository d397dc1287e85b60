//! From a word to the instruction that it means, by format.

ghost use Rattle.std.specs.Prelude.{◌≡◌, ◌↔◌, Some, IfSome, IsNone};
ghost use Rattle.rv_decode.specs.declared.insn.Insn.{Insn};
ghost use Rattle.rv_decode.specs.Kinds.{imm_functs};
ghost use Rattle.rv_decode.specs.Rows.{Means};
ghost use Rattle.rv_decode.specs.Ranges.{Fits};
ghost use Rattle.rv_decode.specs.Decoded.{decoded, operand_of, decoded_jalr, decoded_branch, decoded_load, decoded_store, decoded_imm, decoded_reg, decoded_fence, decoded_lr, decoded_amo, decoded_word_atomic, decoded_atomic, decoded_system};

use crate::fields::{
    funct3, funct5, funct7, imm_b, imm_i, imm_j, imm_s, imm_u, opcode, rd, rs1, rs2,
};
use crate::insn::{ImmKind, Insn};
use crate::kinds::{
    AMO, AUIPC, BRANCH, EBREAK, ECALL, JAL, JALR, LOAD, LR, LUI, MISC_MEM, OP, OP_IMM, SC, STORE,
    SYSTEM, WIDTH_W, amo_kind, branch_kind, imm_functs, imm_kind, load_kind, reg_kind, store_kind,
};

/// The instruction that the word means: RISC-V Unprivileged ISA, RV32I 2.1, M 2.0 and A 2.1.
///
/// `None` where the word means none of these.
pub fn decode(word: u32) -> Option<Insn>
    ensures value { result ≡ decoded word }
    ensures rows { (insn : Insn) → (result ≡ Some insn) ↔ Means word insn }
    ensures nothing { IsNone result ↔ ((insn : Insn) → ¬ Means word insn) }
    ensures fits { IfSome result Fits }
{
    decode_by_opcode(word)
}

fn decode_by_opcode(word: u32) -> Option<Insn>
    ensures { result ≡ decoded word }
{
    match opcode(word) {
        LUI => Some(Insn::Lui {
            rd: rd(word),
            imm: imm_u(word),
        }),
        AUIPC => Some(Insn::Auipc {
            rd: rd(word),
            imm: imm_u(word),
        }),
        JAL => Some(Insn::Jal {
            rd: rd(word),
            imm: imm_j(word),
        }),
        JALR => decode_jalr(word),
        BRANCH => decode_branch(word),
        LOAD => decode_load(word),
        STORE => decode_store(word),
        OP_IMM => decode_imm(word),
        OP => decode_reg(word),
        MISC_MEM => decode_fence(word),
        AMO => decode_atomic(word),
        SYSTEM => decode_system(word),
        _ => None,
    }
}

fn decode_jalr(word: u32) -> Option<Insn>
    ensures { result ≡ decoded_jalr word }
{
    match funct3(word) {
        0b000 => Some(Insn::Jalr {
            rd: rd(word),
            rs1: rs1(word),
            imm: imm_i(word),
        }),
        _ => None,
    }
}

fn decode_branch(word: u32) -> Option<Insn>
    ensures { result ≡ decoded_branch word }
{
    let kind = branch_kind(funct3(word))?;
    Some(Insn::Branch {
        kind,
        rs1: rs1(word),
        rs2: rs2(word),
        imm: imm_b(word),
    })
}

fn decode_load(word: u32) -> Option<Insn>
    ensures { result ≡ decoded_load word }
{
    let kind = load_kind(funct3(word))?;
    Some(Insn::Load {
        kind,
        rd: rd(word),
        rs1: rs1(word),
        imm: imm_i(word),
    })
}

fn decode_store(word: u32) -> Option<Insn>
    ensures { result ≡ decoded_store word }
{
    let kind = store_kind(funct3(word))?;
    Some(Insn::Store {
        kind,
        rs1: rs1(word),
        rs2: rs2(word),
        imm: imm_s(word),
    })
}

/// The immediate of the operation, which for a shift is the count of bits in the place of rs2.
fn operand(word: u32, kind: ImmKind) -> i32
    ensures { result ≡ operand_of word (imm_functs kind).funct7 }
{
    match imm_functs(kind).funct7 {
        Some(_) => i32::from(rs2(word)),
        None => imm_i(word),
    }
}

fn decode_imm(word: u32) -> Option<Insn>
    ensures { result ≡ decoded_imm word }
{
    let kind = imm_kind(funct7(word), funct3(word))?;
    Some(Insn::Imm {
        kind,
        rd: rd(word),
        rs1: rs1(word),
        imm: operand(word, kind),
    })
}

fn decode_reg(word: u32) -> Option<Insn>
    ensures { result ≡ decoded_reg word }
{
    let kind = reg_kind(funct7(word), funct3(word))?;
    Some(Insn::Reg {
        kind,
        rd: rd(word),
        rs1: rs1(word),
        rs2: rs2(word),
    })
}

fn decode_fence(word: u32) -> Option<Insn>
    ensures { result ≡ decoded_fence word }
{
    match funct3(word) {
        0b000 => Some(Insn::Fence),
        _ => None,
    }
}

fn decode_atomic(word: u32) -> Option<Insn>
    ensures { result ≡ decoded_atomic word }
{
    match funct3(word) {
        WIDTH_W => decode_word_atomic(word),
        _ => None,
    }
}

fn decode_word_atomic(word: u32) -> Option<Insn>
    ensures { result ≡ decoded_word_atomic word }
{
    match funct5(word) {
        LR => decode_lr(word),
        SC => Some(Insn::Sc {
            rd: rd(word),
            rs1: rs1(word),
            rs2: rs2(word),
        }),
        _ => decode_amo(word),
    }
}

fn decode_lr(word: u32) -> Option<Insn>
    ensures { result ≡ decoded_lr word }
{
    match rs2(word) {
        0 => Some(Insn::Lr {
            rd: rd(word),
            rs1: rs1(word),
        }),
        _ => None,
    }
}

fn decode_amo(word: u32) -> Option<Insn>
    ensures { result ≡ decoded_amo word }
{
    let kind = amo_kind(funct5(word))?;
    Some(Insn::Amo {
        kind,
        rd: rd(word),
        rs1: rs1(word),
        rs2: rs2(word),
    })
}

fn decode_system(word: u32) -> Option<Insn>
    ensures { result ≡ decoded_system word }
{
    match word {
        ECALL => Some(Insn::Ecall),
        EBREAK => Some(Insn::Ebreak),
        _ => None,
    }
}
