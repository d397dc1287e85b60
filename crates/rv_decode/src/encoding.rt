//! From an instruction to a word that means it, by format.

ghost use Rattle.std.specs.Prelude.{◌≡◌, ◌<◌, ◌+◌, ◌*◌, ◌^◌, ◌%◌, pos, ◌+ℤ◌, ◌≤ℤ◌, ◌<ℤ◌, Some};
ghost use Rattle.rv_decode.specs.Fields.{opcode as opcode_of, rd_of, funct3 as funct3_of, rs1_of, rs2_of, funct7 as funct7_of, funct5 as funct5_of, inst, sign_extended, imm_i, imm_s, imm_b, imm_u, imm_j};
ghost use Rattle.rv_decode.specs.Kinds.{imm_functs};
ghost use Rattle.rv_decode.specs.Ranges.{Fits, IsRegister, IsUpper, IsTwelveBits, IsBranchOffset, IsJumpOffset, IsOperand, IsEven};
ghost use Rattle.rv_decode.specs.Rows.{Means};
ghost use Rattle.rv_decode.specs.Decoded.{decoded};
ghost use Rattle.rv_decode.specs.FreeBits.{HasPlainBits};

use crate::insn::{ImmKind, Insn};
use crate::kinds::{
    AMO, AUIPC, BRANCH, EBREAK, ECALL, ImmFuncts, JAL, JALR, LOAD, LR, LUI, OP, OP_IMM, RegFuncts,
    SC, STORE, WIDTH_W, amo_funct5, branch_funct3, imm_functs, load_funct3, reg_functs,
    store_funct3,
};

/// The word `fence iorw, iorw`.
const FENCE: u32 = 0x0ff0_000f;

/// A word that means the instruction: RISC-V Unprivileged ISA, RV32I 2.1, M 2.0 and A 2.1.
///
/// `FENCE` is written with all predecessors and successors, and `aq` and `rl` are written as 0.
pub fn encode(insn: Insn) -> u32
    requires { Fits insn }
    ensures means { Means result insn }
    ensures decodes { decoded result ≡ Some insn }
    ensures plain { HasPlainBits result insn }
{
    encode_by_format(insn)
}

fn encode_by_format(insn: Insn) -> u32
    requires { Fits insn }
    ensures means { Means result insn }
    ensures plain { HasPlainBits result insn }
{
    match insn {
        Insn::Lui { rd, imm } => u_word(LUI, rd, imm),
        Insn::Auipc { rd, imm } => u_word(AUIPC, rd, imm),
        Insn::Jal { rd, imm } => j_word(rd, imm),
        Insn::Jalr { rd, rs1, imm } => i_word(JALR, 0b000, rd, rs1, imm),
        Insn::Branch {
            kind,
            rs1,
            rs2,
            imm,
        } => b_word(branch_funct3(kind), rs1, rs2, imm),
        Insn::Load { kind, rd, rs1, imm } => i_word(LOAD, load_funct3(kind), rd, rs1, imm),
        Insn::Store {
            kind,
            rs1,
            rs2,
            imm,
        } => s_word(store_funct3(kind), rs1, rs2, imm),
        Insn::Imm { kind, rd, rs1, imm } => imm_word(kind, rd, rs1, imm),
        Insn::Reg { kind, rd, rs1, rs2 } => {
            let RegFuncts { funct7, funct3 } = reg_functs(kind);
            r_word(OP, funct3, funct7, rd, rs1, rs2)
        }
        Insn::Fence => FENCE,
        Insn::Ecall => ECALL,
        Insn::Ebreak => EBREAK,
        Insn::Lr { rd, rs1 } => atomic_word(LR, rd, rs1, 0),
        Insn::Sc { rd, rs1, rs2 } => atomic_word(SC, rd, rs1, rs2),
        Insn::Amo { kind, rd, rs1, rs2 } => atomic_word(amo_funct5(kind), rd, rs1, rs2),
    }
}

/// An operation on a register and an immediate: a shift has a funct7 and a count of bits.
fn imm_word(kind: ImmKind, rd: u8, rs1: u8, imm: i32) -> u32
    requires first { IsRegister rd }
    requires second { IsRegister rs1 }
    requires operand { IsOperand (imm_functs kind).funct7 imm }
    ensures { Means result (Insn.Imm kind rd rs1 imm) }
{
    let ImmFuncts { funct7, funct3 } = imm_functs(kind);
    match funct7 {
        Some(funct7) => r_word(OP_IMM, funct3, funct7, rd, rs1, imm as u8),
        None => i_word(OP_IMM, funct3, rd, rs1, imm),
    }
}

/// An atomic instruction on a word of four bytes, with neither aq nor rl.
fn atomic_word(funct5: u32, rd: u8, rs1: u8, rs2: u8) -> u32
    requires function { funct5 < 32 }
    requires first { IsRegister rd }
    requires second { IsRegister rs1 }
    requires third { IsRegister rs2 }
    ensures op { opcode_of result ≡ AMO }
    ensures width { funct3_of result ≡ WIDTH_W }
    ensures function { funct5_of result ≡ funct5 }
    ensures rd { rd_of result ≡ rd }
    ensures rs1 { rs1_of result ≡ rs1 }
    ensures rs2 { rs2_of result ≡ rs2 }
    ensures plain { inst result 26 25 ≡ 0 }
{
    r_word(AMO, WIDTH_W, funct5 << 2, rd, rs1, rs2)
}

fn r_word(opcode: u32, funct3: u32, funct7: u32, rd: u8, rs1: u8, rs2: u8) -> u32
    requires op { opcode < 128 }
    requires width { funct3 < 8 }
    requires function { funct7 < 128 }
    requires first { IsRegister rd }
    requires second { IsRegister rs1 }
    requires third { IsRegister rs2 }
    ensures op { opcode_of result ≡ opcode }
    ensures width { funct3_of result ≡ funct3 }
    ensures function { funct7_of result ≡ funct7 }
    ensures rd { rd_of result ≡ rd }
    ensures rs1 { rs1_of result ≡ rs1 }
    ensures rs2 { rs2_of result ≡ rs2 }
{
    let (rd, rs1, rs2) = (u32::from(rd), u32::from(rs1), u32::from(rs2));
    word_of_fields(opcode, rd, funct3, rs1, rs2, funct7)
}

fn i_word(opcode: u32, funct3: u32, rd: u8, rs1: u8, imm: i32) -> u32
    requires op { opcode < 128 }
    requires width { funct3 < 8 }
    requires first { IsRegister rd }
    requires second { IsRegister rs1 }
    requires immediate { IsTwelveBits imm }
    ensures op { opcode_of result ≡ opcode }
    ensures width { funct3_of result ≡ funct3 }
    ensures rd { rd_of result ≡ rd }
    ensures rs1 { rs1_of result ≡ rs1 }
    ensures immediate { imm_i result ≡ imm }
{
    let field = field_of(1 << 11, imm);
    word_of_fields(
        opcode,
        u32::from(rd),
        funct3,
        u32::from(rs1),
        field & 0x1f,
        field >> 5,
    )
}

fn s_word(funct3: u32, rs1: u8, rs2: u8, imm: i32) -> u32
    requires width { funct3 < 8 }
    requires first { IsRegister rs1 }
    requires second { IsRegister rs2 }
    requires immediate { IsTwelveBits imm }
    ensures op { opcode_of result ≡ STORE }
    ensures width { funct3_of result ≡ funct3 }
    ensures rs1 { rs1_of result ≡ rs1 }
    ensures rs2 { rs2_of result ≡ rs2 }
    ensures immediate { imm_s result ≡ imm }
{
    let field = field_of(1 << 11, imm);
    word_of_fields(
        STORE,
        field & 0x1f,
        funct3,
        u32::from(rs1),
        u32::from(rs2),
        field >> 5,
    )
}

fn b_word(funct3: u32, rs1: u8, rs2: u8, imm: i32) -> u32
    requires width { funct3 < 8 }
    requires first { IsRegister rs1 }
    requires second { IsRegister rs2 }
    requires immediate { IsBranchOffset imm }
    ensures op { opcode_of result ≡ BRANCH }
    ensures width { funct3_of result ≡ funct3 }
    ensures rs1 { rs1_of result ≡ rs1 }
    ensures rs2 { rs2_of result ≡ rs2 }
    ensures immediate { imm_b result ≡ imm }
{
    let field = field_of(1 << 12, imm);
    let low = (field >> 1 & 0xf) * 2 + (field >> 11 & 0x1);
    let high = (field >> 12) * 0x40 + (field >> 5 & 0x3f);
    word_of_fields(BRANCH, low, funct3, u32::from(rs1), u32::from(rs2), high)
}

fn u_word(opcode: u32, rd: u8, imm: u32) -> u32
    requires op { opcode < 128 }
    requires first { IsRegister rd }
    requires immediate { IsUpper imm }
    ensures op { opcode_of result ≡ opcode }
    ensures rd { rd_of result ≡ rd }
    ensures immediate { imm_u result ≡ imm }
{
    opcode + (u32::from(rd) << 7) + imm
}

fn j_word(rd: u8, imm: i32) -> u32
    requires first { IsRegister rd }
    requires immediate { IsJumpOffset imm }
    ensures op { opcode_of result ≡ JAL }
    ensures rd { rd_of result ≡ rd }
    ensures immediate { imm_j result ≡ imm }
{
    let field = field_of(1 << 20, imm);
    let low = (field >> 12 & 0xff) + (field >> 11 & 0x1) * 0x100;
    let high = (field >> 1 & 0x3ff) + (field >> 20) * 0x400;
    JAL + (u32::from(rd) << 7) + low * 0x1000 + high * 0x20_0000
}

/// The word of these fields.
fn word_of_fields(opcode: u32, rd: u32, funct3: u32, rs1: u32, rs2: u32, funct7: u32) -> u32
    requires op { opcode < 128 }
    requires width { funct3 < 8 }
    requires function { funct7 < 128 }
    requires first { rd < 32 }
    requires second { rs1 < 32 }
    requires third { rs2 < 32 }
    ensures { result ≡ opcode + 2 ^ 7 * rd + 2 ^ 12 * funct3 + 2 ^ 15 * rs1 + 2 ^ 20 * rs2
        + 2 ^ 25 * funct7 }
{
    opcode + (rd << 7) + (funct3 << 12) + (rs1 << 15) + (rs2 << 20) + (funct7 << 25)
}

/// The field whose sign bit weighs `sign` and which stands for the number.
fn field_of(sign: u32, imm: i32) -> u32
    requires small { sign < 2 ^ 30 }
    requires low { pos 0 ≤ℤ (imm +ℤ pos sign) }
    requires high { imm <ℤ pos sign }
    ensures value { sign_extended sign result ≡ imm }
    ensures within { result < 2 * sign }
    ensures even { IsEven imm → result % 2 ≡ 0 }
{
    if imm < 0 {
        (imm + 2 * sign as i32) as u32
    } else {
        imm as u32
    }
}
