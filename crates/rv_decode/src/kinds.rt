//! The opcodes, and the funct3, funct7 and funct5 of each operation.
//!
//! The definitions read the numbers that have a name here. Each kind of operation has its rows twice,
//! in one order: by the functs and by the operation.

ghost use Rattle.std.specs.Prelude.{◌≡◌, ◌<◌, IfSome};
ghost use Rattle.rv_decode.specs.Kinds.{branch_funct3, load_funct3, store_funct3, imm_functs, reg_functs, amo_funct5};
ghost use Rattle.rv_decode.specs.Decoded.{branch_kind, load_kind, store_kind, imm_kind, reg_kind, amo_kind};

use crate::insn::{AmoKind, BranchKind, ImmKind, LoadKind, RegKind, StoreKind};

pub(crate) const LUI: u32 = 0b0110111;

pub(crate) const AUIPC: u32 = 0b0010111;

pub(crate) const JAL: u32 = 0b1101111;

pub(crate) const JALR: u32 = 0b1100111;

pub(crate) const BRANCH: u32 = 0b1100011;

pub(crate) const LOAD: u32 = 0b0000011;

pub(crate) const STORE: u32 = 0b0100011;

pub(crate) const OP_IMM: u32 = 0b0010011;

pub(crate) const OP: u32 = 0b0110011;

pub(crate) const MISC_MEM: u32 = 0b0001111;

pub(crate) const AMO: u32 = 0b0101111;

pub(crate) const SYSTEM: u32 = 0b1110011;

/// The whole words of the two instructions of the opcode `SYSTEM`.
pub(crate) const ECALL: u32 = 0x00000073;

pub(crate) const EBREAK: u32 = 0x00100073;

/// The funct3 of an atomic instruction on a word of four bytes.
pub(crate) const WIDTH_W: u32 = 0b010;

/// The funct5 of the load-reserved and of the store-conditional.
pub(crate) const LR: u32 = 0b00010;

pub(crate) const SC: u32 = 0b00011;

pub(crate) fn branch_kind(funct3: u32) -> Option<BranchKind>
    ensures { result ≡ branch_kind funct3 }
{
    match funct3 {
        0b000 => Some(BranchKind::Beq),
        0b001 => Some(BranchKind::Bne),
        0b100 => Some(BranchKind::Blt),
        0b101 => Some(BranchKind::Bge),
        0b110 => Some(BranchKind::Bltu),
        0b111 => Some(BranchKind::Bgeu),
        _ => None,
    }
}

pub(crate) fn branch_funct3(kind: BranchKind) -> u32
    ensures value { result ≡ branch_funct3 kind }
    ensures small { result < 8 }
{
    match kind {
        BranchKind::Beq => 0b000,
        BranchKind::Bne => 0b001,
        BranchKind::Blt => 0b100,
        BranchKind::Bge => 0b101,
        BranchKind::Bltu => 0b110,
        BranchKind::Bgeu => 0b111,
    }
}

pub(crate) fn load_kind(funct3: u32) -> Option<LoadKind>
    ensures { result ≡ load_kind funct3 }
{
    match funct3 {
        0b000 => Some(LoadKind::Lb),
        0b001 => Some(LoadKind::Lh),
        0b010 => Some(LoadKind::Lw),
        0b100 => Some(LoadKind::Lbu),
        0b101 => Some(LoadKind::Lhu),
        _ => None,
    }
}

pub(crate) fn load_funct3(kind: LoadKind) -> u32
    ensures value { result ≡ load_funct3 kind }
    ensures small { result < 8 }
{
    match kind {
        LoadKind::Lb => 0b000,
        LoadKind::Lh => 0b001,
        LoadKind::Lw => 0b010,
        LoadKind::Lbu => 0b100,
        LoadKind::Lhu => 0b101,
    }
}

pub(crate) fn store_kind(funct3: u32) -> Option<StoreKind>
    ensures { result ≡ store_kind funct3 }
{
    match funct3 {
        0b000 => Some(StoreKind::Sb),
        0b001 => Some(StoreKind::Sh),
        0b010 => Some(StoreKind::Sw),
        _ => None,
    }
}

pub(crate) fn store_funct3(kind: StoreKind) -> u32
    ensures value { result ≡ store_funct3 kind }
    ensures small { result < 8 }
{
    match kind {
        StoreKind::Sb => 0b000,
        StoreKind::Sh => 0b001,
        StoreKind::Sw => 0b010,
    }
}

/// The fields that tell an operation on a register and an immediate from the others.
///
/// Only a shift has a funct7; the others have bits of their immediate in its place.
#[derive(Clone, Copy)]
pub(crate) struct ImmFuncts {
    pub(crate) funct7: Option<u32>,
    pub(crate) funct3: u32,
}

pub(crate) fn imm_kind(funct7: u32, funct3: u32) -> Option<ImmKind>
    ensures { result ≡ imm_kind funct7 funct3 }
{
    match (funct7, funct3) {
        (_, 0b000) => Some(ImmKind::Addi),
        (_, 0b010) => Some(ImmKind::Slti),
        (_, 0b011) => Some(ImmKind::Sltiu),
        (_, 0b100) => Some(ImmKind::Xori),
        (_, 0b110) => Some(ImmKind::Ori),
        (_, 0b111) => Some(ImmKind::Andi),
        (0b0000000, 0b001) => Some(ImmKind::Slli),
        (0b0000000, 0b101) => Some(ImmKind::Srli),
        (0b0100000, 0b101) => Some(ImmKind::Srai),
        _ => None,
    }
}

pub(crate) fn imm_functs(kind: ImmKind) -> ImmFuncts
    ensures value { result ≡ imm_functs kind }
    ensures funct3 { result.funct3 < 8 }
    ensures funct7 { IfSome result.funct7 (λ n. n < 128) }
{
    let (funct7, funct3) = match kind {
        ImmKind::Addi => (None, 0b000),
        ImmKind::Slti => (None, 0b010),
        ImmKind::Sltiu => (None, 0b011),
        ImmKind::Xori => (None, 0b100),
        ImmKind::Ori => (None, 0b110),
        ImmKind::Andi => (None, 0b111),
        ImmKind::Slli => (Some(0b0000000), 0b001),
        ImmKind::Srli => (Some(0b0000000), 0b101),
        ImmKind::Srai => (Some(0b0100000), 0b101),
    };
    ImmFuncts { funct7, funct3 }
}

/// The fields that tell an operation on two registers from the others.
#[derive(Clone, Copy)]
pub(crate) struct RegFuncts {
    pub(crate) funct7: u32,
    pub(crate) funct3: u32,
}

pub(crate) fn reg_kind(funct7: u32, funct3: u32) -> Option<RegKind>
    ensures { result ≡ reg_kind funct7 funct3 }
{
    match (funct7, funct3) {
        (0b0000000, 0b000) => Some(RegKind::Add),
        (0b0100000, 0b000) => Some(RegKind::Sub),
        (0b0000000, 0b001) => Some(RegKind::Sll),
        (0b0000000, 0b010) => Some(RegKind::Slt),
        (0b0000000, 0b011) => Some(RegKind::Sltu),
        (0b0000000, 0b100) => Some(RegKind::Xor),
        (0b0000000, 0b101) => Some(RegKind::Srl),
        (0b0100000, 0b101) => Some(RegKind::Sra),
        (0b0000000, 0b110) => Some(RegKind::Or),
        (0b0000000, 0b111) => Some(RegKind::And),
        (0b0000001, 0b000) => Some(RegKind::Mul),
        (0b0000001, 0b001) => Some(RegKind::Mulh),
        (0b0000001, 0b010) => Some(RegKind::Mulhsu),
        (0b0000001, 0b011) => Some(RegKind::Mulhu),
        (0b0000001, 0b100) => Some(RegKind::Div),
        (0b0000001, 0b101) => Some(RegKind::Divu),
        (0b0000001, 0b110) => Some(RegKind::Rem),
        (0b0000001, 0b111) => Some(RegKind::Remu),
        _ => None,
    }
}

pub(crate) fn reg_functs(kind: RegKind) -> RegFuncts
    ensures value { result ≡ reg_functs kind }
    ensures funct3 { result.funct3 < 8 }
    ensures funct7 { result.funct7 < 128 }
{
    let (funct7, funct3) = match kind {
        RegKind::Add => (0b0000000, 0b000),
        RegKind::Sub => (0b0100000, 0b000),
        RegKind::Sll => (0b0000000, 0b001),
        RegKind::Slt => (0b0000000, 0b010),
        RegKind::Sltu => (0b0000000, 0b011),
        RegKind::Xor => (0b0000000, 0b100),
        RegKind::Srl => (0b0000000, 0b101),
        RegKind::Sra => (0b0100000, 0b101),
        RegKind::Or => (0b0000000, 0b110),
        RegKind::And => (0b0000000, 0b111),
        RegKind::Mul => (0b0000001, 0b000),
        RegKind::Mulh => (0b0000001, 0b001),
        RegKind::Mulhsu => (0b0000001, 0b010),
        RegKind::Mulhu => (0b0000001, 0b011),
        RegKind::Div => (0b0000001, 0b100),
        RegKind::Divu => (0b0000001, 0b101),
        RegKind::Rem => (0b0000001, 0b110),
        RegKind::Remu => (0b0000001, 0b111),
    };
    RegFuncts { funct7, funct3 }
}

pub(crate) fn amo_kind(funct5: u32) -> Option<AmoKind>
    ensures { result ≡ amo_kind funct5 }
{
    match funct5 {
        0b00000 => Some(AmoKind::Add),
        0b00001 => Some(AmoKind::Swap),
        0b00100 => Some(AmoKind::Xor),
        0b01000 => Some(AmoKind::Or),
        0b01100 => Some(AmoKind::And),
        0b10000 => Some(AmoKind::Min),
        0b10100 => Some(AmoKind::Max),
        0b11000 => Some(AmoKind::Minu),
        0b11100 => Some(AmoKind::Maxu),
        _ => None,
    }
}

pub(crate) fn amo_funct5(kind: AmoKind) -> u32
    ensures value { result ≡ amo_funct5 kind }
    ensures small { result < 32 }
{
    match kind {
        AmoKind::Add => 0b00000,
        AmoKind::Swap => 0b00001,
        AmoKind::Xor => 0b00100,
        AmoKind::Or => 0b01000,
        AmoKind::And => 0b01100,
        AmoKind::Min => 0b10000,
        AmoKind::Max => 0b10100,
        AmoKind::Minu => 0b11000,
        AmoKind::Maxu => 0b11100,
    }
}
