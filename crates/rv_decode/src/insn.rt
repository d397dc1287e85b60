//! The instructions of RV32I, M and A as values.

/// The condition of a conditional branch.
#[derive(Clone, Copy, Debug, PartialEq, Eq)]
pub enum BranchKind {
    Beq,
    Bne,
    Blt,
    Bge,
    Bltu,
    Bgeu,
}

/// The width of a load, and whether it extends the sign.
#[derive(Clone, Copy, Debug, PartialEq, Eq)]
pub enum LoadKind {
    Lb,
    Lh,
    Lw,
    Lbu,
    Lhu,
}

/// The width of a store.
#[derive(Clone, Copy, Debug, PartialEq, Eq)]
pub enum StoreKind {
    Sb,
    Sh,
    Sw,
}

/// An operation on a register and an immediate.
#[derive(Clone, Copy, Debug, PartialEq, Eq)]
pub enum ImmKind {
    Addi,
    Slti,
    Sltiu,
    Xori,
    Ori,
    Andi,
    Slli,
    Srli,
    Srai,
}

impl ImmKind {
    ghost use Rattle.std.specs.Prelude.{◌≡◌};
    ghost use Rattle.rv_decode.specs.Classes.{class_of_imm};

    /// The class of the operation.
    pub fn class(self) -> Class
        ensures { result ≡ class_of_imm self }
    {
        match self {
            ImmKind::Addi => Class::Arith,
            ImmKind::Xori | ImmKind::Ori | ImmKind::Andi => Class::Logic,
            ImmKind::Slli | ImmKind::Srli | ImmKind::Srai => Class::Shift,
            ImmKind::Slti | ImmKind::Sltiu => Class::Compare,
        }
    }
}

/// An operation on two registers.
#[derive(Clone, Copy, Debug, PartialEq, Eq)]
pub enum RegKind {
    Add,
    Sub,
    Sll,
    Slt,
    Sltu,
    Xor,
    Srl,
    Sra,
    Or,
    And,
    Mul,
    Mulh,
    Mulhsu,
    Mulhu,
    Div,
    Divu,
    Rem,
    Remu,
}

impl RegKind {
    ghost use Rattle.std.specs.Prelude.{◌≡◌};
    ghost use Rattle.rv_decode.specs.Classes.{class_of_reg};

    /// The class of the operation.
    pub fn class(self) -> Class
        ensures { result ≡ class_of_reg self }
    {
        match self {
            RegKind::Add | RegKind::Sub => Class::Arith,
            RegKind::Xor | RegKind::Or | RegKind::And => Class::Logic,
            RegKind::Sll | RegKind::Srl | RegKind::Sra => Class::Shift,
            RegKind::Slt | RegKind::Sltu => Class::Compare,
            RegKind::Mul
            | RegKind::Mulh
            | RegKind::Mulhsu
            | RegKind::Mulhu
            | RegKind::Div
            | RegKind::Divu
            | RegKind::Rem
            | RegKind::Remu => Class::MulDiv,
        }
    }
}

/// An atomic memory operation.
#[derive(Clone, Copy, Debug, PartialEq, Eq)]
pub enum AmoKind {
    Add,
    Swap,
    Xor,
    Or,
    And,
    Min,
    Max,
    Minu,
    Maxu,
}

/// What sort of computation an operation is.
#[derive(Clone, Copy, Debug, PartialEq, Eq)]
pub enum Class {
    Arith,
    Logic,
    Shift,
    Compare,
    MulDiv,
}

/// An instruction of RV32I, M or A.
///
/// A register is its number. A signed immediate is the number that its field stands for, in bytes
/// where it is an offset; that of `Lui` and `Auipc` is the whole value, with its twelve low zeros.
/// That of a shift is the count of bits. `aq`, `rl` and the fields of `FENCE` are not kept.
#[derive(Clone, Copy, Debug, PartialEq, Eq)]
pub enum Insn {
    Lui {
        rd: u8,
        imm: u32,
    },
    Auipc {
        rd: u8,
        imm: u32,
    },
    Jal {
        rd: u8,
        imm: i32,
    },
    Jalr {
        rd: u8,
        rs1: u8,
        imm: i32,
    },
    Branch {
        kind: BranchKind,
        rs1: u8,
        rs2: u8,
        imm: i32,
    },
    Load {
        kind: LoadKind,
        rd: u8,
        rs1: u8,
        imm: i32,
    },
    Store {
        kind: StoreKind,
        rs1: u8,
        rs2: u8,
        imm: i32,
    },
    Imm {
        kind: ImmKind,
        rd: u8,
        rs1: u8,
        imm: i32,
    },
    Reg {
        kind: RegKind,
        rd: u8,
        rs1: u8,
        rs2: u8,
    },
    Fence,
    Ecall,
    Ebreak,
    Lr {
        rd: u8,
        rs1: u8,
    },
    Sc {
        rd: u8,
        rs1: u8,
        rs2: u8,
    },
    Amo {
        kind: AmoKind,
        rd: u8,
        rs1: u8,
        rs2: u8,
    },
}
