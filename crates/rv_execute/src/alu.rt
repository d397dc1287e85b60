//! The results of the integer instructions.

ghost use Rattle.std.specs.Prelude.{◌≡◌, ℕ, ◌*◌, ◌/◌, ◌<◌};
ghost use Rattle.rv_execute.specs.Words.{signed, upper_half};
ghost use Rattle.rv_execute.specs.Results.{result_of, register_form, is_taken, quotient, remainder, unsigned_quotient, unsigned_remainder};

use rv_decode::{BranchKind, ImmKind, RegKind};

/// The result of an operation on two registers that hold these words.
pub fn compute(kind: RegKind, a: u32, b: u32) -> u32
    ensures { result ≡ result_of kind a b }
{
    match kind {
        RegKind::Add => a.wrapping_add(b),
        RegKind::Sub => a.wrapping_sub(b),
        RegKind::Sll => a.wrapping_shl(b),
        RegKind::Slt => u32::from(a.cast_signed() < b.cast_signed()),
        RegKind::Sltu => u32::from(a < b),
        RegKind::Xor => a ^ b,
        RegKind::Srl => a.wrapping_shr(b),
        RegKind::Sra => a.cast_signed().wrapping_shr(b).cast_unsigned(),
        RegKind::Or => a | b,
        RegKind::And => a & b,
        RegKind::Mul => a.wrapping_mul(b),
        RegKind::Mulh => multiply_signed(a, b),
        RegKind::Mulhsu => multiply_mixed(a, b),
        RegKind::Mulhu => multiply_unsigned(a, b),
        RegKind::Div => divide(a, b),
        RegKind::Divu => divide_unsigned(a, b),
        RegKind::Rem => remain(a, b),
        RegKind::Remu => remain_unsigned(a, b),
    }
}

/// The operation on two registers of which an operation with an immediate is the form.
pub fn form_of(kind: ImmKind) -> RegKind
    ensures { result ≡ register_form kind }
{
    match kind {
        ImmKind::Addi => RegKind::Add,
        ImmKind::Slti => RegKind::Slt,
        ImmKind::Sltiu => RegKind::Sltu,
        ImmKind::Xori => RegKind::Xor,
        ImmKind::Ori => RegKind::Or,
        ImmKind::Andi => RegKind::And,
        ImmKind::Slli => RegKind::Sll,
        ImmKind::Srli => RegKind::Srl,
        ImmKind::Srai => RegKind::Sra,
    }
}

/// Whether a branch on two registers that hold these words is taken.
pub fn branches(kind: BranchKind, a: u32, b: u32) -> bool
    ensures { result ≡ is_taken kind a b }
{
    match kind {
        BranchKind::Beq => a == b,
        BranchKind::Bne => a != b,
        BranchKind::Blt => a.cast_signed() < b.cast_signed(),
        BranchKind::Bge => a.cast_signed() >= b.cast_signed(),
        BranchKind::Bltu => a < b,
        BranchKind::Bgeu => a >= b,
    }
}

fn high_word(product: i64) -> u32
    ensures { result ≡ upper_half product }
{
    ((product >> 32) as i32).cast_unsigned()
}

/// The signed reading of a word.
fn widen(word: u32) -> i64
    ensures { result ≡ signed word }
{
    i64::from(word.cast_signed())
}

fn multiply_signed(a: u32, b: u32) -> u32
    ensures { result ≡ result_of RegKind.Mulh a b }
{
    high_word(widen(a) * widen(b))
}

fn multiply_mixed(a: u32, b: u32) -> u32
    ensures { result ≡ result_of RegKind.Mulhsu a b }
{
    high_word(widen(a) * i64::from(b))
}

fn multiply_unsigned(a: u32, b: u32) -> u32
    ensures { result ≡ a * b / 4294967296 }
{
    ((u64::from(a) * u64::from(b)) >> 32) as u32
}

fn divide(a: u32, b: u32) -> u32
    ensures { result ≡ quotient a b }
{
    if b == 0 {
        u32::MAX
    } else {
        a.cast_signed()
            .wrapping_div(b.cast_signed())
            .cast_unsigned()
    }
}

fn divide_unsigned(a: u32, b: u32) -> u32
    ensures { result ≡ unsigned_quotient a b }
{
    if b == 0 { u32::MAX } else { a / b }
}

fn remain(a: u32, b: u32) -> u32
    ensures { result ≡ remainder a b }
{
    if b == 0 {
        a
    } else {
        a.cast_signed()
            .wrapping_rem(b.cast_signed())
            .cast_unsigned()
    }
}

fn remain_unsigned(a: u32, b: u32) -> u32
    ensures { result ≡ unsigned_remainder a b }
{
    if b == 0 { a } else { a % b }
}
