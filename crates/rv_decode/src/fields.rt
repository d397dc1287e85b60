//! The fields of an instruction word and its five immediates.

ghost use Rattle.std.specs.Prelude.{◌≡◌, ◌<◌, ◌*◌, ◌^◌};
ghost use Rattle.rv_decode.specs.Fields.{opcode, rd_of, funct3, rs1_of, rs2_of, funct7, funct5, sign_extended, imm_i, imm_s, imm_b, imm_u, imm_j};

pub(crate) fn opcode(word: u32) -> u32
    ensures { result ≡ opcode word }
{
    word & 0x7f
}

pub(crate) fn rd(word: u32) -> u8
    ensures { result ≡ rd_of word }
{
    (word >> 7 & 0x1f) as u8
}

pub(crate) fn funct3(word: u32) -> u32
    ensures { result ≡ funct3 word }
{
    word >> 12 & 0x7
}

pub(crate) fn rs1(word: u32) -> u8
    ensures { result ≡ rs1_of word }
{
    (word >> 15 & 0x1f) as u8
}

pub(crate) fn rs2(word: u32) -> u8
    ensures { result ≡ rs2_of word }
{
    (word >> 20 & 0x1f) as u8
}

pub(crate) fn funct7(word: u32) -> u32
    ensures { result ≡ funct7 word }
{
    word >> 25
}

pub(crate) fn funct5(word: u32) -> u32
    ensures { result ≡ funct5 word }
{
    word >> 27
}

/// The signed number of a field whose sign bit weighs `sign`.
fn sign_extended(sign: u32, field: u32) -> i32
    requires small { sign < 2 ^ 30 }
    requires within { field < 2 * sign }
    ensures { result ≡ sign_extended sign field }
{
    if field < sign {
        field as i32
    } else {
        field as i32 - 2 * sign as i32
    }
}

pub(crate) fn imm_i(word: u32) -> i32
    ensures { result ≡ imm_i word }
{
    sign_extended(1 << 11, word >> 20)
}

pub(crate) fn imm_s(word: u32) -> i32
    ensures { result ≡ imm_s word }
{
    sign_extended(1 << 11, (word >> 25) * 0x20 + (word >> 7 & 0x1f))
}

pub(crate) fn imm_b(word: u32) -> i32
    ensures { result ≡ imm_b word }
{
    let high = (word >> 31) * 0x1000 + (word >> 7 & 0x1) * 0x800;
    let low = (word >> 25 & 0x3f) * 0x20 + (word >> 8 & 0xf) * 2;
    sign_extended(1 << 12, high + low)
}

pub(crate) fn imm_u(word: u32) -> u32
    ensures { result ≡ imm_u word }
{
    word & 0xffff_f000
}

pub(crate) fn imm_j(word: u32) -> i32
    ensures { result ≡ imm_j word }
{
    let high = (word >> 31) * 0x10_0000 + (word >> 12 & 0xff) * 0x1000;
    let low = (word >> 20 & 0x1) * 0x800 + (word >> 21 & 0x3ff) * 2;
    sign_extended(1 << 20, high + low)
}
