//! The bytes of its word that an instruction's access touches.

ghost use Rattle.std.specs.Prelude.{◌≡◌, ◌<◌};
ghost use Rattle.rv_decode.specs.Ranges.{Fits};
ghost use Rattle.rv_execute.specs.Harts.{state_of};
ghost use Rattle.rv_execute.specs.Payloads.{load_size, store_size};
ghost use Rattle.rv_execute.specs.Touched.{bytes_from, bytes_touched};

use crate::hart::Hart;
use rv_decode::{Insn, LoadKind, StoreKind};

/// The bytes of its word that the access of an instruction touches: bit i is set where byte i, from
/// the lowest on, is touched.
#[tactic(auto, unfolding(crate::specs::Touched::bytes_touched))]
pub fn bytes_touched(hart: &Hart, insn: Insn) -> u8
    requires { Fits insn }
    ensures touched { result ≡ bytes_touched (state_of hart.now) insn }
    ensures small { result < 16 }
{
    match insn {
        Insn::Load { kind, rs1, imm, .. } => loaded_bytes(kind, hart.address(rs1, imm) % 4),
        Insn::Store { kind, rs1, imm, .. } => stored_bytes(kind, hart.address(rs1, imm) % 4),
        _ => 15,
    }
}

fn loaded_bytes(kind: LoadKind, offset: u32) -> u8
    requires { offset < 4 }
    ensures touched { result ≡ bytes_from offset (load_size kind) }
    ensures small { result < 16 }
{
    match kind {
        LoadKind::Lb | LoadKind::Lbu => one_byte(offset),
        LoadKind::Lh | LoadKind::Lhu => two_bytes(offset),
        LoadKind::Lw => four_bytes(offset),
    }
}

fn stored_bytes(kind: StoreKind, offset: u32) -> u8
    requires { offset < 4 }
    ensures touched { result ≡ bytes_from offset (store_size kind) }
    ensures small { result < 16 }
{
    match kind {
        StoreKind::Sb => one_byte(offset),
        StoreKind::Sh => two_bytes(offset),
        StoreKind::Sw => four_bytes(offset),
    }
}

fn one_byte(offset: u32) -> u8
    requires { offset < 4 }
    ensures touched { result ≡ bytes_from offset 1 }
    ensures small { result < 16 }
{
    match offset {
        0 => 1,
        1 => 2,
        2 => 4,
        _ => 8,
    }
}

fn two_bytes(offset: u32) -> u8
    requires { offset < 4 }
    ensures touched { result ≡ bytes_from offset 2 }
    ensures small { result < 16 }
{
    match offset {
        0 => 3,
        1 => 6,
        2 => 12,
        _ => 8,
    }
}

fn four_bytes(offset: u32) -> u8
    requires { offset < 4 }
    ensures touched { result ≡ bytes_from offset 4 }
    ensures small { result < 16 }
{
    match offset {
        0 => 15,
        1 => 14,
        2 => 12,
        _ => 8,
    }
}
