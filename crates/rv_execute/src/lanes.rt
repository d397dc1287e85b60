//! The bytes of a word that a load takes and a store writes.

ghost use Rattle.std.specs.Prelude.{◌≡◌, ◌<◌, ◌/◌, ◌*◌, ◌%◌, ◌^◌};
ghost use Rattle.rv_execute.specs.Payloads.{loaded, stored};

use crate::op::Op;
use rv_decode::{LoadKind, StoreKind};

/// What a load at this offset in its word gives, of the word found.
pub fn load(kind: LoadKind, offset: u32, found: u32) -> u32
    requires { offset < 4 }
    ensures { result ≡ loaded kind offset found }
{
    let shifted = shifted_down(found, offset);
    match kind {
        LoadKind::Lb => extend_byte(shifted),
        LoadKind::Lh => extend_half(shifted),
        LoadKind::Lw => found,
        LoadKind::Lbu => shifted % 256,
        LoadKind::Lhu => shifted % 65536,
    }
}

fn extend_byte(word: u32) -> u32
    ensures { result ≡ loaded LoadKind.Lb 0 word }
{
    let byte = (word % 256) as u8;
    i32::from(byte.cast_signed()).cast_unsigned()
}

fn extend_half(word: u32) -> u32
    ensures { result ≡ loaded LoadKind.Lh 0 word }
{
    let half = (word % 65536) as u16;
    i32::from(half.cast_signed()).cast_unsigned()
}

fn shifted_down(word: u32, offset: u32) -> u32
    requires { offset < 4 }
    ensures { result ≡ word / 256 ^ offset }
{
    match offset {
        0 => word,
        1 => word >> 8,
        2 => word >> 16,
        _ => word >> 24,
    }
}

/// What a store of a byte at this offset in its word writes.
pub fn store_byte(offset: u32, value: u32) -> Op
    requires { offset < 4 }
    ensures { result ≡ stored StoreKind.Sb offset value }
{
    Op::Write {
        mask: byte_up(255, offset),
        value: byte_up(value % 256, offset),
    }
}

/// What a store of two bytes at this offset in its word writes.
pub fn store_half(offset: u32, value: u32) -> Op
    requires { offset < 3 }
    ensures { result ≡ stored StoreKind.Sh offset value }
{
    Op::Write {
        mask: half_up(65535, offset),
        value: half_up(value % 65536, offset),
    }
}

fn byte_up(byte: u32, offset: u32) -> u32
    requires byte { byte < 256 }
    requires offset { offset < 4 }
    ensures { result ≡ byte * 256 ^ offset }
{
    match offset {
        0 => byte,
        1 => byte << 8,
        2 => byte << 16,
        _ => byte << 24,
    }
}

fn half_up(half: u32, offset: u32) -> u32
    requires half { half < 65536 }
    requires offset { offset < 3 }
    ensures { result ≡ half * 256 ^ offset }
{
    match offset {
        0 => half,
        1 => half << 8,
        _ => half << 16,
    }
}
