//! What an access makes of the word that it finds.

ghost use Rattle.std.specs.Prelude.{◌≡◌};
ghost use Rattle.rv_execute.specs.Payloads.{changed, combined, masked};

use crate::op::Op;
use rv_decode::AmoKind;

/// The word after the access with this number, which found `payload`.
pub fn apply(op: Op, number: u32, payload: u32) -> u32
    ensures { result ≡ changed op number payload }
{
    match op {
        Op::Read => payload,
        Op::Write { mask, value } => (payload & !mask) | (value & mask),
        Op::Amo { kind, value } => combine(kind, payload, value),
        Op::Sc {
            number: asked,
            value,
        } => { if number == asked { value } else { payload } }
        Op::TakeInput { want, total } => payload + want.min(total.saturating_sub(payload)),
        Op::Place { len } => payload.wrapping_add(len),
        Op::Break { want, low, high } => {
            if low <= want && want <= high {
                want
            } else {
                payload
            }
        }
    }
}

/// What an atomic memory operation stores, of the old word and its register operand.
fn combine(kind: AmoKind, old: u32, value: u32) -> u32
    ensures { result ≡ combined kind old value }
{
    match kind {
        AmoKind::Add => old.wrapping_add(value),
        AmoKind::Swap => value,
        AmoKind::Xor => old ^ value,
        AmoKind::Or => old | value,
        AmoKind::And => old & value,
        AmoKind::Min => {
            if value.cast_signed() < old.cast_signed() {
                value
            } else {
                old
            }
        }
        AmoKind::Max => {
            if old.cast_signed() < value.cast_signed() {
                value
            } else {
                old
            }
        }
        AmoKind::Minu => old.min(value),
        AmoKind::Maxu => old.max(value),
    }
}
