//! The checks of a unit, of which the first that fires is its trap.

ghost use Rattle.std.specs.Prelude.{◌≡◌, ◌<◌, ◌==◌, [], ◌∷◌, All, Some, None, if◌then◌else◌};
ghost use Rattle.std.specs.List.{list_any};
ghost use Rattle.tag_policy.specs.Bits.{IsBits};
ghost use Rattle.tag_policy.specs.Rules.{kind_of};
ghost use Rattle.tag_policy.specs.Policies.{policy_in};
ghost use Rattle.tag_registers.specs.Rows.{Buffer, look, arguments};
ghost use Rattle.tag_registers.specs.Tags.{kept_trap, register_bit};
ghost use Rattle.tag_registers.specs.Looked.{looked_after};
ghost use Rattle.tag_registers.specs.Files.{tags_in};

use crate::file::TagFile;
use record_lane::Trap;
use tag_policy::{Check, Policy};

/// A unit: its number in its core, and the address of its instruction.
#[derive(Clone, Copy)]
pub struct Unit {
    pub step: u32,
    pub pc: u32,
}

impl TagFile {
    /// Makes a check on these registers.
    pub(crate) fn look(&mut self, policy: &Policy, unit: Unit, check: Check, registers: &[u8])
        requires { All (λ register. register < 32) registers.now }
        ensures { tags_in self.new ≡ looked_after (policy_in policy.now) (tags_in self.old) unit.step unit.pc (look check registers.now ∷ []) }
    {
        self.fire(
            unit,
            check,
            policy.check(check.kind(), self.joined_tags(registers)),
        );
    }

    /// Makes the check on the call buffer.
    pub(crate) fn judge(&mut self, policy: &Policy, unit: Unit)
        ensures { tags_in self.new ≡ looked_after (policy_in policy.now) (tags_in self.old) unit.step unit.pc (record { check = Check.Sink; at = Buffer } ∷ []) }
    {
        self.fire(
            unit,
            Check::Sink,
            policy.check(Check::Sink.kind(), self.buffer()),
        );
    }

    /// Keeps the trap of a check that these policy bits fire, if there are any.
    fn fire(&mut self, unit: Unit, check: Check, bits: u8)
        ensures { tags_in self.new ≡ record (tags_in self.old) { trap = kept_trap (tags_in self.old).trap (if bits == 0 then None else Some (record { step = unit.step; pc = unit.pc; kind = kind_of check; bits = bits })) } }
    {
        if bits != 0 {
            self.keep_trap(Trap {
                step: unit.step,
                pc: unit.pc,
                kind: check.kind(),
                bits,
            });
        }
    }

    /// The tag with a bit wherever one of these registers has it.
    fn joined_tags(&self, registers: &[u8]) -> u8
        requires { All (λ register. register < 32) registers.now }
        ensures { IsBits result (λ i. list_any (λ r. register_bit (tags_in self.now).registers r i) registers.now) }
    {
        let mut joined = 0;
        for register in registers {
            joined |= self.tag(*register);
        }
        joined
    }
}

/// The registers that hold the arguments of a call.
pub(crate) fn call_arguments(call: u32) -> &'static [u8]
    ensures value { result.now ≡ arguments call }
    ensures in_range { All (λ register. register < 32) result.now }
{
    match call {
        63 | 64 => &[10, 11, 12],
        93 | 94 | 214 => &[10],
        _ => &[],
    }
}
