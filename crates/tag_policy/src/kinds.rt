//! Sets of checks.

ghost use Rattle.std.specs.Prelude.{⊤, ◌≡◌, ◌<◌, length, [], ◌∷◌, codes};
ghost use Rattle.tag_policy.specs.declared.rules.Check.{Check};
ghost use Rattle.tag_policy.specs.Rules.{has_check, rules_at};
ghost use Rattle.tag_policy.specs.Kinds.{has_kind};
ghost use Rattle.tag_policy.specs.Policies.{policy_in};

use crate::policy::Policy;
use crate::rules::Rules;
use bitflags::{Flag, Flags, bitflag_items};

/// A set of the seven checks: check number k is bit k - 1.
#[derive(Clone, Copy, PartialEq, Eq, Debug)]
pub struct Kinds(u8);

bitflag_items! {
    impl Kinds: u8 {
        const JUMP = 1;
        const LOAD_ADDRESS = 2;
        const STORE_ADDRESS = 4;
        const BRANCH_CONDITION = 8;
        const CALL_NUMBER = 16;
        const CALL_ARGUMENT = 32;
        const SINK = 64;
    }
}

impl Flags for Kinds {
    type Bits = u8;

    ghost exact = { ⊤ };

    ghost table = { (codes "JUMP", 1) ∷ (codes "LOAD_ADDRESS", 2) ∷ (codes "STORE_ADDRESS", 4) ∷ (codes "BRANCH_CONDITION", 8) ∷ (codes "CALL_NUMBER", 16) ∷ (codes "CALL_ARGUMENT", 32) ∷ (codes "SINK", 64) ∷ [] };

    ghost set_of = { λ kinds. kinds.0 };

    fn flags<'a>() -> &'a [Flag<Kinds>] {
        Kinds::FLAGS
    }

    fn bits(&self) -> u8 {
        self.0
    }

    fn from_bits_retain(bits: u8) -> Kinds {
        Kinds(bits)
    }
}

impl Policy {
    /// The checks of this bit.
    pub fn checks(&self, bit: u8) -> Kinds
        requires { bit < length (policy_in self.now).rules }
        ensures checks { (check : Check) → has_kind result check ≡ has_check (rules_at (policy_in self.now) bit) check }
        ensures known { result.0 < 128 }
    {
        kinds_of(self.rules_of(bit))
    }
}

fn kinds_of(rules: &Rules) -> Kinds
    ensures checks { (check : Check) → has_kind result check ≡ has_check rules.now check }
    ensures known { result.0 < 128 }
{
    let mut kinds = Kinds::empty();
    kinds.set(Kinds::JUMP, rules.check_jump);
    kinds.set(Kinds::LOAD_ADDRESS, rules.check_load_address);
    kinds.set(Kinds::STORE_ADDRESS, rules.check_store_address);
    kinds.set(Kinds::BRANCH_CONDITION, rules.check_branch);
    kinds.set(Kinds::CALL_NUMBER, rules.check_call_number);
    kinds.set(Kinds::CALL_ARGUMENT, rules.check_call_argument);
    kinds.set(Kinds::SINK, rules.check_sink);
    kinds
}
