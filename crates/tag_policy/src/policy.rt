//! A policy: the rules of up to four bits, with their masks.

ghost use Rattle.std.specs.Prelude.{◌≡◌, ◌≤◌, length, take};
ghost use Rattle.tag_policy.specs.Masks.{masks_of};

use crate::masks::Masks;
use crate::rules::{Rules, Version};
use rv_decode::Class;

/// How memory is tagged, and what governs each of up to four policy bits.
#[derive(Clone, Copy, Debug, PartialEq, Eq)]
pub struct Policy {
    version: Version,
    count: u8,
    rules: [Rules; 4],
    masks: Masks,
    ghost few: { count ≤ 4 },
    ghost packed: { masks ≡ masks_of (take count rules) },
}

impl Policy {
    ghost use Rattle.std.specs.Prelude.{◌≡◌, ◌<◌, ◌≤◌, ◌-◌, Ok, length, [], ◌∷◌, ◌++◌};
    ghost use Rattle.rv_decode.specs.Four.{four, bit_of};
    ghost use Rattle.tag_policy.specs.Rules.{rules_at, version_number, result_bit, load_bit, store_bit, check_bit, kind_of, source_tag};
    ghost use Rattle.tag_policy.specs.declared.rules.Check.{Check};
    ghost use Rattle.tag_policy.specs.Grammar.{policy_of};
    ghost use Rattle.tag_policy.specs.Policies.{policy_in, standard_policy, standard_text};

    /// A policy of this version that governs no bit.
    pub fn empty(version: Version) -> Policy
        ensures { policy_in result ≡ record { version = version; rules = [] } }
    {
        Policy {
            version,
            count: 0,
            rules: [Rules::NONE; 4],
            masks: Masks::of(&[]),
        }
    }

    /// The policy with these rules for one bit more.
    pub fn with(self, rules: Rules) -> Policy
        requires { length (policy_in self).rules < 4 }
        ensures { policy_in result ≡ record (policy_in self) { rules = (policy_in self).rules ++ rules ∷ [] } }
    {
        let mut all = self.rules;
        let place = self.count as usize;
        all[place] = rules;
        Policy {
            version: self.version,
            count: self.count + 1,
            rules: all,
            masks: Masks::of(&all[..place + 1]),
        }
    }

    /// The policy of input as a source, whose results have the tag of either operand, and which traps at a
    /// jump to it and at a call chosen by it.
    pub fn standard() -> Policy
        ensures rules { policy_in result ≡ standard_policy }
        ensures text { policy_of standard_text ≡ Ok (policy_in result) }
    {
        Policy::empty(Version::WordTags).with(Rules {
            source: true,
            check_jump: true,
            check_call_number: true,
            ..Rules::DEFAULT
        })
    }

    /// The number of its version, 1 or 2.
    pub fn version(&self) -> u8
        ensures { result ≡ version_number (policy_in self.now).version }
    {
        match self.version {
            Version::WordTags => 1,
            Version::ByteTags => 2,
        }
    }

    /// The rules of this bit.
    pub fn rules_of(&self, bit: u8) -> &Rules
        requires { bit < length (policy_in self.now).rules }
        ensures { result.now ≡ rules_at (policy_in self.now) bit }
    {
        &self.rules[bit as usize]
    }

    /// How memory is tagged.
    pub(crate) fn kept_version(&self) -> Version
        ensures { result ≡ (policy_in self.now).version }
    {
        self.version
    }

    /// How many bits it governs, from bit 0 on.
    pub fn count(&self) -> u8
        ensures { result ≡ length (policy_in self.now).rules }
    {
        self.count
    }

    /// The bits that input has.
    pub fn source(&self) -> u8
        ensures value { result ≡ source_tag (policy_in self.now) }
        ensures small { result < 16 }
    {
        self.masks.source
    }

    /// The tag of a result, of the tags of its two operands.
    pub fn result(&self, class: Class, a: u8, b: u8) -> u8
        requires a { a < 16 }
        requires b { b < 16 }
        ensures value { result ≡ four (λ i. result_bit (rules_at (policy_in self.now) i) class (bit_of a i) (bit_of b i)) }
        ensures small { result < 16 }
    {
        let modes = self.masks.modes(class);
        ((a | b) & modes.either) | (a & b & modes.both)
    }

    /// The tag of a loaded register, of those of the word and of the address.
    pub fn loaded(&self, word: u8, address: u8) -> u8
        requires word { word < 16 }
        requires address { address < 16 }
        ensures value { result ≡ four (λ i. load_bit (rules_at (policy_in self.now) i) (bit_of word i) (bit_of address i)) }
        ensures small { result < 16 }
    {
        (self.masks.load_data & word) | (self.masks.load_address & address)
    }

    /// The tag that a store brings, of those of the value and of the address.
    pub fn stored(&self, value: u8, address: u8) -> u8
        requires value { value < 16 }
        requires address { address < 16 }
        ensures value { result ≡ four (λ i. store_bit (rules_at (policy_in self.now) i) (bit_of value i) (bit_of address i)) }
        ensures small { result < 16 }
    {
        (self.masks.store_data & value) | (self.masks.store_address & address)
    }

    /// The bits for which a check of this kind fires on a tag.
    pub fn check(&self, kind: u8, tag: u8) -> u8
        requires kind { 1 ≤ kind × kind ≤ 7 }
        requires tag { tag < 16 }
        ensures value { (check : Check) → kind ≡ kind_of check → result ≡ four (λ i. check_bit (rules_at (policy_in self.now) i) check (bit_of tag i)) }
        ensures small { result < 16 }
    {
        self.masks.checks[kind as usize - 1] & tag
    }
}
