//! The rules of up to four bits, packed: one mask for each yes or no that they answer.

ghost use Rattle.std.specs.Prelude.{◌≡◌, ◌<◌, ◌≤◌, length, slice_index_or};
ghost use Rattle.rv_decode.specs.Four.{bit_value};
ghost use Rattle.tag_policy.specs.Rules.{no_rules};
ghost use Rattle.tag_policy.specs.Masks.{has_flag, is_or, is_and, mask_of, masks_of, modes_of, modes_in};

use crate::rules::{Check, Mode, Rules};
use rv_decode::Class;

/// What the rules of a bit answer with yes or no.
#[derive(Clone, Copy)]
pub enum Flag {
    Source,
    /// Whether a result of the class has the tag of either operand.
    Either(Class),
    /// Whether it has that of both.
    Both(Class),
    LoadData,
    LoadByAddress,
    StoreData,
    StoreByAddress,
    Checks(Check),
}

/// The bits for which results of a class have the tag of either operand, and of both.
#[derive(Clone, Copy, Debug, PartialEq, Eq)]
pub struct Modes {
    pub either: u8,
    pub both: u8,
}

/// One mask for each flag: bit i is that of policy bit i.
#[derive(Clone, Copy, Debug, PartialEq, Eq)]
pub struct Masks {
    pub source: u8,
    pub arith: Modes,
    pub logic: Modes,
    pub shift: Modes,
    pub compare: Modes,
    pub muldiv: Modes,
    pub load_data: u8,
    pub load_address: u8,
    pub store_data: u8,
    pub store_address: u8,
    /// In the order of the checks' numbers.
    pub checks: [u8; 7],
}

impl Masks {
    /// The masks of these rules, which are at most four.
    #[tactic(auto, unfolding(crate::specs::Masks::masks_of))]
    pub fn of(rules: &[Rules]) -> Masks
        ensures { result ≡ masks_of rules.now }
    {
        Masks {
            source: mask(rules, Flag::Source),
            arith: modes_for(rules, Class::Arith),
            logic: modes_for(rules, Class::Logic),
            shift: modes_for(rules, Class::Shift),
            compare: modes_for(rules, Class::Compare),
            muldiv: modes_for(rules, Class::MulDiv),
            load_data: mask(rules, Flag::LoadData),
            load_address: mask(rules, Flag::LoadByAddress),
            store_data: mask(rules, Flag::StoreData),
            store_address: mask(rules, Flag::StoreByAddress),
            checks: [
                mask(rules, Flag::Checks(Check::Jump)),
                mask(rules, Flag::Checks(Check::LoadAddress)),
                mask(rules, Flag::Checks(Check::StoreAddress)),
                mask(rules, Flag::Checks(Check::BranchCondition)),
                mask(rules, Flag::Checks(Check::CallNumber)),
                mask(rules, Flag::Checks(Check::CallArgument)),
                mask(rules, Flag::Checks(Check::Sink)),
            ],
        }
    }

    /// The masks of a class.
    pub fn modes(&self, class: Class) -> Modes
        ensures { result ≡ modes_in self.now class }
    {
        match class {
            Class::Arith => self.arith,
            Class::Logic => self.logic,
            Class::Shift => self.shift,
            Class::Compare => self.compare,
            Class::MulDiv => self.muldiv,
        }
    }
}

fn modes_for(rules: &[Rules], class: Class) -> Modes
    ensures { result ≡ modes_of rules.now class }
{
    Modes {
        either: mask(rules, Flag::Either(class)),
        both: mask(rules, Flag::Both(class)),
    }
}

/// The bits whose rules answer yes.
fn mask(rules: &[Rules], flag: Flag) -> u8
    ensures { result ≡ mask_of rules.now flag }
{
    bit(rules, 0, flag)
        + 2 * bit(rules, 1, flag)
        + 4 * bit(rules, 2, flag)
        + 8 * bit(rules, 3, flag)
}

fn bit(rules: &[Rules], place: usize, flag: Flag) -> u8
    ensures value { result ≡ bit_value (has_flag (slice_index_or rules.now place no_rules) flag) }
    ensures small { result ≤ 1 }
{
    match rules.get(place) {
        Some(rules) => u8::from(rules.has(flag)),
        None => 0,
    }
}

impl Rules {
    /// What the rules answer.
    fn has(&self, flag: Flag) -> bool
        ensures { result ≡ has_flag self.now flag }
    {
        match flag {
            Flag::Source => self.source,
            Flag::Either(class) => self.mode(class) == Mode::Or,
            Flag::Both(class) => self.mode(class) == Mode::And,
            Flag::LoadData => self.load_data,
            Flag::LoadByAddress => self.load_address,
            Flag::StoreData => self.store_data,
            Flag::StoreByAddress => self.store_address,
            Flag::Checks(check) => self.has_check(check),
        }
    }
}
