//! What a policy says of its one bit.

use rv_decode::Class;

/// How memory is tagged: the two versions of policies.
#[derive(Clone, Copy, Debug, PartialEq, Eq)]
pub enum Version {
    /// Version 1: a tag for each word, in its low four bits.
    WordTags,
    /// Version 2: a tag for each byte of a word, that of byte i in the bits 4i to 4i + 3.
    ByteTags,
}

/// What the tag of a result is, of the tags of its two operands.
#[derive(Clone, Copy, Debug, PartialEq, Eq)]
pub enum Mode {
    /// None.
    Clear,
    /// That of either.
    Or,
    /// That of both.
    And,
}

/// The seven checks, in the order of their numbers from 1 on.
#[derive(Clone, Copy, Debug, PartialEq, Eq)]
pub enum Check {
    /// The register that a JALR jumps to.
    Jump,
    /// The address of a load.
    LoadAddress,
    /// The address of a store.
    StoreAddress,
    /// Either operand of a branch.
    BranchCondition,
    /// The number of a call.
    CallNumber,
    /// The arguments of a call.
    CallArgument,
    /// The bytes that a write call gathered.
    Sink,
}

/// How an access changes the tags of the bytes that it touches.
#[derive(Clone, Copy, Debug, PartialEq, Eq)]
pub enum Change {
    /// By the new tag in place of the old.
    Replace,
    /// By the new tag beside the old.
    Join,
}

/// What a policy says of its one bit. The fields are the keys of a policy table.
#[derive(Clone, Copy, Debug, PartialEq, Eq)]
pub struct Rules {
    /// Whether input has the tag.
    pub source: bool,
    pub arith: Mode,
    pub logic: Mode,
    pub shift: Mode,
    pub compare: Mode,
    pub muldiv: Mode,
    /// Whether a load carries the tag of what it loads, and that of its address.
    pub load_data: bool,
    pub load_address: bool,
    /// Whether a store carries the tag of its value, and that of its address.
    pub store_data: bool,
    pub store_address: bool,
    pub check_jump: bool,
    pub check_load_address: bool,
    pub check_store_address: bool,
    pub check_branch: bool,
    pub check_call_number: bool,
    pub check_call_argument: bool,
    pub check_sink: bool,
}

impl Check {
    ghost use Rattle.std.specs.Prelude.{◌≡◌};
    ghost use Rattle.tag_policy.specs.Rules.{kind_of};

    /// The number of the check, from 1 to 7.
    pub fn kind(self) -> u8
        ensures { result ≡ kind_of self }
    {
        match self {
            Check::Jump => 1,
            Check::LoadAddress => 2,
            Check::StoreAddress => 3,
            Check::BranchCondition => 4,
            Check::CallNumber => 5,
            Check::CallArgument => 6,
            Check::Sink => 7,
        }
    }
}

impl Rules {
    ghost use Rattle.std.specs.Prelude.{◌≡◌};
    ghost use Rattle.tag_policy.specs.Rules.{mode_of, has_check};

    /// Those of a bit that no policy governs.
    pub const NONE: Rules = Rules {
        source: false,
        arith: Mode::Clear,
        logic: Mode::Clear,
        shift: Mode::Clear,
        compare: Mode::Clear,
        muldiv: Mode::Clear,
        load_data: false,
        load_address: false,
        store_data: false,
        store_address: false,
        check_jump: false,
        check_load_address: false,
        check_store_address: false,
        check_branch: false,
        check_call_number: false,
        check_call_argument: false,
        check_sink: false,
    };

    /// Those that a policy table has by default, without a source.
    pub const DEFAULT: Rules = Rules {
        arith: Mode::Or,
        logic: Mode::Or,
        shift: Mode::Or,
        compare: Mode::Or,
        muldiv: Mode::Or,
        load_data: true,
        store_data: true,
        ..Rules::NONE
    };

    /// The mode of a class.
    pub fn mode(&self, class: Class) -> Mode
        ensures { result ≡ mode_of self.now class }
    {
        match class {
            Class::Arith => self.arith,
            Class::Logic => self.logic,
            Class::Shift => self.shift,
            Class::Compare => self.compare,
            Class::MulDiv => self.muldiv,
        }
    }

    /// Whether the check is one of the policy's.
    pub fn has_check(&self, check: Check) -> bool
        ensures { result ≡ has_check self.now check }
    {
        match check {
            Check::Jump => self.check_jump,
            Check::LoadAddress => self.check_load_address,
            Check::StoreAddress => self.check_store_address,
            Check::BranchCondition => self.check_branch,
            Check::CallNumber => self.check_call_number,
            Check::CallArgument => self.check_call_argument,
            Check::Sink => self.check_sink,
        }
    }
}
