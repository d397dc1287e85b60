//! Why a text is no policy.

ghost use Rattle.std.specs.Prelude.{◌≡◌};
ghost use Rattle.tag_policy.specs.Faults.{policy_kind_number, policy_kind_name};

/// What is wrong with a policy text, as the first test that applies tells it.
#[derive(Clone, Copy, Debug, PartialEq, Eq)]
pub enum PolicyKind {
    /// The bytes are no TOML document.
    Text,
    /// A key that policies do not have.
    UnknownKey,
    /// A key that has no default is missing.
    MissingKey,
    /// A value of another type.
    WrongKind,
    /// More than four policy tables.
    TooMany,
    /// A value that is none of those allowed.
    BadValue,
}

impl PolicyKind {
    /// The kind's number, from 1 to 6.
    pub fn number(self) -> u8
        ensures { result ≡ policy_kind_number self }
    {
        match self {
            PolicyKind::Text => 1,
            PolicyKind::UnknownKey => 2,
            PolicyKind::MissingKey => 3,
            PolicyKind::WrongKind => 4,
            PolicyKind::TooMany => 5,
            PolicyKind::BadValue => 6,
        }
    }

    /// The kind's name, as it stands here.
    pub fn name(self) -> &'static str
        ensures { result.now ≡ policy_kind_name self }
    {
        match self {
            PolicyKind::Text => "Text",
            PolicyKind::UnknownKey => "UnknownKey",
            PolicyKind::MissingKey => "MissingKey",
            PolicyKind::WrongKind => "WrongKind",
            PolicyKind::TooMany => "TooMany",
            PolicyKind::BadValue => "BadValue",
        }
    }
}

/// Why `read_policy` gives no policy.
#[derive(Clone, Copy, Debug, PartialEq, Eq)]
pub enum PolicyFault {
    /// The first test that applies: its kind; the policy table that it is about, from 1 on, or 0; and the
    /// key, by its number in that table, or `version` 1 and `policy` 2 outside, or 0.
    Bad {
        kind: PolicyKind,
        table: u32,
        key: u8,
    },
    /// There was no memory to read the text. It says nothing of the text.
    NoMemory,
}
