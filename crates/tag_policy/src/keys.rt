//! The keys of policy texts.

use crate::rules::Mode;

/// What the value of a key is, and what it is where the key is missing.
#[derive(Clone, Copy)]
pub enum KeyKind {
    /// A boolean that cannot be missing.
    Required,
    /// The name of a mode.
    Word(Mode),
    /// A boolean.
    Flag(bool),
}

/// The name of a key and its kind.
#[derive(Clone, Copy)]
pub struct Key(pub &'static str, pub KeyKind);

/// The keys of a policy table; a key's number is its place here, from 1 on.
pub const KEYS: [Key; 17] = [
    Key("source", KeyKind::Required),
    Key("arith", KeyKind::Word(Mode::Or)),
    Key("logic", KeyKind::Word(Mode::Or)),
    Key("shift", KeyKind::Word(Mode::Or)),
    Key("compare", KeyKind::Word(Mode::Or)),
    Key("muldiv", KeyKind::Word(Mode::Or)),
    Key("load_data", KeyKind::Flag(true)),
    Key("load_address", KeyKind::Flag(false)),
    Key("store_data", KeyKind::Flag(true)),
    Key("store_address", KeyKind::Flag(false)),
    Key("check_jump", KeyKind::Flag(false)),
    Key("check_load_address", KeyKind::Flag(false)),
    Key("check_store_address", KeyKind::Flag(false)),
    Key("check_branch", KeyKind::Flag(false)),
    Key("check_call_number", KeyKind::Flag(false)),
    Key("check_call_argument", KeyKind::Flag(false)),
    Key("check_sink", KeyKind::Flag(false)),
];
