//! The values that stand at the keys of a policy table.

ghost use Rattle.std.specs.Prelude.{◌≡◌, option_map};
ghost use Rattle.std.specs.Result.{result_err};
ghost use Rattle.toml.specs.View.{view, table_view};
ghost use Rattle.toml.specs.Data.{get_member};
ghost use Rattle.tag_policy.specs.Keys.{flag_said, mode_named, mode_said};
ghost use Rattle.tag_policy.specs.Grammar.{first_fault, value_tests};

use crate::fault::{PolicyFault, PolicyKind};
use crate::keys::KeyKind;
use crate::rules::Mode;
use toml::{Table, Value};

/// The fault of this kind in this policy table at this key.
pub fn bad(kind: PolicyKind, table: u32, key: u8) -> PolicyFault
    ensures { result ≡ PolicyFault.Bad kind table key }
{
    PolicyFault::Bad { kind, table, key }
}

/// What stands at a key of a table.
pub fn lookup<'a>(table: &'a Table, name: &str) -> Option<&'a Value>
    ensures { option_map (λ value. view value.now) result ≡ get_member name.now (table_view table.now) }
{
    table.get(name)
}

/// The mode that a word names.
pub fn mode_named(word: &str) -> Option<Mode>
    ensures { result ≡ mode_named word.now }
{
    match word {
        "none" => Some(Mode::Clear),
        "or" => Some(Mode::Or),
        "and" => Some(Mode::And),
        _ => None,
    }
}

/// Whether what stands at a key is of its kind.
pub fn check_value(
    kind: KeyKind,
    found: Option<&Value>,
    place: u32,
    key: u8,
) -> Result<(), PolicyFault>
    ensures { result_err result ≡ first_fault (value_tests place key kind (option_map (λ value. view value.now) found.entry)) }
{
    match (kind, found) {
        (KeyKind::Required, None) => Err(bad(PolicyKind::MissingKey, place, key)),
        (KeyKind::Word(_), None) => Ok(()),
        (KeyKind::Flag(_), None) => Ok(()),
        (KeyKind::Word(_), Some(value)) => check_word(value, place, key),
        (KeyKind::Required, Some(value)) => check_flag(value, place, key),
        (KeyKind::Flag(_), Some(value)) => check_flag(value, place, key),
    }
}

fn check_word(value: &Value, place: u32, key: u8) -> Result<(), PolicyFault>
    ensures { result_err result ≡ first_fault (value_tests place key (KeyKind.Word Mode.Or) (Some (view value.now))) }
{
    let Some(word) = value.as_str() else {
        return Err(bad(PolicyKind::WrongKind, place, key));
    };
    match mode_named(word) {
        Some(_) => Ok(()),
        None => Err(bad(PolicyKind::BadValue, place, key)),
    }
}

fn check_flag(value: &Value, place: u32, key: u8) -> Result<(), PolicyFault>
    ensures { result_err result ≡ first_fault (value_tests place key KeyKind.Required (Some (view value.now))) }
{
    if value.is_bool() {
        Ok(())
    } else {
        Err(bad(PolicyKind::WrongKind, place, key))
    }
}

/// What a boolean key says.
pub fn flag(kind: KeyKind, found: Option<&Value>) -> bool
    ensures { result ≡ flag_said kind (option_map (λ value. view value.now) found.entry) }
{
    match (kind, found) {
        (_, Some(Value::Boolean(flag))) => *flag,
        (KeyKind::Flag(default), None) => default,
        _ => false,
    }
}

/// What the key of a mode says.
pub fn mode(kind: KeyKind, found: Option<&Value>) -> Mode
    ensures { result ≡ mode_said kind (option_map (λ value. view value.now) found.entry) }
{
    match (kind, found) {
        (KeyKind::Word(default), None) => default,
        (KeyKind::Word(default), Some(Value::String(word))) => {
            mode_named(word.as_str()).unwrap_or(default)
        }
        _ => Mode::Clear,
    }
}
