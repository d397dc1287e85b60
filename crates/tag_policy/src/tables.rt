//! Policy tables: their keys, and what they say of a bit.

ghost use Rattle.std.specs.Prelude.{◌≡◌, ◌≤◌, ◌∷◌, length, not, string_bytes};
ghost use Rattle.std.specs.List.{list_any};
ghost use Rattle.std.specs.Map.{keys_of};
ghost use Rattle.std.specs.Str.{bytes_eq};
ghost use Rattle.std.specs.Result.{result_err};
ghost use Rattle.toml.specs.View.{view, table_view};
ghost use Rattle.toml.specs.Data.{get_member};
ghost use Rattle.tag_policy.specs.Keys.{flag_said, mode_said, rules_of_table};
ghost use Rattle.tag_policy.specs.Grammar.{first_fault, has_other_key, item_tests, judged, keys_tests, rules_of_item, table_tests, test};
ghost use Rattle.tag_policy.specs.declared.fault.PolicyKind.TheVariants.{UnknownKey};
ghost use Rattle.tag_policy.specs.ReadForms.{names_of, policy_keys};

use crate::fault::{PolicyFault, PolicyKind};
use crate::keys::{KEYS, Key};
use crate::rules::{Mode, Rules};
use crate::values::{bad, check_value, flag, lookup, mode};
use toml::{Table, Value};

/// Reads an item of the array of policies, the `place`-th.
pub fn read_item(value: &Value, place: u32) -> Result<Rules, PolicyFault>
    ensures { result ≡ judged (first_fault (item_tests place (view value.now))) (rules_of_item (view value.now)) }
{
    let Some(table) = value.as_table() else {
        return Err(bad(PolicyKind::WrongKind, place, 0));
    };
    check_table(table, place)?;
    Ok(rules_of(table))
}

/// Whether a policy table has known keys alone, with values of their kinds.
#[tactic(auto, unfolding(crate::specs::Keys::keys, crate::specs::Grammar::key_names, crate::specs::Grammar::table_tests))]
fn check_table(table: &Table, place: u32) -> Result<(), PolicyFault>
    ensures { result_err result ≡ first_fault (table_tests place (table_view table.now)) }
{
    check_keys(&KEYS, table, place)
}

fn check_keys(keys: &[Key], table: &Table, place: u32) -> Result<(), PolicyFault>
    requires { length keys.now ≤ 17 }
    ensures { result_err result ≡ first_fault (test (has_other_key (names_of keys.now) (table_view table.now)) UnknownKey place 0 ∷ keys_tests place (table_view table.now) 1 (policy_keys keys.now)) }
{
    if has_unknown_key(table, keys) {
        return Err(bad(PolicyKind::UnknownKey, place, 0));
    }
    check_values(keys, table, place)
}

/// Whether a table has a key that is none of these.
fn has_unknown_key(table: &Table, keys: &[Key]) -> bool
    ensures { result ≡ list_any (λ name. not (list_any (λ key. bytes_eq (string_bytes name) key.0.now) keys.now)) (keys_of table.now.entries) }
{
    table.keys().any(|name| !is_known(name.as_str(), keys))
}

fn is_known(name: &str, keys: &[Key]) -> bool
    ensures { result ≡ list_any (λ key. bytes_eq name.now key.0.now) keys.now }
{
    keys.iter().any(|key| name == key.0)
}

fn check_values(keys: &[Key], table: &Table, place: u32) -> Result<(), PolicyFault>
    requires { length keys.now ≤ 17 }
    ensures { result_err result ≡ first_fault (keys_tests place (table_view table.now) 1 (policy_keys keys.now)) }
{
    for (index, &Key(name, kind)) in keys.iter().enumerate() {
        check_value(kind, lookup(table, name), place, index as u8 + 1)?;
    }
    Ok(())
}

/// What a policy table says of its bit.
#[tactic(auto, unfolding(crate::specs::Keys::keys, crate::specs::Keys::rules_of_table))]
fn rules_of(table: &Table) -> Rules
    ensures { result ≡ rules_of_table (table_view table.now) }
{
    let [
        source,
        arith,
        logic,
        shift,
        compare,
        muldiv,
        load_data,
        load_address,
        store_data,
        store_address,
        jump,
        load,
        store,
        branch,
        number,
        argument,
        sink,
    ] = &KEYS;
    Rules {
        source: flag_of(table, source),
        arith: mode_of(table, arith),
        logic: mode_of(table, logic),
        shift: mode_of(table, shift),
        compare: mode_of(table, compare),
        muldiv: mode_of(table, muldiv),
        load_data: flag_of(table, load_data),
        load_address: flag_of(table, load_address),
        store_data: flag_of(table, store_data),
        store_address: flag_of(table, store_address),
        check_jump: flag_of(table, jump),
        check_load_address: flag_of(table, load),
        check_store_address: flag_of(table, store),
        check_branch: flag_of(table, branch),
        check_call_number: flag_of(table, number),
        check_call_argument: flag_of(table, argument),
        check_sink: flag_of(table, sink),
    }
}

fn flag_of(table: &Table, key: &Key) -> bool
    ensures { result ≡ flag_said key.now.1 (get_member key.now.0.now (table_view table.now)) }
{
    flag(key.1, lookup(table, key.0))
}

fn mode_of(table: &Table, key: &Key) -> Mode
    ensures { result ≡ mode_said key.now.1 (get_member key.now.0.now (table_view table.now)) }
{
    mode(key.1, lookup(table, key.0))
}
