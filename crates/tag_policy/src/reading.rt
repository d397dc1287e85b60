//! From the bytes of a policy text to the policy.

ghost use Rattle.std.specs.Prelude.{◌≡◌, ◌≢◌, ◌≤◌, Ok, Err, IfOk, IfErr, length, map, option_map, not, string_bytes};
ghost use Rattle.std.specs.List.{list_any};
ghost use Rattle.std.specs.Map.{keys_of};
ghost use Rattle.std.specs.Result.{result_err};
ghost use Rattle.toml.specs.View.{view, table_view};
ghost use Rattle.tag_policy.specs.Keys.{top_keys};
ghost use Rattle.tag_policy.specs.Grammar.{array_tests, document_tests, first_fault, is_among, items_at, items_tests, judged, policy_of, policy_of_document, rules_of_item, version_or, version_said, version_tests};
ghost use Rattle.tag_policy.specs.Policies.{policy_in};
ghost use Rattle.tag_policy.specs.ReadForms.{policy_result};

use crate::fault::{PolicyFault, PolicyKind};
use crate::policy::Policy;
use crate::rules::Version;
use crate::tables::read_item;
use crate::values::{bad, lookup};
use std::alloc::Global;
use std::str::from_utf8;
use toml::{Table, Value};

/// Reads a policy text.
pub fn read_policy(alloc: Global, bytes: &[u8]) -> Result<Policy, PolicyFault>
    ensures accepted { IfOk result (λ policy. policy_of bytes.now ≡ Ok (policy_in policy)) }
    ensures refused { IfErr result (λ fault. fault ≢ PolicyFault.NoMemory → policy_of bytes.now ≡ Err fault) }
{
    let Ok(text) = from_utf8(bytes) else {
        return Err(bad(PolicyKind::Text, 0, 0));
    };
    match toml::table_from_str(alloc, text) {
        Ok(table) => read_document(&table),
        Err(error) => Err(if error.is_memory() {
            PolicyFault::NoMemory
        } else {
            bad(PolicyKind::Text, 0, 0)
        }),
    }
}

fn read_document(table: &Table) -> Result<Policy, PolicyFault>
    ensures { policy_result result ≡ judged (first_fault (document_tests (table_view table.now))) (policy_of_document (table_view table.now)) }
{
    if has_unknown_top_key(table) {
        return Err(bad(PolicyKind::UnknownKey, 0, 0));
    }
    let version = read_version(lookup(table, "version"))?;
    let items = read_array(lookup(table, "policy"))?;
    read_items(items, version)
}

fn has_unknown_top_key(table: &Table) -> bool
    ensures { result ≡ list_any (λ name. not (is_among top_keys (string_bytes name))) (keys_of table.now.entries) }
{
    table.keys().any(|name| !is_top_key(name.as_str()))
}

fn is_top_key(name: &str) -> bool
    ensures { result ≡ is_among top_keys name.now }
{
    name == "version" || name == "policy"
}

fn read_version(found: Option<&Value>) -> Result<Version, PolicyFault>
    ensures { let seen = option_map (λ value. view value.now) found.entry in result ≡ judged (first_fault (version_tests seen)) (version_or (version_said seen)) }
{
    let Some(value) = found else {
        return Err(bad(PolicyKind::MissingKey, 0, 1));
    };
    let Some(number) = value.as_integer() else {
        return Err(bad(PolicyKind::WrongKind, 0, 1));
    };
    match number {
        1 => Ok(Version::WordTags),
        2 => Ok(Version::ByteTags),
        _ => Err(bad(PolicyKind::BadValue, 0, 1)),
    }
}

/// The items of the array of policy tables.
fn read_array(found: Option<&Value>) -> Result<&[Value], PolicyFault>
    ensures fault { result_err result ≡ first_fault (array_tests (option_map (λ value. view value.now) found.entry)) }
    ensures items { IfOk result (λ items. map view items.now ≡ items_at (option_map (λ value. view value.now) found.entry)) }
    ensures few { IfOk result (λ items. length items.now ≤ 4) }
{
    let Some(value) = found else {
        return Err(bad(PolicyKind::MissingKey, 0, 2));
    };
    let Some(items) = value.as_array() else {
        return Err(bad(PolicyKind::WrongKind, 0, 2));
    };
    if items.len() > 4 {
        return Err(bad(PolicyKind::TooMany, 0, 2));
    }
    Ok(items.as_slice())
}

/// Reads each item of the array of policy tables.
fn read_items(items: &[Value], version: Version) -> Result<Policy, PolicyFault>
    requires { length items.now ≤ 4 }
    ensures { policy_result result ≡ judged (first_fault (items_tests 1 (map view items.now))) (record { version = version; rules = map rules_of_item (map view items.now) }) }
{
    let mut policy = Policy::empty(version);
    for (index, item) in items.iter().enumerate() {
        policy = policy.with(read_item(item, index as u32 + 1)?);
    }
    Ok(policy)
}
