//! The keys of a group that a configuration names.

ghost use Rattle.std.specs.Prelude.{◌≡◌, ◌≤◌, Ok, Err, MatchResult, is_some, length};
ghost use Rattle.std.specs.List.{list_all};
ghost use Rattle.std.specs.Result.{result_map_both};
ghost use Rattle.toml.specs.Data.{as_str};
ghost use Rattle.toml.specs.View.{view, array_view, table_view};
ghost use Rattle.swim_config.specs.GroupKeys.{group_key_of, group_keys_of, keys_at, strings_of};

use crate::config_fault::ConfigFault;
use crate::keys::ConfigKey;
use crate::values::find;
use arrayvec::ArrayVec;
use swim_keys::{GroupKey, MOST_KEYS};
use toml::value::Array;
use toml::{Table, Value};

/// The keys of a group, in the order written.
pub type GroupKeys = ArrayVec<GroupKey, MOST_KEYS>;

/// The keys that a configuration names, none where it has no such key.
pub fn take_keys(table: &Table) -> Result<GroupKeys, ConfigFault>
    ensures { result ≡ keys_at (table_view table.now) }
{
    match find(table, ConfigKey::Keys) {
        None => Ok(GroupKeys::new()),
        Some(value) => read_keys(strings_of(value)?),
    }
}

/// A value as an array of 1 to 4 strings.
#[tactic(auto, using(crate::proofs::KeyViews::are_strings_view, crate::proofs::KeyViews::count_view))]
fn strings_of(value: &Value) -> Result<&Array, ConfigFault>
    ensures value { MatchResult result (λ array. strings_of (view value.now) ≡ Ok (array_view array.now))
        (λ fault. strings_of (view value.now) ≡ Err fault) }
    ensures room { MatchResult result (λ array. length array.now.items ≤ MOST_KEYS) (λ fault. Unit {0}) }
{
    let array = value.as_array().ok_or(ConfigFault::Kind(ConfigKey::Keys))?;
    if !are_strings(array.as_slice()) {
        return Err(ConfigFault::Kind(ConfigKey::Keys));
    }
    if array.is_empty() || array.len() > MOST_KEYS {
        return Err(ConfigFault::Range(ConfigKey::Keys));
    }
    Ok(array)
}

/// Whether each of the values is a string.
fn are_strings(values: &[Value]) -> bool
    ensures { result ≡ list_all (λ value. is_some (as_str (view value))) values.now }
{
    values.iter().all(|value| value.is_str())
}

/// The keys that the values spell.
fn read_keys(values: &Array) -> Result<GroupKeys, ConfigFault>
    requires { length values.now.items ≤ MOST_KEYS }
    ensures { result_map_both (λ keys. keys.items) (λ fault. fault) result ≡ group_keys_of (array_view values.now) }
{
    let mut keys = GroupKeys::new();
    for value in values {
        keys.push(read_key(value)?);
    }
    Ok(keys)
}

/// The key that a value spells.
#[tactic(auto, unfolding(crate::specs::GroupKeys::group_key_of))]
fn read_key(value: &Value) -> Result<GroupKey, ConfigFault>
    ensures { result ≡ group_key_of (view value.now) }
{
    let text = value.as_str().ok_or(ConfigFault::Kind(ConfigKey::Keys))?;
    let key = GroupKey::read(text.as_bytes()).ok();
    key.ok_or(ConfigFault::Range(ConfigKey::Keys))
}
