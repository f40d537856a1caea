//! The members that a configuration names.

ghost use Rattle.std.specs.Prelude.{◌≡◌, ◌⊎◌, Ok, Err, MatchResult, is_some};
ghost use Rattle.std.specs.List.{list_all};
ghost use Rattle.toml.specs.Data.{as_table};
ghost use Rattle.toml.specs.View.{view, array_view, table_view};
ghost use Rattle.swim_config.specs.Configuration.{member_of, members_of, members_at, array_of};
ghost use Rattle.swim_config.specs.Reading.{Reads};

use crate::config_fault::ConfigFault;
use crate::keys::{ConfigKey, MEMBER_KEYS};
use crate::values::{find, only_keys, take_id, take_peer};
use std::alloc::Global;
use swim_wire::{Id, Peer};
use toml::value::Array;
use toml::{Table, Value};

/// The members that a configuration names, in the order written.
pub fn take_members(alloc: Global, table: &Table) -> Result<Vec<(Id, Peer)>, ConfigFault>
    ensures { Reads result (members_at (table_view table.now)) }
{
    match find(table, ConfigKey::Member) {
        None => Ok(Vec::new(alloc)),
        Some(value) => read_members(alloc, array_of(value)?),
    }
}

/// A value as an array of tables.
#[tactic(auto, using(crate::proofs::Views::are_tables_view))]
fn array_of(value: &Value) -> Result<&Array, ConfigFault>
    ensures { MatchResult result (λ array. array_of (view value.now) ≡ Ok (array_view array.now))
        (λ fault. array_of (view value.now) ≡ Err fault) }
{
    let array = value
        .as_array()
        .ok_or(ConfigFault::Kind(ConfigKey::Member))?;
    if are_tables(array.as_slice()) {
        Ok(array)
    } else {
        Err(ConfigFault::Kind(ConfigKey::Member))
    }
}

/// Whether each of the values is a table.
fn are_tables(values: &[Value]) -> bool
    ensures { result ≡ list_all (λ value. is_some (as_table (view value))) values.now }
{
    values.iter().all(|value| value.is_table())
}

/// The members that the values are.
fn read_members(alloc: Global, values: &Array) -> Result<Vec<(Id, Peer)>, ConfigFault>
    ensures { Reads result (members_of (array_view values.now)) }
{
    let mut members = Vec::new(alloc);
    for value in values {
        let member = read_member(value)?;
        if members.push(member).is_err() {
            return Err(ConfigFault::NoMemory);
        }
    }
    Ok(members)
}

/// A member: its id and its address.
#[tactic(auto, unfolding(crate::specs::Configuration::member_of))]
pub fn read_member(value: &Value) -> Result<(Id, Peer), ConfigFault>
    ensures { result ≡ member_of (view value.now) }
{
    let table = value
        .as_table()
        .ok_or(ConfigFault::Kind(ConfigKey::Member))?;
    only_keys(table, &MEMBER_KEYS)?;
    let id = take_id(table, ConfigKey::MemberId)?;
    let at = take_peer(table, ConfigKey::MemberAt)?;
    Ok((id, at))
}
