//! The values of keys.

ghost use Rattle.std.specs.Prelude.{◌≡◌, ◌≤◌, Some, None, IfOk, IfSome, option_map, string_bytes};
ghost use Rattle.std.specs.BTreeMap.{keys};
ghost use Rattle.std.specs.List.{list_all};
ghost use Rattle.std.specs.Result.{result_map_both};
ghost use Rattle.toml.specs.Data.{get_member};
ghost use Rattle.toml.specs.View.{view, table_view};
ghost use Rattle.swim_config.specs.Configuration.{is_name, only_keys, value_at, within, number_as, number_at};
ghost use Rattle.swim_config.specs.Configuration.{text_at, peer_at, path_as, path_at, path_if, seed_at};
ghost use Rattle.swim_config.specs.Keys.{name_of, form_of, default_of};
ghost use Rattle.swim_config.specs.Reading.{IsWithin, IsSmall};

use crate::config_fault::ConfigFault;
use crate::keys::{ConfigKey, ValueForm};
use crate::socket_path::SocketPath;
use hex::FromHex;
use swim_wire::{Id, Peer};
use toml::{Table, Value};

/// Tells a key of a table that is none of these.
#[tactic(auto, using(crate::proofs::Views::has_only_view))]
pub fn only_keys(table: &Table, known: &[ConfigKey]) -> Result<(), ConfigFault>
    ensures { result ≡ only_keys known.now (table_view table.now) }
{
    if has_only(table, known) {
        Ok(())
    } else {
        Err(ConfigFault::UnknownKey)
    }
}

/// Whether each key of a table is one of these.
fn has_only(table: &Table, known: &[ConfigKey]) -> bool
    ensures { result ≡ list_all (λ name. is_name known.now (string_bytes name)) (keys table.now) }
{
    table.keys().all(|name| is_name(known, name.as_str()))
}

/// Whether it is the name of one of these keys.
fn is_name(known: &[ConfigKey], name: &str) -> bool
    ensures { result ≡ is_name known.now name.now }
{
    known.iter().any(|key| key.name() == name)
}

/// The value of a key, if it stands in the table.
pub fn find(table: &Table, key: ConfigKey) -> Option<&Value>
    ensures { option_map (λ value. view value.now) result ≡ get_member (name_of key) (table_view table.now) }
{
    table.get(key.name())
}

/// The value of a key that has to stand in the table.
fn take(table: &Table, key: ConfigKey) -> Result<&Value, ConfigFault>
    ensures { result_map_both (λ value. view value.now) (λ fault. fault) result ≡ value_at key (table_view table.now) }
{
    find(table, key).ok_or(ConfigFault::Missing(key))
}

/// The number that an integer is, if it is one from `least` to `most`.
fn within(integer: i64, least: u64, most: u64) -> Option<u64>
    ensures value { result ≡ within least most integer }
    ensures within { IfSome result (λ number. (least ≤ number) × (number ≤ most)) }
{
    let number = u64::try_from(integer).ok()?;
    if least <= number && number <= most {
        Some(number)
    } else {
        None
    }
}

/// A value as the number that a key has to have.
fn number_as(value: &Value, key: ConfigKey) -> Result<u64, ConfigFault>
    ensures value { result ≡ number_as (form_of key) key (view value.now) }
    ensures within { IfOk result (IsWithin (form_of key)) }
{
    let ValueForm::Number(least, most) = key.form() else {
        return Err(ConfigFault::Kind(key));
    };
    let integer = value.as_integer().ok_or(ConfigFault::Kind(key))?;
    within(integer, least, most).ok_or(ConfigFault::Range(key))
}

/// The number of a key, its default where it is left out.
pub fn take_number(table: &Table, key: ConfigKey) -> Result<u64, ConfigFault>
    ensures { result ≡ number_at key (table_view table.now) }
{
    match find(table, key) {
        None => key.default().ok_or(ConfigFault::Missing(key)),
        Some(value) => number_as(value, key),
    }
}

/// The number of a key whose numbers fit 32 bits and that has no default.
pub fn take_small(table: &Table, key: ConfigKey) -> Result<u32, ConfigFault>
    requires small { IsSmall (form_of key) }
    requires given { default_of key ≡ None }
    ensures value { result ≡ number_at key (table_view table.now) }
    ensures within { IfOk result (IsWithin (form_of key)) }
{
    let number = number_as(take(table, key)?, key)?;
    Ok(number as u32)
}

/// The number of a key whose numbers fit 32 bits, its default where it is left out.
pub fn take_small_or(table: &Table, key: ConfigKey, default: u32) -> Result<u32, ConfigFault>
    requires small { IsSmall (form_of key) }
    requires default { default_of key ≡ Some default }
    ensures { result ≡ number_at key (table_view table.now) }
{
    match find(table, key) {
        None => Ok(default),
        Some(value) => {
            let number = number_as(value, key)?;
            Ok(number as u32)
        }
    }
}

/// The value of a key as an id.
pub fn take_id(table: &Table, key: ConfigKey) -> Result<Id, ConfigFault>
    requires range { form_of key ≡ ValueForm.Number 1 4294967295 }
    requires given { default_of key ≡ None }
    ensures { result ≡ number_at key (table_view table.now) }
{
    let number = take_small(table, key)?;
    Id::new(number).ok_or(ConfigFault::Range(key))
}

/// The value of a key as a text.
fn take_text(table: &Table, key: ConfigKey) -> Result<&str, ConfigFault>
    ensures { result_map_both (λ text. text.now) (λ fault. fault) result ≡ text_at key (table_view table.now) }
{
    let value = take(table, key)?;
    value.as_str().ok_or(ConfigFault::Kind(key))
}

/// The value of a key as an address.
pub fn take_peer(table: &Table, key: ConfigKey) -> Result<Peer, ConfigFault>
    ensures { result ≡ peer_at key (table_view table.now) }
{
    let text = take_text(table, key)?;
    Peer::read(text.as_bytes()).ok_or(ConfigFault::Peer(key))
}

/// The path of the control socket.
pub fn take_path(table: &Table) -> Result<SocketPath, ConfigFault>
    ensures { result ≡ path_at (table_view table.now) }
{
    let text = take_text(table, ConfigKey::Control)?;
    SocketPath::read(text).ok_or(ConfigFault::Range(ConfigKey::Control))
}

/// The path of a key that may be left out.
pub fn take_path_if(table: &Table, key: ConfigKey) -> Result<Option<SocketPath>, ConfigFault>
    ensures { result ≡ path_if key (table_view table.now) }
{
    match find(table, key) {
        None => Ok(None),
        Some(value) => Ok(Some(path_as(value, key)?)),
    }
}

/// A value as the path that a key has to have.
fn path_as(value: &Value, key: ConfigKey) -> Result<SocketPath, ConfigFault>
    ensures { result ≡ path_as key (view value.now) }
{
    let text = value.as_str().ok_or(ConfigFault::Kind(key))?;
    SocketPath::read(text).ok_or(ConfigFault::Range(key))
}

/// The seed.
pub fn take_seed(table: &Table) -> Result<[u8; 32], ConfigFault>
    ensures { result ≡ seed_at (table_view table.now) }
{
    let text = take_text(table, ConfigKey::Seed)?;
    let seed = <[u8; 32]>::from_hex(text.as_bytes()).ok();
    seed.ok_or(ConfigFault::Seed)
}
