//! Configurations out of TOML documents.

ghost use Rattle.std.specs.Prelude.{◌≡◌, ◌<◌, Ok, Err, MatchResult, ◌⊎◌, length};
ghost use Rattle.std.specs.Option.{ok_or};
ghost use Rattle.toml.specs.View.{table_view};
ghost use Rattle.swim_config.specs.Configuration.{config_of, config_in, document_of};
ghost use Rattle.swim_config.specs.Reading.{OrNoMemory, table_read};

use crate::config::{Config, config_with, take_settings};
use crate::config_fault::ConfigFault;
use crate::keys::TOP_KEYS;
use crate::members::take_members;
use crate::values::only_keys;
use std::alloc::Global;
use toml::Table;

/// The most bytes of a configuration.
pub const CONFIG_BYTES: usize = 65_536;

/// The configuration that the bytes are as a TOML document, or its first fault; or `NoMemory`, but for bytes that are
/// too many.
pub fn read_config(alloc: Global, bytes: &[u8]) -> Result<Config, ConfigFault>
    ensures value { OrNoMemory result (config_of bytes.now) }
    ensures size { 65536 < length bytes.now → result ≡ Err ConfigFault.Size }
{
    if bytes.len() > CONFIG_BYTES {
        return Err(ConfigFault::Size);
    }
    let table = read_document(alloc, bytes)?;
    read_table(alloc, &table)
}

/// The table that the bytes are as a TOML document.
fn read_document(alloc: Global, bytes: &[u8]) -> Result<Table, ConfigFault>
    ensures { OrNoMemory (table_read result) (ok_or (document_of bytes.now) ConfigFault.Document) }
{
    match toml::table_from_slice(alloc, bytes) {
        Ok(table) => Ok(table),
        Err(fault) => Err(if fault.is_memory() {
            ConfigFault::NoMemory
        } else {
            ConfigFault::Document
        }),
    }
}

/// The configuration that a table says.
fn read_table(alloc: Global, table: &Table) -> Result<Config, ConfigFault>
    ensures { OrNoMemory result (config_in (table_view table.now)) }
{
    only_keys(table, &TOP_KEYS)?;
    let settings = take_settings(table)?;
    let members = take_members(alloc, table)?;
    config_with(settings, members.as_slice())
}
