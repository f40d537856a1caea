//! The paths of a configuration that may be left out, and aren't those of other keys.

ghost use Rattle.std.specs.Prelude.{◌≡◌};
ghost use Rattle.toml.specs.View.{table_view};
ghost use Rattle.swim_config.specs.Configuration.{another_than, another_than_any, dir_at, events_at, metrics_at};

use crate::config::OwnPlace;
use crate::config_fault::ConfigFault;
use crate::keys::ConfigKey;
use crate::socket_path::SocketPath;
use crate::values::take_path_if;
use toml::Table;

/// The path of the events' socket, if it is given.
pub(crate) fn take_events(
    table: &Table,
    control: &SocketPath,
) -> Result<Option<SocketPath>, ConfigFault>
    ensures { result ≡ events_at control.now (table_view table.now) }
{
    let path = take_path_if(table, ConfigKey::Events)?;
    another_than(ConfigKey::Events, control, path)
}

/// The path of the metrics' file, if it is given.
pub(crate) fn take_metrics(
    table: &Table,
    control: &SocketPath,
    events: &Option<SocketPath>,
) -> Result<Option<SocketPath>, ConfigFault>
    ensures { result ≡ metrics_at control.now events.now (table_view table.now) }
{
    let path = take_path_if(table, ConfigKey::Metrics)?;
    let path = another_than(ConfigKey::Metrics, control, path)?;
    another_than_any(ConfigKey::Metrics, events, path)
}

/// The folder of the journal files, if it is given.
pub(crate) fn take_dir(table: &Table, place: &OwnPlace) -> Result<Option<SocketPath>, ConfigFault>
    ensures { result ≡ dir_at place.now (table_view table.now) }
{
    let path = take_path_if(table, ConfigKey::JournalDir)?;
    let path = another_than(ConfigKey::JournalDir, &place.control, path)?;
    let path = another_than_any(ConfigKey::JournalDir, &place.events, path)?;
    another_than_any(ConfigKey::JournalDir, &place.metrics, path)
}

/// The path of this key, where it isn't the other one.
fn another_than(
    key: ConfigKey,
    other: &SocketPath,
    path: Option<SocketPath>,
) -> Result<Option<SocketPath>, ConfigFault>
    ensures { result ≡ another_than key other.now path }
{
    let Some(path) = path else {
        return Ok(None);
    };
    if path.as_str() == other.as_str() {
        Err(ConfigFault::Range(key))
    } else {
        Ok(Some(path))
    }
}

/// The same where the other one may be left out.
fn another_than_any(
    key: ConfigKey,
    other: &Option<SocketPath>,
    path: Option<SocketPath>,
) -> Result<Option<SocketPath>, ConfigFault>
    ensures { result ≡ another_than_any key other.now path }
{
    match other {
        Some(other) => another_than(key, other, path),
        None => Ok(path),
    }
}
