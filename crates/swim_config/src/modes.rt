//! Who may use a socket: the modes of a configuration's sockets, as it spells them.

ghost use Rattle.std.specs.Prelude.{◌≡◌, ◌-◌};
ghost use Rattle.toml.specs.View.{view, table_view};
ghost use Rattle.swim_config.specs.Modes.{is_octal, mode_as, mode_if, mode_of, modes_in};

use crate::config_fault::ConfigFault;
use crate::keys::ConfigKey;
use crate::values::find;
use toml::{Table, Value};

/// The modes of the sockets. `None`: a socket is its owner's alone.
#[derive(Clone, Copy, Debug)]
pub struct SocketModes {
    /// That of the control socket.
    pub control: Option<u32>,
    /// That of the events' socket.
    pub events: Option<u32>,
}

/// The modes that a configuration gives its sockets.
#[tactic(auto, unfolding(crate::specs::Modes::modes_in))]
pub fn take_modes(table: &Table) -> Result<SocketModes, ConfigFault>
    ensures { result ≡ modes_in (table_view table.now) }
{
    let control = take_mode_if(table, ConfigKey::ControlMode)?;
    let events = take_mode_if(table, ConfigKey::EventsMode)?;
    Ok(SocketModes { control, events })
}

/// The mode of a key that may be left out.
fn take_mode_if(table: &Table, key: ConfigKey) -> Result<Option<u32>, ConfigFault>
    ensures { result ≡ mode_if key (table_view table.now) }
{
    match find(table, key) {
        None => Ok(None),
        Some(value) => Ok(Some(mode_as(value, key)?)),
    }
}

/// A value as the mode that a key has to have.
fn mode_as(value: &Value, key: ConfigKey) -> Result<u32, ConfigFault>
    ensures { result ≡ mode_as key (view value.now) }
{
    let text = value.as_str().ok_or(ConfigFault::Kind(key))?;
    mode_of(text.as_bytes()).ok_or(ConfigFault::Range(key))
}

/// The mode that a text spells: a 0 and three octal digits, of its owner, of its group and of others. `None` for any
/// other text.
fn mode_of(text: &[u8]) -> Option<u32>
    ensures { result ≡ mode_of text.now }
{
    if text.len() != 4 || text[0] != b'0' || !is_octal(text) {
        return None;
    }
    Some(64 * digit(text[1]) + 8 * digit(text[2]) + digit(text[3]))
}

/// Whether each byte is an octal digit.
fn is_octal(text: &[u8]) -> bool
    ensures { result ≡ is_octal text.now }
{
    text.iter().all(|byte| b'0' <= *byte && *byte <= b'7')
}

/// The number of a digit.
fn digit(byte: u8) -> u32
    ensures { result ≡ byte - 48 }
{
    u32::from(byte.saturating_sub(b'0'))
}
