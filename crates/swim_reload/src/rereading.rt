//! A configuration file that is read again.

ghost use Rattle.std.specs.Prelude.{◌≡◌, ◌<◌, Err, length};
ghost use Rattle.swim_config.specs.Reading.{OrNoMemory};
ghost use Rattle.swim_reload.specs.Rereading.{configs_of};

use std::alloc::Global;
use swim_config::{Config, ConfigFault, read_config};

/// What the file said as the daemon started, and what it says now: the configurations of `started` and of `text`. Or the
/// first fault, that of `text` first; or `NoMemory`, but for a `text` of too many bytes.
pub fn reread(alloc: Global, started: &[u8], text: &[u8]) -> Result<(Config, Config), ConfigFault>
    ensures value { OrNoMemory result (configs_of started.now text.now) }
    ensures size { 65536 < length text.now → result ≡ Err ConfigFault.Size }
{
    let read = read_config(alloc, text)?;
    let started = read_config(alloc, started)?;
    Ok((started, read))
}
