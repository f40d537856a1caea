//! Which values of a configuration file that is read again are in force in the daemon that runs.

ghost use Rattle.std.specs.Prelude.{◌≡◌, ◌↔◌, IsTrue};
ghost use Rattle.swim_reload.specs.InForce.{IsInForce, is_in_force};

use crate::comparing::{
    are_same_rows, is_same_mode, is_same_number, is_same_path, is_same_peer, is_same_seed,
    is_same_unit, is_same_version,
};
use swim_config::{Config, ConfigKey};

/// The keys that need a start where their values are others, in the order in which they are told.
pub const START_KEYS: [ConfigKey; 19] = [
    ConfigKey::Id,
    ConfigKey::Listen,
    ConfigKey::Control,
    ConfigKey::Events,
    ConfigKey::Metrics,
    ConfigKey::ControlMode,
    ConfigKey::EventsMode,
    ConfigKey::K,
    ConfigKey::Rtt,
    ConfigKey::Period,
    ConfigKey::TickMs,
    ConfigKey::Seed,
    ConfigKey::Journal,
    ConfigKey::Last,
    ConfigKey::Wire,
    ConfigKey::JournalDir,
    ConfigKey::JournalKeep,
    ConfigKey::JournalMs,
    ConfigKey::Member,
];

/// Whether the value that a key has in the file read again is in force without a start: the daemon was started with the
/// same value, or takes it over while it runs, as `keys`, `fence` and `rejoin`. `started` is what the file said at the
/// start, so before `Config::begun_at`. What stands in a table of `member` is told by `member`.
pub fn is_in_force(key: ConfigKey, started: &Config, read: &Config) -> bool
    ensures value { result ≡ is_in_force key started.now read.now }
    ensures same { IsTrue result ↔ IsInForce key started.now read.now }
{
    match key {
        ConfigKey::Id => started.opening.me() == read.opening.me(),
        ConfigKey::Listen => is_same_peer(started.listen, read.listen),
        ConfigKey::Control => started.control.as_str() == read.control.as_str(),
        ConfigKey::Events => is_same_path(&started.events, &read.events),
        ConfigKey::Metrics => is_same_path(&started.metrics, &read.metrics),
        ConfigKey::ControlMode => is_same_mode(started.modes.control, read.modes.control),
        ConfigKey::EventsMode => is_same_mode(started.modes.events, read.modes.events),
        ConfigKey::K => started.opening.k() == read.opening.k(),
        ConfigKey::Rtt => started.opening.rtt() == read.opening.rtt(),
        ConfigKey::Period => started.opening.period() == read.opening.period(),
        ConfigKey::TickMs => started.tick_ms == read.tick_ms,
        ConfigKey::Seed => is_same_seed(&started.seed, &read.seed),
        ConfigKey::Journal => started.journal == read.journal,
        ConfigKey::Last => is_same_number(started.number(key), read.number(key)),
        ConfigKey::Wire => is_same_version(started.opening.version(), read.opening.version()),
        ConfigKey::JournalDir => is_same_path(&started.files.dir, &read.files.dir),
        ConfigKey::JournalKeep => started.files.keep == read.files.keep,
        ConfigKey::JournalMs => is_same_unit(started.files.unit, read.files.unit),
        ConfigKey::Member => are_same_rows(started.opening.rows(), read.opening.rows()),
        ConfigKey::Keys | ConfigKey::Fence | ConfigKey::Rejoin => true,
        ConfigKey::MemberId | ConfigKey::MemberAt => true,
    }
}
