//! The configuration of a daemon, and where the values of its keys go.

ghost use Rattle.std.specs.Prelude.{◌≡◌};
ghost use Rattle.toml.specs.View.{table_view};
ghost use Rattle.swim_wire.specs.Layout.{version_of};
ghost use Rattle.swim_config.specs.Configuration.{config_with, fence_in, files_in};
ghost use Rattle.swim_config.specs.Configuration.{journal_settings_in, number_of, place_in, rejoin_in, settings_in};
ghost use Rattle.swim_config.specs.Configuration.{times_in};
ghost use Rattle.swim_config.specs.Configuration.{told_count, told_fence, told_last, told_rejoin};
ghost use Rattle.swim_config.specs.Configuration.{told_version};
ghost use Rattle.swim_config.specs.Configuration.{version_in};

use crate::config_fault::ConfigFault;
use crate::group_keys::{GroupKeys, take_keys};
use crate::journal_files::{JournalFiles, TimeUnit};
use crate::keys::ConfigKey;
use crate::modes::{SocketModes, take_modes};
use crate::paths::{take_dir, take_events, take_metrics};
use crate::socket_path::SocketPath;
use crate::values::{
    find, take_id, take_number, take_path, take_peer, take_seed, take_small, take_small_or,
};
use swim_history::Opening;
use swim_wire::{Id, Peer, Version};
use toml::Table;

/// What a daemon is started with.
#[derive(Debug, Drop)]
pub struct Config {
    /// Where datagrams come in.
    pub listen: Peer,
    /// The path of the control socket.
    pub control: SocketPath,
    /// The path of the socket where events are told, if they are; not that of the control socket.
    pub events: Option<SocketPath>,
    /// The path of the file where metrics are told, if they are; that of neither socket.
    pub metrics: Option<SocketPath>,
    /// Who may use the sockets.
    pub modes: SocketModes,
    /// How long a tick lasts, in milliseconds: 1 to 60000.
    pub tick_ms: u32,
    /// The seed of the draws.
    pub seed: [u8; 32],
    /// How many entries the journal may have: 1 to 1000000.
    pub journal: u32,
    /// The keys of the group, in the order written; none where datagrams aren't signed.
    pub keys: GroupKeys,
    /// Whether `last` is to be the system's clock as the daemon starts: keys are set, and `last` was left out.
    pub begins_by_clock: bool,
    /// How many datagrams a second are handed on of each listed member's address, and of all others together, and a burst
    /// of as many; 0 for all.
    pub fence: u32,
    /// Whether `fence` stands in the document.
    pub is_fence_given: bool,
    /// The N of knocks: there is a knock at each N-th start of a period. 0 to 65535, 0 for none.
    pub rejoin: u32,
    /// Whether `rejoin` stands in the document.
    pub is_rejoin_given: bool,
    /// Where each life's journal is written to a file, if it is.
    pub files: JournalFiles,
    /// What its detector starts from.
    pub opening: Opening,
}

/// Who this member is, and where it listens.
#[derive(Drop)]
pub struct OwnPlace {
    pub id: Id,
    pub listen: Peer,
    pub control: SocketPath,
    pub events: Option<SocketPath>,
    pub metrics: Option<SocketPath>,
}

/// How many relays are asked, and how long things last.
#[derive(Clone, Copy)]
pub struct Times {
    pub k: u32,
    pub rtt: u32,
    pub period: u32,
    pub tick_ms: u32,
}

/// What is drawn from and written down.
#[derive(Clone, Copy)]
pub struct JournalSettings {
    pub seed: [u8; 32],
    pub journal: u32,
    pub last: u64,
    /// Whether `last` stands in the document.
    pub is_last_given: bool,
}

/// What is thrown away before it is looked at.
#[derive(Clone, Copy)]
pub struct FenceSettings {
    /// How many datagrams a second of an address are handed on, and a burst of as many; 0 for all.
    pub rate: u32,
    /// Whether it stands in the document.
    pub is_given: bool,
}

/// How members come back.
#[derive(Clone, Copy)]
pub struct Rejoin {
    /// The N of knocks: there is a knock at each N-th start of a period; 0 for none.
    pub periods: u32,
    /// Whether it stands in the document.
    pub is_given: bool,
}

/// All of it, but for the members.
#[derive(Drop)]
pub struct Settings {
    pub place: OwnPlace,
    pub modes: SocketModes,
    pub times: Times,
    pub journal_settings: JournalSettings,
    /// The version of its own pings and ping-reqs.
    pub version: Version,
    pub keys: GroupKeys,
    pub fence: FenceSettings,
    pub rejoin: Rejoin,
    pub files: JournalFiles,
}

impl Config {
    /// The number that a summary tells of a key. `None` where it tells none, as of a key that is left out.
    pub fn number(&self, key: ConfigKey) -> Option<u64>
        ensures { result ≡ number_of key self.now }
    {
        let opening = &self.opening;
        match key {
            ConfigKey::K => Some(u64::from(opening.k())),
            ConfigKey::Rtt => Some(u64::from(opening.rtt())),
            ConfigKey::Period => Some(u64::from(opening.period())),
            ConfigKey::TickMs => Some(u64::from(self.tick_ms)),
            ConfigKey::Last => self.told_last(),
            ConfigKey::Journal => Some(u64::from(self.journal)),
            ConfigKey::Wire => told_version(opening.version()),
            ConfigKey::Keys => told_count(self.keys.len()),
            ConfigKey::Fence => self.told_fence(),
            ConfigKey::Rejoin => self.told_rejoin(),
            ConfigKey::JournalKeep => self.files.told_keep(),
            ConfigKey::JournalMs => self.files.told_ms(),
            _ => None,
        }
    }

    /// The last number, where it is known before the daemon starts.
    fn told_last(&self) -> Option<u64>
        ensures { result ≡ told_last self.now }
    {
        if self.begins_by_clock {
            None
        } else {
            Some(self.opening.last())
        }
    }

    /// The datagrams a second, where they are given.
    fn told_fence(&self) -> Option<u64>
        ensures { result ≡ told_fence self.now }
    {
        if self.is_fence_given {
            Some(u64::from(self.fence))
        } else {
            None
        }
    }

    /// The periods between knocks, where they are given.
    fn told_rejoin(&self) -> Option<u64>
        ensures { result ≡ told_rejoin self.now }
    {
        if self.is_rejoin_given {
            Some(u64::from(self.rejoin))
        } else {
            None
        }
    }
}

/// The number of a version that isn't the first one, which goes without saying.
fn told_version(version: Version) -> Option<u64>
    ensures { result ≡ told_version version }
{
    match version {
        Version::One => None,
        Version::Two => Some(2),
    }
}

/// How many keys there are, where there are some.
fn told_count(count: usize) -> Option<u64>
    ensures { result ≡ told_count count }
{
    if 0 < count { Some(count as u64) } else { None }
}

/// The settings of a table, or their first fault.
#[tactic(auto, unfolding(crate::specs::Configuration::settings_in))]
pub fn take_settings(table: &Table) -> Result<Settings, ConfigFault>
    ensures { result ≡ settings_in (table_view table.now) }
{
    let place = take_place(table)?;
    let modes = take_modes(table)?;
    let times = take_times(table)?;
    let journal_settings = take_journal_settings(table)?;
    let version = take_version(table)?;
    let keys = take_keys(table)?;
    let fence = take_fence(table)?;
    let rejoin = take_rejoin(table)?;
    let files = take_files(table, &place)?;
    Ok(Settings {
        place,
        modes,
        times,
        journal_settings,
        version,
        keys,
        fence,
        rejoin,
        files,
    })
}

#[tactic(auto, unfolding(crate::specs::Configuration::place_in))]
fn take_place(table: &Table) -> Result<OwnPlace, ConfigFault>
    ensures { result ≡ place_in (table_view table.now) }
{
    let id = take_id(table, ConfigKey::Id)?;
    let listen = take_peer(table, ConfigKey::Listen)?;
    let control = take_path(table)?;
    let events = take_events(table, &control)?;
    let metrics = take_metrics(table, &control, &events)?;
    Ok(OwnPlace {
        id,
        listen,
        control,
        events,
        metrics,
    })
}

#[tactic(auto, unfolding(crate::specs::Configuration::times_in))]
fn take_times(table: &Table) -> Result<Times, ConfigFault>
    ensures { result ≡ times_in (table_view table.now) }
{
    let k = take_small(table, ConfigKey::K)?;
    let rtt = take_small(table, ConfigKey::Rtt)?;
    let period = take_small(table, ConfigKey::Period)?;
    let tick_ms = take_small(table, ConfigKey::TickMs)?;
    Ok(Times {
        k,
        rtt,
        period,
        tick_ms,
    })
}

#[tactic(auto, unfolding(crate::specs::Configuration::journal_settings_in))]
fn take_journal_settings(table: &Table) -> Result<JournalSettings, ConfigFault>
    ensures { result ≡ journal_settings_in (table_view table.now) }
{
    let seed = take_seed(table)?;
    let journal = take_small(table, ConfigKey::Journal)?;
    let last = take_number(table, ConfigKey::Last)?;
    let is_last_given = find(table, ConfigKey::Last).is_some();
    Ok(JournalSettings {
        seed,
        journal,
        last,
        is_last_given,
    })
}

#[tactic(auto, unfolding(crate::specs::Configuration::version_in))]
fn take_version(table: &Table) -> Result<Version, ConfigFault>
    ensures { result ≡ version_in (table_view table.now) }
{
    let wire = take_number(table, ConfigKey::Wire)?;
    Ok(version_of(wire))
}

/// The version of that number, 1 or 2.
fn version_of(wire: u64) -> Version
    ensures { result ≡ version_of wire }
{
    if wire == 1 {
        Version::One
    } else {
        Version::Two
    }
}

#[tactic(auto, unfolding(crate::specs::Configuration::fence_in))]
fn take_fence(table: &Table) -> Result<FenceSettings, ConfigFault>
    ensures { result ≡ fence_in (table_view table.now) }
{
    let rate = take_small_or(table, ConfigKey::Fence, 1_000)?;
    let is_given = find(table, ConfigKey::Fence).is_some();
    Ok(FenceSettings { rate, is_given })
}

#[tactic(auto, unfolding(crate::specs::Configuration::rejoin_in))]
fn take_rejoin(table: &Table) -> Result<Rejoin, ConfigFault>
    ensures { result ≡ rejoin_in (table_view table.now) }
{
    let periods = take_small_or(table, ConfigKey::Rejoin, 0)?;
    let is_given = find(table, ConfigKey::Rejoin).is_some();
    Ok(Rejoin { periods, is_given })
}

#[tactic(auto, unfolding(crate::specs::Configuration::files_in))]
fn take_files(table: &Table, place: &OwnPlace) -> Result<JournalFiles, ConfigFault>
    ensures { result ≡ files_in place.now (table_view table.now) }
{
    let dir = take_dir(table, place)?;
    let keep = take_number(table, ConfigKey::JournalKeep)?;
    let ms = take_number(table, ConfigKey::JournalMs)?;
    Ok(JournalFiles {
        dir,
        keep,
        unit: TimeUnit::of(ms),
    })
}

/// The configuration of these settings and members, if the detector can start so.
pub fn config_with(settings: Settings, members: &[(Id, Peer)]) -> Result<Config, ConfigFault>
    ensures { result ≡ config_with settings members.now }
{
    let Settings {
        place,
        modes,
        times,
        journal_settings,
        version,
        keys,
        fence,
        rejoin,
        files,
    } = settings;
    let seed = journal_settings.seed;
    let begins_by_clock = !keys.is_empty() && !journal_settings.is_last_given;
    match Opening::check(
        place.id,
        times.k,
        times.rtt,
        times.period,
        members,
        journal_settings.last,
        version,
    ) {
        Err(fault) => Err(ConfigFault::Opening(fault)),
        Ok(opening) => Ok(Config {
            listen: place.listen,
            control: place.control,
            events: place.events,
            metrics: place.metrics,
            modes,
            tick_ms: times.tick_ms,
            seed,
            journal: journal_settings.journal,
            keys,
            begins_by_clock,
            fence: fence.rate,
            is_fence_given: fence.is_given,
            rejoin: rejoin.periods,
            is_rejoin_given: rejoin.is_given,
            files,
            opening,
        }),
    }
}
