//! The journal files of a configuration.

ghost use Rattle.std.specs.Prelude.{◌≡◌};
ghost use Rattle.swim_config.specs.Configuration.{told_keep, told_ms, told_unit, unit_of};

use crate::socket_path::SocketPath;

/// The unit to which a time is told.
#[derive(Clone, Copy, Debug, PartialEq, Eq)]
pub enum TimeUnit {
    /// In whole seconds.
    Seconds,
    /// In seconds, with three digits behind the point.
    Milliseconds,
}

impl TimeUnit {
    /// Returns the unit that a number of the key `journal_ms` says.
    pub(crate) fn of(number: u64) -> TimeUnit
        ensures { result ≡ unit_of number }
    {
        if number == 0 {
            TimeUnit::Seconds
        } else {
            TimeUnit::Milliseconds
        }
    }

    /// Returns the number of the key, where it isn't its default, which goes without saying.
    fn told(self) -> Option<u64>
        ensures { result ≡ told_unit self }
    {
        match self {
            TimeUnit::Seconds => None,
            TimeUnit::Milliseconds => Some(1),
        }
    }
}

/// The journal files.
#[derive(Debug, Drop)]
pub struct JournalFiles {
    /// The folder in which they are made; not the path of another key. `None`: none are.
    pub dir: Option<SocketPath>,
    /// How many of them stay, the newest; 0 for all.
    pub keep: u64,
    /// The unit to which they tell when periods began.
    pub unit: TimeUnit,
}

impl JournalFiles {
    /// Returns how many files stay, where some are made.
    pub(crate) fn told_keep(&self) -> Option<u64>
        ensures { result ≡ told_keep self.now }
    {
        if self.dir.is_some() {
            Some(self.keep)
        } else {
            None
        }
    }

    /// Returns the number of `journal_ms`, where files are made and it isn't its default.
    pub(crate) fn told_ms(&self) -> Option<u64>
        ensures { result ≡ told_ms self.now }
    {
        match &self.dir {
            Some(_) => self.unit.told(),
            None => None,
        }
    }
}
