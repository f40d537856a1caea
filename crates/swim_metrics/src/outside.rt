//! What is told beside what entries count.

ghost use Rattle.std.specs.Prelude.{◌≡◌};
ghost use Rattle.swim_metrics.specs.Families.{cut_in, is_ok, is_told};

use crate::heads::Metric;
use arrayvec::ArrayVec;
use swim_wire::Id;

/// How many keys a group has at most.
pub const MOST_FINGERPRINTS: usize = 4;

/// The fingerprint of a key: 8 hexadecimal digits, as characters. They are told as they are.
pub type Fingerprint = [u8; 8];

/// Those of a group's keys, of which the first signs.
pub type Fingerprints = ArrayVec<Fingerprint, MOST_FINGERPRINTS>;

/// How the journal files of a daemon stand.
#[derive(Clone, Copy, Debug, PartialEq, Eq)]
pub struct FileFigures {
    /// Whether the newest life has a file, of which nothing is missing as far as that is known.
    pub is_ok: bool,
    /// Lives without a whole file.
    pub cut: u64,
}

/// What the metrics tell of a daemon that isn't in its journals' entries. Counts go on over all lives.
#[derive(Clone, Copy, Debug, PartialEq, Eq)]
pub struct Outside<'a> {
    /// The version of the daemon.
    pub version: &'a str,
    /// This member.
    pub me: Id,
    /// How many milliseconds a tick has.
    pub tick_ms: u32,
    /// How many ticks a period has.
    pub period: u32,
    /// The most entries of a journal.
    pub journal_limit: u32,
    /// How many entries weren't read yet.
    pub behind: u64,
    /// Datagrams that couldn't be sent.
    pub unsent: u64,
    /// Datagrams that came and are no message.
    pub wire: u64,
    /// Calls that were refused for want of memory.
    pub refused: u64,
    /// Datagrams that came without a tag by a key of the group.
    pub forged: u64,
    /// Datagrams that came above the rate.
    pub fenced: u64,
    /// The fingerprints of the group's keys. Without keys there are none.
    pub fingerprints: &'a Fingerprints,
    /// How many watch now.
    pub watchers: u64,
    /// Watchers that didn't keep up.
    pub lost_watchers: u64,
    /// Pings to failed members beside the probes.
    pub knocks: u64,
    /// Joins that the daemon made by itself.
    pub own_joins: u64,
    /// Times that the metrics couldn't be written to their file.
    pub unwritten: u64,
    /// How journal files stand. `None` where lives have none.
    pub files: Option<FileFigures>,
}

impl<'a> Outside<'a> {
    /// Whether a metric is told: that of keys only where there are some, and those of journal files only where lives have
    /// some.
    pub(crate) fn tells(&self, metric: Metric) -> bool
        ensures { result ≡ is_told self.now metric }
    {
        match metric {
            Metric::Key => !self.fingerprints.is_empty(),
            Metric::JournalFileOk | Metric::JournalFilesCut => self.files.is_some(),
            _ => true,
        }
    }

    /// Whether the newest life's file is whole so far; not where lives have none.
    pub(crate) fn is_file_ok(&self) -> bool
        ensures { result ≡ is_ok self.now.files }
    {
        match &self.files {
            Some(files) => files.is_ok,
            None => false,
        }
    }

    /// How many lives have no whole file; 0 where none was to have one.
    pub(crate) fn files_cut(&self) -> u64
        ensures { result ≡ cut_in self.now.files }
    {
        match &self.files {
            Some(files) => files.cut,
            None => 0,
        }
    }
}
