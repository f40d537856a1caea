//! When the periods of a run began, as its journal file tells it.

use arrayvec::ArrayString;
use jiff::Timestamp;
use std::collections::BTreeMap;
use std::fmt::{self, Write};

/// Room for a time in UTC.
const UTC_BYTES: usize = 32;

/// A time since 1970, as a comment of a journal file tells it.
#[derive(Clone, Copy, Debug, PartialEq, Eq)]
pub struct StartTime {
    pub seconds: u64,
    /// The milliseconds behind them, less than 1000, where the file tells them.
    pub milliseconds: Option<u16>,
}

/// When periods began, by the places of their starts.
pub type Times = BTreeMap<u32, StartTime>;

impl StartTime {
    /// Returns the time in UTC, with milliseconds if the file tells them. `None` if there is none, as beyond the year
    /// 9999.
    pub fn utc(&self) -> Option<UtcTime> {
        let time = Timestamp::from_millisecond(self.since_1970()?).ok()?;
        let mut text = ArrayString::new();
        let written = match self.milliseconds {
            None => write!(text, "{time}"),
            Some(_) => write!(text, "{time:.3}"),
        };
        written.ok()?;
        Some(UtcTime { text })
    }

    /// Returns all its milliseconds, if they fit.
    fn since_1970(&self) -> Option<i64> {
        let behind = u64::from(self.milliseconds.unwrap_or(0));
        let all = self.seconds.checked_mul(1_000)?.checked_add(behind)?;
        i64::try_from(all).ok()
    }
}

impl fmt::Display for StartTime {
    fn fmt<W: fmt::Write>(&self, f: &mut fmt::Formatter<W>) -> fmt::Result {
        let seconds = self.seconds;
        match self.milliseconds {
            None => write!(f, "{seconds}"),
            Some(milliseconds) => write!(f, "{seconds}.{milliseconds:03}"),
        }
    }
}

/// A time in UTC, as RFC 3339 has it.
#[derive(Clone, Copy)]
pub struct UtcTime {
    text: ArrayString<UTC_BYTES>,
}

impl UtcTime {
    /// Returns the whole text, as `2026-11-29T12:00:00Z`.
    pub fn as_str(&self) -> &str {
        self.text.as_str()
    }

    /// Returns its date, as `2026-11-29`.
    pub fn date(&self) -> &str {
        match self.as_str().split_once('T') {
            Some((date, _)) => date,
            None => "",
        }
    }

    /// Returns its time of day, as `12:00:00`.
    pub fn time_of_day(&self) -> &str {
        match self.as_str().split_once('T') {
            Some((_, time)) => before_zone(time),
            None => "",
        }
    }
}

impl fmt::Display for UtcTime {
    fn fmt<W: fmt::Write>(&self, f: &mut fmt::Formatter<W>) -> fmt::Result {
        f.write_str(self.as_str())
    }
}

/// What stands before the letter of the zone.
fn before_zone(time: &str) -> &str {
    match time.split_once('Z') {
        Some((time, _)) => time,
        None => time,
    }
}
