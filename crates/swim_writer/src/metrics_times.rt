//! When the metrics file is to be written.

use std::rt::Clock;
use std::time::{Duration, Instant};
use swim_config::SocketPath;

/// How often the file is written, in seconds.
const PAUSE_SECONDS: u64 = 10;

/// The path of the metrics file, if there is to be one, and when it was last to be written.
#[derive(Drop)]
pub struct MetricsTimes {
    path: Option<SocketPath>,
    last: Option<Instant>,
}

impl MetricsTimes {
    /// The file of this path. It wasn't to be written yet.
    pub fn new(path: Option<SocketPath>) -> MetricsTimes {
        MetricsTimes { path, last: None }
    }

    /// Whether it is time to write the file.
    pub fn is_due<K: Clock>(&self, clock: &K) -> bool {
        if self.path.is_none() {
            return false;
        }
        match &self.last {
            Some(last) => match last.elapsed(clock) {
                Ok(time) => Duration::from_secs(PAUSE_SECONDS) <= time,
                Err(_) => false,
            },
            None => true,
        }
    }

    /// The path of the file, which is written now.
    pub fn path_now<K: Clock>(&mut self, clock: &K) -> Option<&str> {
        self.last = Instant::now(clock).ok();
        self.path()
    }

    /// The path of the file.
    pub fn path(&self) -> Option<&str> {
        match &self.path {
            Some(path) => Some(path.as_str()),
            None => None,
        }
    }
}
