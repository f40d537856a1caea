//! What lies on the desk of the disk.

use std::rt::Clock;
use std::time::{Duration, Instant};
use swim_disk::{FileEnd, FileFault, FileSheet, FileTask, LostFile, NewFile};
use swim_metrics::FileFigures;

/// A disk hangs that isn't done with one thing after so many milliseconds.
const HANGS_MS: u64 = 500;

/// How long a file waits for room altogether, in milliseconds. Without a limit to all its waits together, a disk that is
/// slow and doesn't hang would hold up the end of a life by one wait after the other.
const ROOM_MS: u64 = 500;

/// What the disk has to do next.
#[derive(Drop)]
pub enum Task {
    /// Something for a journal file.
    File(FileTask),
    /// Nothing more will come.
    End,
}

/// What lies on a desk.
#[derive(Drop)]
pub struct Sheet {
    /// What is known of journal files. `None` where there are none.
    pub files: Option<FileSheet>,
    /// Whether nothing more is handed over.
    pub is_closed: bool,
    /// Since when the disk is at something, if it is.
    pub busy_since: Option<Instant>,
    // How long the newest file may still wait for room.
    room_left: Duration,
}

impl Sheet {
    /// Nothing.
    pub fn new() -> Sheet {
        Sheet {
            files: None,
            is_closed: false,
            busy_since: None,
            room_left: Duration::ZERO,
        }
    }

    /// What is to be done next, if there is something. Bytes for a file are laid onto the page.
    pub fn next(&mut self, page: &mut [u8]) -> Option<Task> {
        if let Some(files) = &mut self.files {
            if let Some(task) = files.next(page) {
                return Some(Task::File(task));
            }
        }
        if self.is_closed {
            Some(Task::End)
        } else {
            None
        }
    }

    /// Whether the disk hangs.
    pub fn is_hanging<K: Clock>(&self, clock: &K) -> bool {
        match &self.busy_since {
            Some(since) => match since.elapsed(clock) {
                Ok(time) => Duration::from_millis(HANGS_MS) <= time,
                Err(_) => true,
            },
            None => false,
        }
    }

    /// How long the newest file may wait for room for so many bytes: not at all where there is some, or where the disk
    /// hangs.
    pub fn patience_for<K: Clock>(&self, clock: &K, count: usize) -> Duration {
        if self.is_full_for(count) && !self.is_hanging(clock) {
            self.room_left
        } else {
            Duration::ZERO
        }
    }

    /// Notes that the newest file waited for room since then, as far as is known.
    pub fn has_waited<K: Clock>(&mut self, clock: &K, since: Option<Instant>) {
        let time = match since {
            Some(since) => since.elapsed(clock).unwrap_or(self.room_left),
            None => self.room_left,
        };
        self.room_left = self.room_left.saturating_sub(time);
    }

    /// Whether the disk has yet to make the newest file.
    pub fn is_making(&self) -> bool {
        match &self.files {
            Some(files) => files.is_making(),
            None => false,
        }
    }

    /// Whether the disk may yet write all that is left of the newest file.
    pub fn is_finishing(&self) -> bool {
        match &self.files {
            Some(files) => files.is_finishing(),
            None => false,
        }
    }

    /// Whether the disk isn't done with all files that are over.
    pub fn is_unsettled(&self) -> bool {
        match &self.files {
            Some(files) => files.is_unsettled(),
            None => false,
        }
    }

    /// Whether there is no room yet for so many bytes of the newest file.
    pub fn is_full_for(&self, count: usize) -> bool {
        match &self.files {
            Some(files) => files.is_full_for(count),
            None => false,
        }
    }

    /// Begins a file. `false` where too many wait, or there are none.
    pub fn begin(&mut self, new: NewFile) -> bool {
        self.room_left = Duration::from_millis(ROOM_MS);
        match &mut self.files {
            Some(files) => files.begin(new),
            None => false,
        }
    }

    /// Adds a text to the newest file.
    pub fn add(&mut self, text: &[u8]) -> Result<(), FileFault> {
        match &mut self.files {
            Some(files) => files.add(text),
            None => Err(FileFault::Slow),
        }
    }

    /// Whether the newest file is known not to be whole.
    pub fn is_lost(&self) -> bool {
        match &self.files {
            Some(files) => files.fault().is_some(),
            None => false,
        }
    }

    /// Ends the newest file.
    pub fn end(&mut self) {
        if let Some(files) = &mut self.files {
            files.end();
        }
    }

    /// How the newest file ended, as far as is known.
    pub fn take_end(&mut self) -> FileEnd {
        match &mut self.files {
            Some(files) => files.take_end(),
            None => FileEnd::Whole,
        }
    }

    /// How files stand.
    pub fn figures(&self) -> Option<FileFigures> {
        let files = self.files.as_ref()?;
        Some(FileFigures {
            is_ok: files.is_ok(),
            cut: files.cut,
        })
    }

    /// Takes a file of which people are to be told.
    pub fn take_lost(&mut self) -> Option<LostFile> {
        match &mut self.files {
            Some(files) => files.take_lost(),
            None => None,
        }
    }
}
