//! Where journal files are laid for the thread that writes them, which alone waits for their disk.

use crate::disk_sheets::{Sheet, Task};
use std::alloc::{AllocError, Global};
use std::rt::Clock;
use std::sync::{Condvar, Mutex, Wait};
use std::time::{Duration, Instant};
use swim_disk::{Draft, FileEnd, FileFault, FilePath, FileSheet, LostFile, NewFile};
use swim_metrics::FileFigures;

/// How long the end of a daemon waits for its files, in milliseconds.
const LAST_MS: u64 = 1_000;

/// How long a life waits for its file to be made, or to be kept, in milliseconds.
const KEEP_MS: u64 = 100;

/// How a file began.
#[derive(Clone, Copy)]
pub enum Begun {
    /// It is there, or will be.
    Going,
    /// It couldn't be made.
    Refused,
    /// Too many wait for the disk. It isn't made.
    TooMany,
}

/// A desk between lives, which have something to write, and the thread that writes it.
#[derive(Drop)]
pub struct DiskDesk {
    sheet: Mutex<Sheet>,
    changed: Condvar,
}

impl DiskDesk {
    /// Nothing lies on it.
    pub fn new() -> DiskDesk {
        DiskDesk {
            sheet: Mutex::new(Sheet::new()),
            changed: Condvar::new(),
        }
    }

    /// From now on it takes files. The memory for all is taken here.
    pub fn open_files<R: Wait>(&self, rt: &R, alloc: Global) -> Result<(), AllocError> {
        let files = FileSheet::new(alloc)?;
        self.sheet.lock(rt).files = Some(files);
        Ok(())
    }

    /// Begins the file of the next life. It waits a tenth of a second for it to be made, and not at all where the disk
    /// hangs.
    pub fn begin<R: Wait + Clock>(&self, rt: &R, new: NewFile) -> Begun {
        let mut sheet = self.sheet.lock(rt);
        let most = patience(rt, &*sheet, KEEP_MS);
        if !sheet.begin(new) {
            return Begun::TooMany;
        }
        self.changed.notify_all();
        let (sheet, _is_over) = self
            .changed
            .wait_timeout_while(rt, sheet, most, |sheet| sheet.is_making());
        if sheet.is_lost() {
            Begun::Refused
        } else {
            Begun::Going
        }
    }

    /// Hands over what is to be written into the newest file next. Where there is no room for it, it waits for some: half a
    /// second altogether for one file, and not at all where the disk hangs.
    pub(crate) fn add<R: Wait + Clock>(&self, rt: &R, text: &[u8]) -> Result<(), FileFault> {
        let count = text.len();
        let sheet = self.sheet.lock(rt);
        let most = sheet.patience_for(rt, count);
        let since = Instant::now(rt).ok();
        let (mut sheet, _is_over) = self
            .changed
            .wait_timeout_while(rt, sheet, most, |sheet| sheet.is_full_for(count));
        if most != Duration::ZERO {
            sheet.has_waited(rt, since);
        }
        self.changed.notify_all();
        sheet.add(text)
    }

    /// Ends the newest file, and answers how it ended as far as is known. This waits a tenth of a second for the system to
    /// keep it, and not at all where the disk hangs, or where it is known already that the file isn't whole.
    pub fn end<R: Wait + Clock>(&self, rt: &R) -> FileEnd {
        let mut sheet = self.sheet.lock(rt);
        let most = patience(rt, &*sheet, KEEP_MS);
        sheet.end();
        self.changed.notify_all();
        let (mut sheet, _is_over) = self
            .changed
            .wait_timeout_while(rt, sheet, most, |sheet| sheet.is_finishing());
        sheet.take_end()
    }

    /// How files stand, where lives have some.
    pub fn figures<R: Wait>(&self, rt: &R) -> Option<FileFigures> {
        self.sheet.lock(rt).figures()
    }

    /// Takes a file that isn't whole, of which people are to be told.
    pub fn take_lost<R: Wait>(&self, rt: &R) -> Option<LostFile> {
        self.sheet.lock(rt).take_lost()
    }

    /// Waits until the disk is done with all files that are over, a second at most.
    pub fn settle<R: Wait + Clock>(&self, rt: &R) {
        let sheet = self.sheet.lock(rt);
        let most = Duration::from_millis(LAST_MS);
        let _waited = self
            .changed
            .wait_timeout_while(rt, sheet, most, |sheet| sheet.is_unsettled());
    }

    /// Nothing more is handed over: whoever writes ends.
    pub fn close<R: Wait>(&self, rt: &R) {
        self.sheet.lock(rt).is_closed = true;
        self.changed.notify_all();
    }

    /// Waits for something to do, and takes it. Bytes for a file are laid onto the page.
    pub(crate) fn take<R: Wait + Clock>(&self, rt: &R, page: &mut [u8]) -> Task {
        let mut sheet = self.sheet.lock(rt);
        for _look in rt.forever() {
            if let Some(task) = sheet.next(page) {
                sheet.busy_since = Instant::now(rt).ok();
                self.changed.notify_all();
                return task;
            }
            sheet.busy_since = None;
            sheet = self.changed.wait(rt, sheet);
        }
        unreachable!()
    }

    /// Notes how the file of that number stands, as long as it isn't over.
    pub(crate) fn note<R: Wait + Clock>(
        &self,
        rt: &R,
        number: u64,
        path: FilePath,
        fault: Option<FileFault>,
    ) {
        let mut sheet = self.sheet.lock(rt);
        sheet.busy_since = Instant::now(rt).ok();
        if let Some(files) = &mut sheet.files {
            files.note(number, path, fault);
        }
        self.changed.notify_all();
    }

    /// Notes what became of a file that was over.
    pub(crate) fn note_end<R: Wait + Clock>(
        &self,
        rt: &R,
        draft: Draft,
        path: FilePath,
        fault: Option<FileFault>,
    ) {
        let mut sheet = self.sheet.lock(rt);
        sheet.busy_since = Instant::now(rt).ok();
        if let Some(files) = &mut sheet.files {
            files.finish(draft, path, fault);
        }
        self.changed.notify_all();
    }
}

/// How long somebody waits who would wait so many milliseconds: not at all where the disk hangs.
fn patience<K: Clock>(clock: &K, sheet: &Sheet, milliseconds: u64) -> Duration {
    if sheet.is_hanging(clock) {
        Duration::ZERO
    } else {
        Duration::from_millis(milliseconds)
    }
}
