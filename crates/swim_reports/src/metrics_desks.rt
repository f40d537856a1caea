//! Where figures are laid for the thread that writes the metrics file, which alone waits for its disk.

use crate::counters::Figures;
use arrayvec::ArrayString;
use std::fs::File;
use std::io::ErrorKind;
use std::mem;
use std::rt::{Clock, Files};
use std::sync::{Condvar, Mutex, Wait};
use std::time::Duration;
use swim_writer::{MetricsFiles, Unwritten};

/// How long the end of a daemon waits for its last figures to be written, in milliseconds.
const LAST_MS: u64 = 1_000;

/// How many bytes the path of the file has at most.
const PATH_BYTES: usize = 100;

/// Figures, and the path of the file that is to tell them.
#[derive(Drop)]
struct Handed {
    path: ArrayString<PATH_BYTES>,
    figures: Figures,
}

/// What lies on a desk.
#[derive(Drop)]
struct Sheet {
    // What nobody took yet.
    handed: Option<Handed>,
    // Whether something was taken and isn't written yet.
    is_busy: bool,
    // Why the last figures weren't written, if they weren't and nobody asked for it yet.
    fault: Option<Unwritten>,
    // Whether nothing more is handed over.
    is_closed: bool,
}

/// A desk between those who have figures and the thread that writes them to a file.
#[derive(Drop)]
pub struct MetricsDesk {
    sheet: Mutex<Sheet>,
    changed: Condvar,
}

impl MetricsDesk {
    /// Nothing lies on it.
    pub(crate) fn new() -> MetricsDesk {
        MetricsDesk {
            sheet: Mutex::new(Sheet {
                handed: None,
                is_busy: false,
                fault: None,
                is_closed: false,
            }),
            changed: Condvar::new(),
        }
    }

    /// Hands figures over for the file of that path, in place of earlier ones that nobody took. A path has at most 100
    /// bytes. Where the desk is closed, as there was no thread to write them, they aren't written.
    pub(crate) fn hand_over<R: Wait>(&self, rt: &R, path: &str, figures: Figures) {
        let mut own = ArrayString::new();
        let _is_whole = own.try_push_str(path);
        let mut sheet = self.sheet.lock(rt);
        if sheet.is_closed {
            sheet.fault = Some(Unwritten::Refused(ErrorKind::OutOfMemory));
            return;
        }
        sheet.handed = Some(Handed { path: own, figures });
        self.changed.notify_all();
    }

    /// Nothing more is handed over: whoever writes ends.
    pub fn close<R: Wait>(&self, rt: &R) {
        self.sheet.lock(rt).is_closed = true;
        self.changed.notify_all();
    }

    /// Takes why the last figures weren't written, if they weren't and nobody asked for it yet.
    pub(crate) fn fault<R: Wait>(&self, rt: &R) -> Option<Unwritten> {
        let mut sheet = self.sheet.lock(rt);
        mem::replace(&mut sheet.fault, None)
    }

    /// Waits until all that was handed over is written, a second at most.
    pub(crate) fn settle<R: Wait + Clock>(&self, rt: &R) {
        let sheet = self.sheet.lock(rt);
        let most = Duration::from_millis(LAST_MS);
        let _waited = self.changed.wait_timeout_while(rt, sheet, most, |sheet| {
            sheet.is_busy || sheet.handed.is_some()
        });
    }

    /// Writes the file each time figures are handed over, until the desk is closed.
    pub fn write_on<R: Files<File = File> + Wait>(&self, rt: &R) {
        let mut files = MetricsFiles::new(rt);
        for _turn in rt.forever() {
            let Some(Handed { path, figures }) = self.take(rt) else {
                return;
            };
            let outside = figures.outside();
            let written = files.write(path.as_str(), figures.measures(), &outside);
            self.report(rt, written);
        }
    }

    /// Waits for figures, and takes them. `None` once the desk is closed.
    fn take<R: Wait>(&self, rt: &R) -> Option<Handed> {
        let mut sheet = self.sheet.lock(rt);
        for _look in rt.forever() {
            if sheet.handed.is_some() {
                sheet.is_busy = true;
                return mem::replace(&mut sheet.handed, None);
            }
            if sheet.is_closed {
                return None;
            }
            sheet = self.changed.wait(rt, sheet);
        }
        unreachable!()
    }

    /// Notes what came of the figures that were taken.
    fn report<R: Wait>(&self, rt: &R, written: Result<(), Unwritten>) {
        let mut sheet = self.sheet.lock(rt);
        sheet.is_busy = false;
        sheet.fault = written.err();
        self.changed.notify_all();
    }
}
