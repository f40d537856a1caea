//! Who has files written, so that only other threads wait for their disks.

ghost use Rattle.swim_text.specs.Streams.{Puts};

use crate::counters::Figures;
use crate::metrics_desks::MetricsDesk;
use std::alloc::{AllocError, Global};
use std::rt::Clock;
use std::sync::{Arc, Wait};
use swim_disk::LostFile;
use swim_metrics::FileFigures;
use swim_text::Sink;
use swim_writer::{DiskDesk, Unwritten};

/// Who is handed what is to be written, and has it written. It waits for no disk.
pub trait Clerk {
    /// Hands over figures for the metrics file of that path, in place of earlier ones that aren't being written yet.
    fn hand_over<R: Wait>(&self, rt: &R, path: &str, figures: Figures);

    /// Takes why the last figures weren't written, if they weren't and nobody asked for it yet.
    fn fault<R: Wait>(&self, rt: &R) -> Option<Unwritten>;

    /// Waits until all that was handed over is written, a second at most for the metrics and for the journal files each.
    fn settle<R: Wait + Clock>(&self, rt: &R);

    /// The desk on which journal files are laid.
    fn desk(&self) -> Result<Arc<DiskDesk, Global>, AllocError>;

    /// Takes a journal file that isn't whole, of which people are to be told.
    fn take_lost<R: Wait>(&self, rt: &R) -> Option<LostFile>;

    /// How journal files stand, where lives have some.
    fn files<R: Wait>(&self, rt: &R) -> Option<FileFigures>;
}

/// The desks of a program: for journal files, and for the metrics.
#[derive(Drop)]
pub struct Desks {
    /// For journal files.
    pub journals: Arc<DiskDesk, Global>,
    /// For the metrics.
    pub metrics: Arc<MetricsDesk, Global>,
}

impl Desks {
    /// Nothing lies on them.
    pub fn new(alloc: Global) -> Result<Desks, AllocError> {
        Ok(Desks {
            journals: Arc::new(alloc, DiskDesk::new())?,
            metrics: Arc::new(alloc, MetricsDesk::new())?,
        })
    }

    /// The same, for another thread.
    pub fn shared(&self) -> Result<Desks, AllocError> {
        Ok(Desks {
            journals: Arc::try_clone(&self.journals)?,
            metrics: Arc::try_clone(&self.metrics)?,
        })
    }

    /// Nothing more is laid on them.
    pub fn close<R: Wait>(&self, rt: &R) {
        self.metrics.close(rt);
        self.journals.close(rt);
    }
}

/// A log over a sink, whose clerk lays on desks what is to be written.
#[derive(Drop)]
pub struct Log<'d, W: Sink + Drop> {
    sink: W,
    desks: &'d Desks,
}

impl<'d, W: Sink + Drop> Log<'d, W> {
    /// A log over this sink, with those desks.
    pub fn new(sink: W, desks: &'d Desks) -> Log<'d, W> {
        Log { sink, desks }
    }
}

impl<'d, W: Sink + Drop> Sink for Log<'d, W> {
    ghost written = { λ l. W.written l.sink };

    ghost failures = { λ l. W.failures l.sink };

    ghost held = { λ l. W.held l.sink };

    fn put(&mut self, text: &[u8]) -> bool {
        self.sink.put(text)
    }

    fn flush(&mut self) -> bool {
        self.sink.flush()
    }
}

impl<'d, W: Sink + Drop> Clerk for Log<'d, W> {
    fn hand_over<R: Wait>(&self, rt: &R, path: &str, figures: Figures) {
        self.desks.metrics.hand_over(rt, path, figures);
    }

    fn fault<R: Wait>(&self, rt: &R) -> Option<Unwritten> {
        self.desks.metrics.fault(rt)
    }

    fn settle<R: Wait + Clock>(&self, rt: &R) {
        self.desks.metrics.settle(rt);
        self.desks.journals.settle(rt);
    }

    fn desk(&self) -> Result<Arc<DiskDesk, Global>, AllocError> {
        Arc::try_clone(&self.desks.journals)
    }

    fn take_lost<R: Wait>(&self, rt: &R) -> Option<LostFile> {
        self.desks.journals.take_lost(rt)
    }

    fn files<R: Wait>(&self, rt: &R) -> Option<FileFigures> {
        self.desks.journals.figures(rt)
    }
}
