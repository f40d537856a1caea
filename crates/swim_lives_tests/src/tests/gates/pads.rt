//! A sink and a shelf of which one call fails.

ghost use Rattle.std.specs.Prelude.{◌≡◌, None};
ghost use Rattle.std.specs.Io.KnownBytes.{Keeps};
ghost use Rattle.swim_text.specs.Streams.{Puts, failures_if};

use super::signals::{Failing, Signals};
use std::alloc::Global;
use swim_recorder::Shelf;
use swim_text::{Page, Sink};

/// A sink in memory. A put that fails takes nothing.
#[derive(Drop)]
pub struct Pad<'s> {
    /// What it took.
    pub page: Page,
    /// Tells which call fails.
    pub signals: &'s Signals,
    /// What its puts count as.
    pub puts: Failing,
    /// What its flushes count as.
    pub flushes: Failing,
    /// How many calls failed.
    pub failures: u64,
}

impl<'s> Sink for Pad<'s> {
    ghost written = { λ p. None };

    ghost failures = { λ p. p.failures };

    ghost held = { λ p. 0 };

    fn put(&mut self, text: &[u8]) -> bool
        ensures bytes { Puts None None text.now result }
        ensures failures { self.new.failures ≡ failures_if self.old.failures result }
    {
        if !self.signals.fails(self.puts) && self.page.put(text) {
            return true;
        }
        self.failures = self.failures.saturating_add(1);
        false
    }

    fn flush(&mut self) -> bool
        ensures bytes { Keeps None None }
        ensures failures { self.new.failures ≡ failures_if self.old.failures result }
    {
        if !self.signals.fails(self.flushes) {
            return true;
        }
        self.failures = self.failures.saturating_add(1);
        false
    }
}

/// A shelf with a file for each life, in memory.
#[derive(Drop)]
pub struct PadShelf<'s> {
    /// Where the files lie.
    pub alloc: Global,
    /// Tells which call fails.
    pub signals: &'s Signals,
    /// How many files it took back.
    pub back: u32,
    /// The life of the last file of which a call failed, or that isn't kept.
    pub spoilt: Option<u64>,
}

impl<'s> Shelf<Pad<'s>> for PadShelf<'s> {
    ghost fresh = { None };

    ghost opened = { λ s. None };

    ghost filed = { λ s. None };

    #[tactic(auto, using(swim_telling::specs::Notices::no_notices))]
    fn open<F: Sink>(&mut self, _number: u64, _notices: &mut F) -> Option<Pad<'s>> {
        if self.signals.fails(Failing::Open) {
            return None;
        }
        Some(Pad {
            page: Page::new(self.alloc),
            signals: self.signals,
            puts: Failing::File,
            flushes: Failing::FileSent,
            failures: 0,
        })
    }

    #[tactic(auto, using(swim_telling::specs::Notices::no_notices, swim_recorder::specs::Filed::unknown_back))]
    fn close<F: Sink>(&mut self, number: u64, sink: Pad<'s>, _notices: &mut F) -> bool {
        let is_kept = !self.signals.fails(Failing::Close);
        if sink.failures > 0 || !is_kept {
            self.spoilt = Some(number);
        }
        self.back = self.back.saturating_add(1);
        is_kept
    }
}
