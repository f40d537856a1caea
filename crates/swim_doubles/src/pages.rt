//! A sink in memory that fails where it is told to.

ghost use Rattle.std.specs.Prelude.{◌≡◌, ◌↔◌, [], Some, false};
ghost use Rattle.std.specs.Io.KnownBytes.{Keeps};
ghost use Rattle.swim_doubles.specs.Countdowns.{counted_down};
ghost use Rattle.swim_text.specs.Streams.{Puts, failures_if};

use crate::countdowns::is_due;
use std::alloc::Global;
use std::marker::Model;
use swim_text::{Page, Sink};

/// A page that also fails at one put and at one flush, where it is told to.
#[derive(Drop)]
pub struct FailingPage {
    page: Page,
    put_fails_in: Option<u32>,
    flush_fails_in: Option<u32>,
    failures: u64,
}

impl Model for FailingPage {
    ghost use Rattle.swim_doubles.specs.Pages.{FailingPageState};

    ghost Value = { FailingPageState };

    ghost view = { λ p. record {
      text = p.page.text;
      put_fails_in = p.put_fails_in;
      flush_fails_in =
          p.flush_fails_in;
      failures = p.failures;
    } };
}

impl FailingPage {
    /// A page with no byte in it. After so many puts one fails, and takes nothing; after so many flushes one fails.
    /// `None`: none does.
    pub fn new(alloc: Global, puts: Option<u32>, flushes: Option<u32>) -> FailingPage
        ensures { result ≡ record { text = []; put_fails_in = puts; flush_fails_in = flushes; failures = 0 } }
    {
        FailingPage {
            page: Page::new(alloc),
            put_fails_in: puts,
            flush_fails_in: flushes,
            failures: 0,
        }
    }

    /// The bytes that were put.
    pub fn text(&self) -> &[u8]
        ensures { result.now ≡ self.now.text }
    {
        self.page.text()
    }
}

impl Sink for FailingPage {
    ghost written = { λ p. Some p.text };

    ghost failures = { λ p. p.failures };

    ghost held = { λ p. 0 };

    fn put(&mut self, text: &[u8]) -> bool
        ensures bytes { Puts (Some self.old.text) (Some self.new.text) text.now result }
        ensures failures { self.new.failures ≡ failures_if self.old.failures result }
        ensures whole { result ≡ false → self.new.text ≡ self.old.text }
        ensures fails { self.old.put_fails_in ≡ Some 0 → result ≡ false }
        ensures later { self.new.put_fails_in ≡ counted_down self.old.put_fails_in }
        ensures flushes { self.new.flush_fails_in ≡ self.old.flush_fails_in }
    {
        if !is_due(&mut self.put_fails_in) && self.page.put(text) {
            return true;
        }
        self.failures = self.failures.saturating_add(1);
        false
    }

    fn flush(&mut self) -> bool
        ensures bytes { Keeps (Some self.old.text) (Some self.new.text) }
        ensures failures { self.new.failures ≡ failures_if self.old.failures result }
        ensures fails { (result ≡ false) ↔ (self.old.flush_fails_in ≡ Some 0) }
        ensures later { self.new.flush_fails_in ≡ counted_down self.old.flush_fails_in }
        ensures puts { self.new.put_fails_in ≡ self.old.put_fails_in }
    {
        if !is_due(&mut self.flush_fails_in) && self.page.flush() {
            return true;
        }
        self.failures = self.failures.saturating_add(1);
        false
    }
}
