//! A sink in memory.

ghost use Rattle.std.specs.Prelude.{◌≡◌, [], Some, true, false};
ghost use Rattle.std.specs.Io.KnownBytes.{Keeps};
ghost use Rattle.swim_text.specs.Streams.{Puts, failures_if};

use crate::streams::Sink;
use std::alloc::Global;
use std::marker::Model;

/// A sink whose bytes can be looked at. It fails where its memory runs out, and nowhere else.
#[derive(Drop)]
pub struct Page {
    text: Vec<u8>,
    failures: u64,
}

impl Model for Page {
    ghost use Rattle.swim_text.specs.Memory.{PageState};

    ghost Value = { PageState };

    ghost view = { λ p. record { text = p.text.items; failures = p.failures } };
}

impl Page {
    /// A sink with no byte in it.
    pub fn new(alloc: Global) -> Page
        ensures { result ≡ record { text = []; failures = 0 } }
    {
        Page {
            text: Vec::new(alloc),
            failures: 0,
        }
    }

    /// The bytes that were put.
    pub fn text(&self) -> &[u8]
        ensures { result.now ≡ self.now.text }
    {
        self.text.as_slice()
    }
}

impl Sink for Page {
    ghost written = { λ p. Some p.text };

    ghost failures = { λ p. p.failures };

    ghost held = { λ p. 0 };

    fn put(&mut self, text: &[u8]) -> bool
        ensures bytes { Puts (Some self.old.text) (Some self.new.text) text.now result }
        ensures failures { self.new.failures ≡ failures_if self.old.failures result }
        ensures whole { result ≡ false → self.new.text ≡ self.old.text }
    {
        if self.text.extend_from_slice(text).is_ok() {
            return true;
        }
        self.failures = self.failures.saturating_add(1);
        false
    }

    fn flush(&mut self) -> bool
        ensures bytes { Keeps (Some self.old.text) (Some self.new.text) }
        ensures failures { self.new.failures ≡ failures_if self.old.failures result }
        ensures done { result ≡ true }
    {
        // Nothing is held back.
        true
    }
}
