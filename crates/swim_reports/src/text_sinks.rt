//! A sink that keeps a text.

ghost use Rattle.std.specs.Prelude.{◌≡◌, ◌≤◌, [], Some, length};
ghost use Rattle.swim_text.specs.Streams.{Puts, failures_if};

use arrayvec::ArrayVec;
use swim_text::Sink;

/// A sink that keeps what it is given, as long as there is room.
#[derive(Drop)]
pub struct TextSink<const BYTES: usize> {
    text: ArrayVec<u8, BYTES>,
    failures: u64,
}

impl<const BYTES: usize> TextSink<BYTES> {
    /// It was given nothing yet.
    pub fn new() -> TextSink<BYTES>
        ensures { result.text.items ≡ [] }
    {
        TextSink {
            text: ArrayVec::new(),
            failures: 0,
        }
    }

    /// Keeps this text in place of what it was given.
    pub fn restart_with(&mut self, text: &[u8])
        requires { length text.now ≤ BYTES }
        ensures { self.new.text.items ≡ text.now }
    {
        self.text.clear();
        let _is_added = self.text.try_extend_from_slice(text);
    }

    /// What it was given.
    pub fn into_text(self) -> ArrayVec<u8, BYTES>
        ensures { result ≡ self.entry.text }
    {
        self.text
    }
}

impl<const BYTES: usize> Sink for TextSink<BYTES> {
    ghost written = { λ s. Some s.text.items };

    ghost failures = { λ s. s.failures };

    ghost held = { λ s. 0 };

    fn put(&mut self, text: &[u8]) -> bool {
        let is_taken = self.text.try_extend_from_slice(text).is_ok();
        if !is_taken {
            self.failures = self.failures.saturating_add(1);
        }
        is_taken
    }

    fn flush(&mut self) -> bool {
        true
    }
}
