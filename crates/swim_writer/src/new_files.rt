//! A file that is written anew.

ghost use Rattle.std.specs.Prelude.{◌≡◌, ◌++◌, [], length, Some};
ghost use Rattle.swim_text.specs.Streams.{Puts, failures_if};

use std::fs::File;
use std::marker::Model;
use swim_text::{Sink, WriteSink};
use swim_trail::Trail;

/// The texts that a file was given, one after another. Contracts see them, and nothing else is left of them.
#[derive(Drop)]
pub struct GivenText {
    parts: Trail<()>,
}

impl Model for GivenText {
    ghost use Rattle.std.specs.Prelude.{List, ℕ, flat_map};
    ghost use Rattle.swim_writer.specs.HeldTexts.{bytes_in};

    ghost Value = { List ℕ };

    ghost view = { λ t. flat_map bytes_in t.parts.items };
}

impl GivenText {
    /// No text was given yet.
    fn new() -> GivenText
        ensures { result ≡ [] }
    {
        GivenText {
            parts: Trail::new(),
        }
    }

    /// A text more was given.
    #[tactic(auto, using(crate::proofs::HeldTexts::bytes_more))]
    fn add(&mut self, text: &[u8])
        ensures { self.new ≡ self.old ++ text.now }
    {
        self.parts.note(&(), text);
    }
}

/// A file as it is written anew. A contract sees the texts that it took whole.
#[derive(Drop)]
pub struct NewFile<'f> {
    sink: WriteSink<&'f File>,
    text: GivenText,
}

impl<'f> NewFile<'f> {
    /// A file that was given nothing yet.
    pub fn of(file: &'f File) -> NewFile<'f>
        ensures { result.text ≡ [] }
    {
        NewFile {
            sink: WriteSink::new(file),
            text: GivenText::new(),
        }
    }

    /// What it was given.
    pub fn into_text(self) -> GivenText
        ensures { result ≡ self.entry.text }
    {
        let NewFile { sink: _sink, text } = self;
        text
    }
}

impl<'f> Sink for NewFile<'f> {
    ghost written = { λ n. Some n.text };

    ghost failures = { λ n. n.sink.failures };

    ghost held = { λ n. length n.sink.buffered };

    #[tactic(auto, using(crate::proofs::HeldTexts::puts_nothing))]
    fn put(&mut self, text: &[u8]) -> bool {
        if !self.sink.put(text) {
            return false;
        }
        self.text.add(text);
        true
    }

    fn flush(&mut self) -> bool {
        self.sink.flush()
    }
}
