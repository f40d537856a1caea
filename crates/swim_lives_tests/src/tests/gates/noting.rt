//! The two ends of an operator's connection, which note what passes through them.

ghost use Rattle.std.specs.Prelude.{◌≡◌, [], Some};
ghost use Rattle.std.specs.List.{flat_map};
ghost use Rattle.swim_devices.specs.Trails.{bytes_in};

use swim_text::{Byte, Look, Polled, Sink, Source};
use swim_trail::Trail;

/// A reader that notes the bytes that it gave.
#[derive(Drop)]
pub struct NotingReader<S: Polled + Drop> {
    reader: S,
    given: Trail<()>,
}

impl<S: Polled + Drop> NotingReader<S> {
    /// A reader that gives what that one gives. It gave nothing yet.
    pub fn over(reader: S) -> NotingReader<S>
        ensures { Some (flat_map bytes_in result.given.items) ≡ Some [] }
    {
        NotingReader {
            reader,
            given: Trail::new(),
        }
    }
}

impl<S: Polled + Drop> Source for NotingReader<S> {
    ghost left = { λ noting. S.left noting.reader };

    ghost ready = { λ noting. S.ready noting.reader };

    ghost given = { λ noting. Some (flat_map bytes_in noting.given.items) };

    ghost failures = { λ noting. S.failures noting.reader };

    #[tactic(auto, using(swim_devices::specs::Trails::bytes_more))]
    fn byte(&mut self) -> Byte {
        match self.reader.byte() {
            Byte::One(byte) => {
                self.given.note(&(), &[byte]);
                Byte::One(byte)
            }
            Byte::End => Byte::End,
            Byte::Fault => Byte::Fault,
        }
    }

    fn ready(&self) -> &[u8] {
        self.reader.ready()
    }

    #[tactic(auto, using(swim_devices::specs::Trails::bytes_more))]
    fn skip(&mut self, count: usize) {
        self.given.note(&(), &self.reader.ready()[..count]);
        self.reader.skip(count);
    }
}

impl<S: Polled + Drop> Polled for NotingReader<S> {
    fn look(&mut self) -> Look {
        self.reader.look()
    }
}

/// A writer that notes the texts that were put whole.
#[derive(Drop)]
pub struct NotingWriter<W: Sink + Drop> {
    writer: W,
    put: Trail<()>,
}

impl<W: Sink + Drop> NotingWriter<W> {
    /// A writer into that one. Nothing was put yet.
    pub fn over(writer: W) -> NotingWriter<W>
        ensures { Some (flat_map bytes_in result.put.items) ≡ Some [] }
    {
        NotingWriter {
            writer,
            put: Trail::new(),
        }
    }
}

impl<W: Sink + Drop> Sink for NotingWriter<W> {
    ghost written = { λ noting. Some (flat_map bytes_in noting.put.items) };

    ghost failures = { λ noting. W.failures noting.writer };

    ghost held = { λ noting. W.held noting.writer };

    #[tactic(auto, using(swim_devices::specs::Trails::bytes_more, swim_devices::proofs::Streamed::none_put))]
    fn put(&mut self, text: &[u8]) -> bool {
        if !self.writer.put(text) {
            return false;
        }
        self.put.note(&(), text);
        true
    }

    fn flush(&mut self) -> bool {
        self.writer.flush()
    }
}
