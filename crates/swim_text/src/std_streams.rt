//! Sources and sinks over std's readers and writers, each with a buffer of its own, so that a byte is no system call.

ghost use Rattle.std.specs.Prelude.{◌≡◌, ℕ, ◌<◌, ◌≤◌, true, List, [], ◌∷◌, length, take, drop, IfSome, None};
ghost use Rattle.std.specs.Bool.{MatchBool};
ghost use Rattle.std.specs.Io.{StartsWith};
ghost use Rattle.std.specs.Io.KnownBytes.{Keeps, Appends, Consumes};
ghost use Rattle.swim_text.specs.Streams.{Gives, Puts, failures_then, failures_if};
ghost use Rattle.swim_text.specs.Buffers.{left_of, written_of, with_text};

use crate::buffers::{Buffer, flush};
use crate::streams::{Byte, Sink, Source};
use std::io::{Read, Write};
use std::marker::Model;

/// A source over a reader. It reads up to 4096 bytes at a time. A read that is interrupted is tried again; the 16th
/// interruption in a row is a fault, and so is any other failure.
#[derive(Drop)]
pub struct ReadSource<R: Read> {
    reader: R,
    buffer: Buffer,
    failures: u64,
}

impl<R: Read> Model for ReadSource<R> {
    ghost use Rattle.swim_text.specs.Buffers.{Reading};

    ghost Value = { Reading R };

    ghost view = { λ s. record { reader = s.reader; buffered = s.buffer.held; failures = s.failures } };
}

impl<R: Read> ReadSource<R> {
    /// A source over the reader, of which nothing was read yet.
    pub fn new(reader: R) -> ReadSource<R>
        ensures { result ≡ record { reader = reader; buffered = []; failures = 0 } }
    {
        ReadSource {
            reader,
            buffer: Buffer::new(),
            failures: 0,
        }
    }
}

impl<R: Read> Source for ReadSource<R> {
    ghost left = { λ s. left_of R.remaining s };

    ghost ready = { λ s. s.buffered };

    ghost given = { λ s. None };

    ghost failures = { λ s. s.failures };

    fn byte(&mut self) -> Byte
        ensures bytes { Gives (left_of R.remaining self.old) (left_of R.remaining self.new) result }
        ensures failures { self.new.failures ≡ failures_then self.old.failures result }

        // A byte that was read before is given, and the reader is let be.
        ensures buffered { (b : ℕ) (rest : List ℕ) → self.old.buffered ≡ b ∷ rest
            → (result ≡ Byte.One b) × (self.new ≡ record self.old { buffered = rest }) }
    {
        if self.buffer.is_empty() && !self.buffer.fill(&mut self.reader) {
            self.failures = self.failures.saturating_add(1);
            return Byte::Fault;
        }
        match self.buffer.pop() {
            Some(byte) => Byte::One(byte),
            None => Byte::End,
        }
    }

    fn ready(&self) -> &[u8]
        ensures bytes { result.now ≡ self.now.buffered }
        ensures front { IfSome (left_of R.remaining self.now) (λ bytes. StartsWith bytes result.now) }
    {
        self.buffer.as_slice()
    }

    fn skip(&mut self, count: usize)
        requires { count ≤ length self.old.buffered }
        ensures bytes { Consumes (left_of R.remaining self.old) (left_of R.remaining self.new)
            (take count self.old.buffered) }
        ensures ready { self.new.buffered ≡ drop count self.old.buffered }
        ensures failures { self.new.failures ≡ self.old.failures }
    {
        self.buffer.advance(count);
    }
}

/// A sink over a writer. It holds back up to 4096 bytes, and writes them where it is full or flushed. A write that is
/// interrupted is tried again; the 16th interruption in a row is a failure, and so is any other, and a write of no
/// byte. The bytes that were not written then are still held back.
#[derive(Drop)]
pub struct WriteSink<W: Write> {
    writer: W,
    buffer: Buffer,
    failures: u64,
}

impl<W: Write> Model for WriteSink<W> {
    ghost use Rattle.swim_text.specs.Buffers.{Writing};

    ghost Value = { Writing W };

    ghost view = { λ s. record {
      writer = s.writer;
      buffered = s.buffer.held;
      room = s.buffer.room;
      failures =
          s.failures;
    } };
}

impl<W: Write> WriteSink<W> {
    /// A sink over the writer, that holds nothing back.
    pub fn new(writer: W) -> WriteSink<W>
        ensures { result ≡ record { writer = writer; buffered = []; room = 4096; failures = 0 } }
    {
        WriteSink {
            writer,
            buffer: Buffer::new(),
            failures: 0,
        }
    }

    /// Takes the bytes of a text one by one, for which there may be no room at once.
    // Few texts come here, and its loop would be unrolled for each text that is told by the code.
    #[cold]
    #[inline(never)]
    fn put_each(&mut self, text: &[u8]) -> bool
        ensures bytes { Puts (written_of W.contents self.old) (written_of W.contents self.new) text.now result }
        ensures failures { self.new.failures ≡ failures_if self.old.failures result }
    {
        for byte in text {
            if !self.put_byte(*byte) {
                self.failures = self.failures.saturating_add(1);
                return false;
            }
        }
        true
    }

    /// Takes one byte; where there is no room, it first writes what it holds back.
    fn put_byte(&mut self, byte: u8) -> bool
        ensures bytes { MatchBool result
            (Appends (written_of W.contents self.old) (written_of W.contents self.new) (byte ∷ []))
            (Keeps (written_of W.contents self.old) (written_of W.contents self.new)) }
        ensures failures { self.new.failures ≡ self.old.failures }
    {
        if self.buffer.is_full() && !self.buffer.send(&mut self.writer) {
            return false;
        }
        self.buffer.push(byte);
        true
    }
}

impl<W: Write> Sink for WriteSink<W> {
    ghost written = { λ s. written_of W.contents s };

    ghost failures = { λ s. s.failures };

    ghost held = { λ s. length s.buffered };

    fn put(&mut self, text: &[u8]) -> bool
        ensures bytes { Puts (written_of W.contents self.old) (written_of W.contents self.new) text.now result }
        ensures failures { self.new.failures ≡ failures_if self.old.failures result }

        // A text for which there is room is held back.
        ensures fits { length text.now ≤ self.old.room → (result ≡ true) × (self.new ≡ with_text self.old text.now) }
    {
        if text.len() <= self.buffer.room() {
            self.buffer.append(text);
            return true;
        }
        self.put_each(text)
    }

    fn flush(&mut self) -> bool
        ensures bytes { Keeps (written_of W.contents self.old) (written_of W.contents self.new) }
        ensures failures { self.new.failures ≡ failures_if self.old.failures result }
        ensures sent { result ≡ true → (self.new.buffered ≡ []) × (self.new.room ≡ 4096) }
    {
        if self.buffer.send(&mut self.writer) && flush(&mut self.writer) {
            return true;
        }
        self.failures = self.failures.saturating_add(1);
        false
    }
}
