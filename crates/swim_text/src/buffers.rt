//! The buffer of a source or a sink.

ghost use Rattle.std.specs.Prelude.{◌≡◌, ◌+◌, ◌-◌, ◌<◌, ◌≤◌, ◌==◌, [], ◌∷◌, ◌++◌, length, take, drop, IsTrue, ◌↔◌};
ghost use Rattle.std.specs.Prelude.{IfSome, IfNone, Some, MatchOption};
ghost use Rattle.std.specs.Bool.{MatchBool};
ghost use Rattle.std.specs.Io.KnownBytes.{Keeps, Appends, Consumes, IsAtEnd, append_known};

use std::io::{ErrorKind, Read, Write};
use std::marker::Model;

/// The length of a buffer, in bytes.
const BUFFER_BYTES: usize = 4096;

/// How many reads or writes in a row may be interrupted, before they count as failed.
const TRIES: u32 = 16;

/// Bytes that wait, in the order in which they came. A contract sees them, and how many more there is room for.
#[derive(Drop)]
pub struct Buffer {
    bytes: [u8; BUFFER_BYTES],
    start: usize,
    end: usize,
}

impl Model for Buffer {
    ghost use Rattle.std.specs.Prelude.{◌-◌, ◌≤◌, slice_range};
    ghost use Rattle.swim_text.specs.Buffers.{Waiting};

    ghost Value = { Waiting };

    ghost view = { λ b. record { held = slice_range b.bytes b.start b.end; room = 4096 - b.end } };

    ghost invariant = { λ b. (b.start ≤ b.end) × (b.end ≤ 4096) };
}

impl Buffer {
    /// A buffer with no byte in it.
    pub fn new() -> Buffer
        ensures { result ≡ record { held = []; room = 4096 } }
    {
        Buffer {
            bytes: [0; BUFFER_BYTES],
            start: 0,
            end: 0,
        }
    }

    /// Whether no byte waits.
    pub fn is_empty(&self) -> bool
        ensures { IsTrue result ↔ (self.now.held ≡ []) }
    {
        self.start == self.end
    }

    /// Whether there is no room for a byte.
    pub fn is_full(&self) -> bool
        ensures { result ≡ (self.now.room == 0) }
    {
        self.end == BUFFER_BYTES
    }

    /// The bytes that wait.
    pub fn as_slice(&self) -> &[u8]
        ensures { result.now ≡ self.now.held }
    {
        &self.bytes[self.start..self.end]
    }

    /// Takes the first byte that waits, if any does.
    pub fn pop(&mut self) -> Option<u8>
        ensures { MatchOption result ((self.old.held ≡ []) × (self.new.held ≡ []))
            (λ b. self.old.held ≡ b ∷ self.new.held) }
    {
        if self.start == self.end {
            return None;
        }
        let byte = self.bytes[self.start];
        self.start += 1;
        Some(byte)
    }

    /// Puts a byte behind those that wait.
    pub fn push(&mut self, byte: u8)
        requires { 0 < self.old.room }
        ensures held { self.new.held ≡ self.old.held ++ byte ∷ [] }
        ensures room { self.new.room ≡ self.old.room - 1 }
    {
        self.bytes[self.end] = byte;
        self.end += 1;
    }

    /// How many bytes there is room for.
    pub fn room(&self) -> usize
        ensures { result ≡ self.now.room }
    {
        BUFFER_BYTES - self.end
    }

    /// Puts a text behind the bytes that wait.
    pub fn append(&mut self, text: &[u8])
        requires { length text.now ≤ self.old.room }
        ensures held { self.new.held ≡ self.old.held ++ text.now }
        ensures room { self.new.room ≡ self.old.room - length text.now }
    {
        let end = self.end + text.len();
        self.bytes[self.end..end].copy_from_slice(text);
        self.end = end;
    }

    /// Drops the first bytes that wait, and makes room where none is left.
    pub fn advance(&mut self, count: usize)
        requires { count ≤ length self.old.held }
        ensures held { self.new.held ≡ drop count self.old.held }
        ensures room { self.new.held ≡ [] → self.new.room ≡ 4096 }
    {
        self.start += count;
        if self.start == self.end {
            self.start = 0;
            self.end = 0;
        }
    }

    /// Reads bytes from the reader, where none waits, and answers whether the read was done. At the end of the reader
    /// no byte waits then either.
    pub fn fill<R: Read>(&mut self, reader: &mut R) -> bool
        requires { self.old.held ≡ [] }
        ensures bytes { MatchBool result
            (Consumes (R.remaining reader.old) (R.remaining reader.new) self.new.held
            × (self.new.held ≡ [] → IsAtEnd (R.remaining reader.new)))
            (Keeps (R.remaining reader.old) (R.remaining reader.new) × (self.new.held ≡ [])) }
    {
        match read_some(reader, &mut self.bytes) {
            Some(count) => {
                self.start = 0;
                self.end = count;
                true
            }
            None => false,
        }
    }

    /// Writes the bytes that wait, and answers whether all were written. Those that were not still wait.
    pub fn send<W: Write>(&mut self, writer: &mut W) -> bool
        ensures bytes { Keeps (append_known (W.contents writer.old) self.old.held)
            (append_known (W.contents writer.new) self.new.held) }
        ensures sent { IsTrue result → (self.new.held ≡ []) × (self.new.room ≡ 4096) }
    {
        let sent = write_each(writer, self.as_slice());
        self.advance(sent);
        self.is_empty()
    }
}

/// Reads into the bytes, and answers how many were read: none at the end. `None` where the read failed.
fn read_some<R: Read>(reader: &mut R, bytes: &mut [u8]) -> Option<usize>
    ensures within { IfSome result (λ n. n ≤ length bytes.new) }
    ensures bytes { IfSome result (λ n. Consumes (R.remaining reader.old) (R.remaining reader.new) (take n bytes.new)) }
    ensures end { 0 < length bytes.new → result ≡ Some 0 → IsAtEnd (R.remaining reader.new) }
    ensures failed { IfNone result (Keeps (R.remaining reader.old) (R.remaining reader.new)) }
{
    for _ in 0..TRIES {
        match reader.read(bytes) {
            Ok(count) => return Some(count),
            Err(error) => {
                if error.kind() != ErrorKind::Interrupted {
                    return None;
                }
            }
        }
    }
    None
}

/// Writes the bytes one after another, and answers how many were written: all of them, unless a write failed.
fn write_each<W: Write>(writer: &mut W, bytes: &[u8]) -> usize
    ensures within { result ≤ length bytes.now }
    ensures bytes { Appends (W.contents writer.old) (W.contents writer.new) (take result bytes.now) }
{
    let mut sent = 0;
    while sent < bytes.len() {
        let count = write_some(writer, &bytes[sent..]);
        if count == 0 {
            return sent;
        }
        sent += count;
    }
    sent
}

/// Writes a front of the bytes, and answers how many: none where the write failed.
fn write_some<W: Write>(writer: &mut W, bytes: &[u8]) -> usize
    ensures within { result ≤ length bytes.now }
    ensures bytes { Appends (W.contents writer.old) (W.contents writer.new) (take result bytes.now) }
{
    for _ in 0..TRIES {
        match writer.write(bytes) {
            Ok(count) => return count,
            Err(error) => {
                if error.kind() != ErrorKind::Interrupted {
                    return 0;
                }
            }
        }
    }
    0
}

/// Flushes the writer, and answers whether that was done.
pub fn flush<W: Write>(writer: &mut W) -> bool
    ensures { Keeps (W.contents writer.old) (W.contents writer.new) }
{
    for _ in 0..TRIES {
        match writer.flush() {
            Ok(()) => return true,
            Err(error) => {
                if error.kind() != ErrorKind::Interrupted {
                    return false;
                }
            }
        }
    }
    false
}
