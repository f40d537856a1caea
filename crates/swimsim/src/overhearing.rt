//! A source that somebody else overhears.

ghost use Rattle.std.specs.Prelude.{◌≡◌, ◌≤◌, length, take, drop, IfSome};
ghost use Rattle.std.specs.Io.{StartsWith};
ghost use Rattle.std.specs.Io.KnownBytes.{Consumes, append_known};
ghost use Rattle.swim_text.specs.Streams.{Gives, failures_then, given_then};

use std::marker::Model;
use swim_text::{Byte, Source};

/// Who overhears the bytes of a source.
pub trait Listener {
    /// This byte was taken.
    fn note(&mut self, byte: u8);

    /// There was no more byte.
    fn end(&mut self);
}

/// A source over another, with the same bytes, each of which is overheard when it is taken.
#[derive(Drop)]
pub struct Overheard<R: Source, L: Listener> {
    reader: R,
    listener: L,
}

// A contract sees the other source.
impl<R: Source, L: Listener> Model for Overheard<R, L> {
    ghost Value = { R };

    ghost view = { λ s. s.reader };
}

impl<R: Source, L: Listener> Overheard<R, L> {
    /// The source, with who overhears it.
    pub fn new(reader: R, listener: L) -> Overheard<R, L>
        ensures { result ≡ reader }
    {
        Overheard { reader, listener }
    }
}

impl<R: Source, L: Listener> Source for Overheard<R, L> {
    ghost left = { λ s. R.left s };

    ghost ready = { λ s. R.ready s };

    ghost given = { λ s. R.given s };

    ghost failures = { λ s. R.failures s };

    fn byte(&mut self) -> Byte
        ensures bytes { Gives (R.left self.old) (R.left self.new) result }
        ensures given { R.given self.new ≡ given_then (R.given self.old) result }
        ensures failures { R.failures self.new ≡ failures_then (R.failures self.old) result }
    {
        let met = self.reader.byte();
        match met {
            Byte::One(byte) => self.listener.note(byte),
            Byte::End => self.listener.end(),
            Byte::Fault => {}
        }
        met
    }

    fn ready(&self) -> &[u8]
        ensures bytes { result.now ≡ R.ready self.now }
        ensures front { IfSome (R.left self.now) (λ bytes. StartsWith bytes result.now) }
    {
        self.reader.ready()
    }

    fn skip(&mut self, count: usize)
        requires { count ≤ length (R.ready self.old) }
        ensures bytes { Consumes (R.left self.old) (R.left self.new)
            (take count (R.ready self.old)) }
        ensures given { R.given self.new ≡ append_known (R.given self.old) (take count (R.ready self.old)) }
        ensures ready { R.ready self.new ≡ drop count (R.ready self.old) }
        ensures failures { R.failures self.new ≡ R.failures self.old }
    {
        let (taken, _) = self.reader.ready().split_at(count);
        note_all(&mut self.listener, taken);
        self.reader.skip(count);
    }
}

fn note_all<L: Listener>(listener: &mut L, bytes: &[u8]) {
    for byte in bytes {
        listener.note(*byte);
    }
}
