//! Bytes in and bytes out: what a program that answers line by line reads from and writes to.

ghost use Rattle.std.specs.Prelude.{◌≡◌, ℕ, ◌≤◌, true, List, length, take, drop, Option, IfSome};
ghost use Rattle.std.specs.Io.{StartsWith};
ghost use Rattle.std.specs.Io.KnownBytes.{Keeps, Consumes, append_known};
ghost use Rattle.swim_text.specs.Streams.{Gives, Puts, failures_then, failures_if, given_then};

/// What a read of one byte gave.
#[derive(Clone, Copy, Debug, PartialEq, Eq)]
pub enum Byte {
    /// The next byte.
    One(u8),
    /// There are no more bytes.
    End,
    /// The read failed, and took nothing. A later read may give the byte.
    Fault,
}

/// Bytes, read one by one, or as many at once as there are without waiting for more.
pub trait Source {
    // The bytes left; `None` where they are not known, as those of a terminal.
    ghost left: { Self → Option (List ℕ) };

    // The first of them, that can be had without waiting for the outside.
    ghost ready: { Self → List ℕ };

    // The bytes that it gave so far, oldest first; `None` where nobody notes them.
    ghost given: { Self → Option (List ℕ) };

    // How many reads failed; the count stops at 2^64-1.
    ghost failures: { Self → ℕ };

    /// The next byte.
    fn byte(&mut self) -> Byte
        ensures bytes { Gives (left self.old) (left self.new) result }
        ensures given { given self.new ≡ given_then (given self.old) result }
        ensures failures { failures self.new ≡ failures_then (failures self.old) result };

    /// The next bytes, as many as can be had without waiting for the outside. They are not taken yet.
    fn ready(&self) -> &[u8]
        ensures bytes { result.now ≡ ready self.now }
        ensures front { IfSome (left self.now) (λ bytes. StartsWith bytes result.now) };

    /// Takes the first `count` of the bytes that `ready` gives.
    fn skip(&mut self, count: usize)
        requires { count ≤ length (ready self.old) }
        ensures bytes { Consumes (left self.old) (left self.new) (take count (ready self.old)) }
        ensures given { given self.new ≡ append_known (given self.old) (take count (ready self.old)) }
        ensures ready { ready self.new ≡ drop count (ready self.old) }
        ensures failures { failures self.new ≡ failures self.old };
}

/// Bytes, written. A sink may hold bytes back until it is flushed.
pub trait Sink {
    // The bytes that the sink took, those that it still holds back among them; `None` where they are not known.
    ghost written: { Self → Option (List ℕ) };

    // How many writes failed; the count stops at 2^64-1.
    ghost failures: { Self → ℕ };

    // How many bytes it holds back.
    ghost held: { Self → ℕ };

    /// Takes the bytes of a text, and answers whether it took all of them. Where it did not, it took a front of them.
    fn put(&mut self, text: &[u8]) -> bool
        ensures bytes { Puts (written self.old) (written self.new) text.now result }
        ensures failures { failures self.new ≡ failures_if (failures self.old) result };

    /// Hands on the bytes that it holds back, and answers whether it could. What it could not hand on, it still holds
    /// back.
    fn flush(&mut self) -> bool
        ensures bytes { Keeps (written self.old) (written self.new) }
        ensures failures { failures self.new ≡ failures_if (failures self.old) result }
        ensures sent { result ≡ true → held self.new ≡ 0 };
}
