//! A source in memory that fails where it is told to.

ghost use Rattle.std.specs.Prelude.{◌≡◌, ◌↔◌, ◌≤◌, length, take, drop, Some, None, false};
ghost use Rattle.std.specs.Prelude.{IfSome};
ghost use Rattle.std.specs.Io.{StartsWith};
ghost use Rattle.std.specs.Io.BufRead.{take_through};
ghost use Rattle.std.specs.Io.KnownBytes.{Consumes};
ghost use Rattle.swim_doubles.specs.Countdowns.{counted_down};
ghost use Rattle.swim_doubles.specs.Texts.{is_in_line, ready_of};
ghost use Rattle.swim_text.specs.Polled.{Looks};
ghost use Rattle.swim_text.specs.Streams.{Gives, failures_then};

use crate::countdowns::is_due;
use std::marker::Model;
use swim_text::{Byte, Look, Polled, Source, cut};

/// A source over bytes in memory. Like a terminal, it is ready within a line, and not where one begins: it gives the
/// rest of the line at once. While it is yet to fail it is never ready, so that its bytes are read one by one up to
/// the failure.
#[derive(Drop)]
pub struct Text<'a> {
    left: &'a [u8],
    is_in_line: bool,
    fails_in: Option<u32>,
    failures: u64,
}

impl<'a> Model for Text<'a> {
    ghost use Rattle.swim_doubles.specs.Texts.{TextState};

    ghost Value = { TextState };

    ghost view = { λ t. record {
      left = t.left.now;
      in_line = t.is_in_line;
      fails_in = t.fails_in;
      failures =
          t.failures;
    } };
}

impl<'a> Text<'a> {
    /// A source of these bytes, that does not fail.
    pub fn new(bytes: &'a [u8]) -> Text<'a>
        ensures { result ≡ record { left = bytes.now; in_line = false; fails_in = None; failures = 0 } }
    {
        Text {
            left: bytes,
            is_in_line: false,
            fails_in: None,
            failures: 0,
        }
    }

    /// A source of these bytes that answers so many calls of `byte`, fails once, and then goes on.
    pub fn failing_after(bytes: &'a [u8], calls: u32) -> Text<'a>
        ensures { result ≡ record { left = bytes.now; in_line = false; fails_in = Some calls; failures = 0 } }
    {
        Text {
            left: bytes,
            is_in_line: false,
            fails_in: Some(calls),
            failures: 0,
        }
    }
}

impl<'a> Source for Text<'a> {
    ghost left = { λ t. Some t.left };

    ghost ready = { λ t. ready_of t };

    ghost given = { λ t. None };

    ghost failures = { λ t. t.failures };

    fn byte(&mut self) -> Byte
        ensures bytes { Gives (Some self.old.left) (Some self.new.left) result }
        ensures failures { self.new.failures ≡ failures_then self.old.failures result }
        ensures fails { (result ≡ Byte.Fault) ↔ (self.old.fails_in ≡ Some 0) }
        ensures later { self.new.fails_in ≡ counted_down self.old.fails_in }
        ensures line { self.new.in_line ≡ is_in_line result }
    {
        self.is_in_line = false;
        if is_due(&mut self.fails_in) {
            self.failures = self.failures.saturating_add(1);
            return Byte::Fault;
        }
        match self.left.split_first() {
            Some((byte, rest)) => {
                self.left = rest;
                self.is_in_line = *byte != b'\n';
                Byte::One(*byte)
            }
            None => Byte::End,
        }
    }

    fn ready(&self) -> &[u8]
        ensures bytes { result.now ≡ ready_of self.now }
        ensures front { IfSome (Some self.now.left) (λ bytes. StartsWith bytes result.now) }
    {
        if !self.is_in_line || self.fails_in.is_some() {
            return &[];
        }
        line_of(self.left)
    }

    fn skip(&mut self, count: usize)
        requires { count ≤ length (ready_of self.old) }
        ensures bytes { Consumes (Some self.old.left) (Some self.new.left) (take count (ready_of self.old)) }
        ensures ready { ready_of self.new ≡ drop count (ready_of self.old) }
        ensures failures { self.new.failures ≡ self.old.failures }
    {
        if count > 0 {
            let (_, left) = self.left.split_at(count);
            self.is_in_line = self.left[count - 1] != b'\n';
            self.left = left;
        }
    }
}

/// A look finds all that is left at once, unless a call is yet to fail; the failing call may be a look.
impl<'a> Polled for Text<'a> {
    fn look(&mut self) -> Look
        ensures looks { Looks (Some self.old.left) (Some self.new.left) (ready_of self.new) result }
    {
        if is_due(&mut self.fails_in) {
            self.failures = self.failures.saturating_add(1);
            return Look::Fault;
        }
        if self.left.is_empty() {
            return Look::Over;
        }
        if self.fails_in.is_some() {
            return Look::Nothing;
        }
        self.is_in_line = true;
        Look::Ready
    }
}

/// The first line of a text, with its line feed if it has one.
fn line_of(text: &[u8]) -> &[u8]
    ensures { result.now ≡ take_through 10 text.now }
{
    match cut(text, b'\n') {
        Some((line, _)) => &text[..line.len() + 1],
        None => text,
    }
}
