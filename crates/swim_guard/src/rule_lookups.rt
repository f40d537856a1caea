//! Who looks rules up: a line or a post asks a lookup of its own once a datagram is there, and a contract sees the answers.

ghost use Rattle.std.specs.Prelude.{◌≡◌, ◌++◌, ◌∷◌, []};

use crate::rule_books::RuleBook;
use std::marker::Model;
use std::sync::Wait;
use swim_keys::Keys;
use swim_trail::{Remembered, Trail};

/// What a lookup answered about keys, and what asked it, as that was then. The proofs alone know it.
#[derive(Drop)]
struct AnsweredKeys<B> {
    keys: Remembered<Option<Keys>>,
    by: Remembered<B>,
}

/// Answers which keys of a book are in force. It takes them over when they changed, so that to be asked costs next to
/// nothing. A contract sees the keys that it has, and what it answered so far, oldest first, each time with what asked it.
#[derive(Drop)]
pub(crate) struct KeyLookup<'k, B> {
    book: &'k RuleBook,
    // The edition of the book from which its keys are, if it took some.
    edition: Option<u64>,
    keys: Option<Keys>,
    answered: Trail<AnsweredKeys<B>>,
}

impl<'k, B> Model for KeyLookup<'k, B> {
    ghost use Rattle.std.specs.Prelude.{map};
    ghost use Rattle.swim_guard.specs.Guarded.{AtKeys};

    ghost Value = { AtKeys B };

    ghost view = { λ w. record {
      keys = w.keys;
      answered = map (λ i. record { keys = i.0.keys.value; by = i.0.by.value }) w.answered.items;
    } };
}

impl<'k, B> KeyLookup<'k, B> {
    /// It was asked nothing yet.
    pub(crate) fn new(book: &'k RuleBook) -> KeyLookup<'k, B>
        ensures { result.answered ≡ [] }
    {
        KeyLookup {
            book,
            edition: None,
            keys: None,
            answered: Trail::new(),
        }
    }

    /// Another one over the same book, which was asked nothing yet.
    pub(crate) fn fresh(&self) -> KeyLookup<'k, B>
        ensures { result.answered ≡ [] }
    {
        KeyLookup::new(self.book)
    }

    /// Asks the book for the keys that are in force, which it has from now on: for what asks, as it is now.
    #[tactic(auto, using(swim_trail::specs::Noted::map_more))]
    pub(crate) fn renew<R: Wait>(&mut self, rt: &R, by: &B)
        ensures { self.new.answered ≡ self.old.answered ++ record { keys = self.new.keys; by = by.now } ∷ [] }
    {
        let edition = self.book.edition();
        if self.edition != Some(edition) {
            self.take(rt, edition);
        }
        let answered = AnsweredKeys {
            keys: Remembered::of(&self.keys),
            by: Remembered::of(by),
        };
        self.answered.note(&answered, &[]);
    }

    /// Takes over the keys of that edition, or of a later one.
    // Kept out of line, as keys hardly ever change.
    #[inline(never)]
    fn take<R: Wait>(&mut self, rt: &R, edition: u64)
        ensures { self.new.answered ≡ self.old.answered }
    {
        self.keys = Keys::of(self.book.keys(rt).as_slice());
        self.edition = Some(edition);
    }

    /// The keys that it has.
    pub(crate) fn keys(&self) -> &Option<Keys>
        ensures { result.now ≡ self.now.keys }
    {
        &self.keys
    }
}

/// What a lookup answered about a rate, and what asked it, as that was then. The proofs alone know it.
#[derive(Drop)]
struct AnsweredRate<B> {
    rate: Remembered<u32>,
    by: Remembered<B>,
}

/// Answers what rate of a book is in force. A contract sees what it answered so far, oldest first, each time with what
/// asked it.
#[derive(Drop)]
pub(crate) struct RateLookup<'k, B> {
    book: &'k RuleBook,
    answered: Trail<AnsweredRate<B>>,
}

impl<'k, B> Model for RateLookup<'k, B> {
    ghost use Rattle.std.specs.Prelude.{List, map};
    ghost use Rattle.swim_guard.specs.Fenced.{AnsweredRate};

    ghost Value = { List (AnsweredRate B) };

    ghost view = { λ w. map (λ i. record { rate = i.0.rate.value; by = i.0.by.value }) w.answered.items };
}

impl<'k, B> RateLookup<'k, B> {
    /// It was asked nothing yet.
    pub(crate) fn new(book: &'k RuleBook) -> RateLookup<'k, B>
        ensures { result ≡ [] }
    {
        RateLookup {
            book,
            answered: Trail::new(),
        }
    }

    /// How many datagrams a second of an address are let in: for what asks, as it is now.
    #[tactic(auto, using(swim_trail::specs::Noted::map_more))]
    pub(crate) fn rate(&mut self, by: &B) -> u32
        ensures { self.new ≡ self.old ++ record { rate = result; by = by.now } ∷ [] }
    {
        let rate = self.book.rate();
        let told = AnsweredRate {
            rate: Remembered::of(&rate),
            by: Remembered::of(by),
        };
        self.answered.note(&told, &[]);
        rate
    }
}
