//! The list of changes that a node published. It only grows, and exists in the proofs alone; what threads share is its
//! length.

ghost use Rattle.std.specs.Prelude.{◌≡◌, ◌+◌, ◌==◌, ◌<◌, ◌^◌, ◌++◌, ◌∷◌, [], length, IsTrue, MatchBool};
ghost use mathlib.Core.List.{IsPrefix};
ghost use Rattle.swim_node.specs.ChangeLog.{head_of};
ghost use Rattle.swim_node.specs.News.{IsLongerOf};

use crate::naming::Naming;
use logbook::{Gain, Offer, Plain, Play, Rule, Seen, Start, Word};
use std::marker::{Model, PhantomData};
use swim_history::Change;

/// The rule of the list: the shared word is its length.
pub struct CountsChanges;

impl Rule<Change, u64> for CountsChanges {
    ghost use Rattle.std.specs.Prelude.{[]};
    ghost use base.Fml.{ftrue};
    ghost use Rattle.swim_node.specs.ChangeLog.{IsCounted};

    ghost holds = { λ cells log. IsCounted cells log };

    ghost first = { [] };

    ghost hinted = { λ n log. Unit {0} };

    ghost shows = { λ log. [] };

    ghost keeps = { λ names log. ftrue };

    ghost moves = { λ ask before after answer. Unit {0} };
}

/// Who adds to the list trades nothing for it.
pub struct Nothing;

impl Gain<Change, u64> for Nothing {
    ghost use base.Fml.{ftrue};

    ghost after = { λ names about answer. ftrue };
}

/// A step that adds a change.
pub struct Add;

impl Play<Change, u64> for Add {
    ghost use Rattle.swim_node.specs.ChangeLog.{Adds};

    ghost then = { Adds };
}

impl Plain<Change, Change, u64> for Add {
    ghost use Rattle.std.specs.Prelude.{None};

    ghost ask = { λ change. change };

    ghost state = { λ change. None };
}

/// A list without changes, of a node that isn't open yet. A contract sees which list it is.
#[derive(Drop)]
pub(crate) struct BlankLog {
    head: Word<Change, u64, CountsChanges>,
    seen: Seen<Change, u64, CountsChanges>,
}

impl Model for BlankLog {
    ghost use Rattle.std.specs.Prelude.{◌≡◌, []};
    ghost use Rattle.logbook.specs.Pages.{Book};
    ghost use Rattle.swim_node.specs.ChangeLog.{head_of};

    ghost Value = { Book };

    ghost view = { λ b. b.seen.book };

    ghost invariant = { λ b. (b.seen.log ≡ []) × (b.head ≡ head_of b.seen.book) };
}

impl BlankLog {
    pub(crate) fn new() -> BlankLog {
        let (seen, mut first, _second) = Seen::open(Start::alone(), 0, 0);
        BlankLog {
            head: Word::tracked(0, &mut first),
            seen,
        }
    }

    /// The list of a node: its shared word, and its beginning without changes.
    pub(crate) fn open<N: Naming>(self) -> (Head<N>, Beginning)
        requires { self ≡ N.log }
        ensures { result.1 ≡ record { book = N.log; changes = [] } }
    {
        let BlankLog { head, seen } = self;
        let of = PhantomData;
        (Head { head, of }, Beginning { len: 0, seen })
    }
}

/// The shared word of a node's list of changes: its length.
#[derive(Drop)]
pub(crate) struct Head<N: Naming> {
    head: Word<Change, u64, CountsChanges>,
    of: PhantomData<N>,
    ghost is: { head ≡ head_of N.log },
}

/// A beginning of some node's list of changes: its length, and the proof that the list has begun so. A contract sees
/// the changes, and which list it is.
#[derive(Drop)]
pub(crate) struct Beginning {
    len: u64,
    seen: Seen<Change, u64, CountsChanges>,
}

impl Model for Beginning {
    ghost use Rattle.std.specs.Prelude.{◌≡◌, length};
    ghost use Rattle.swim_node.specs.ChangeLog.{Begun};

    ghost Value = { Begun };

    ghost view = { λ b. record { book = b.seen.book; changes = b.seen.log } };

    ghost invariant = { λ b. b.len ≡ length b.seen.log };
}

impl Beginning {
    /// The same beginning again.
    pub(crate) fn again(&self) -> Beginning
        ensures { result ≡ self.now }
    {
        Beginning {
            len: self.len,
            seen: self.seen.again(),
        }
    }

    /// The longer of two beginnings of one list.
    pub(crate) fn longer(&self, other: &Beginning) -> Beginning
        requires { other.now.book ≡ self.now.book }
        ensures book { result.book ≡ self.now.book }
        ensures longer { IsLongerOf self.now.changes other.now.changes result.changes }
    {
        let mut both = self.seen.again();
        both.learn(&other.seen);
        if self.len < other.len {
            other.again()
        } else {
            self.again()
        }
    }

    /// Whether it is no longer than another beginning of one list, which it then begins.
    pub(crate) fn begins(&self, other: &Beginning) -> bool
        requires { other.now.book ≡ self.now.book }
        ensures { IsTrue result → IsPrefix self.now.changes other.now.changes }
    {
        let mut both = self.seen.again();
        both.learn(&other.seen);
        self.len <= other.len
    }

    /// Adds a change to the list of a node, unless the list is longer than this beginning, and says whether it did.
    pub(crate) fn add<N: Naming>(&mut self, head: &Head<N>, change: &Change) -> bool
        requires book { self.old.book ≡ N.log }
        requires room { length self.old.changes < 2 ^ 62 }
        ensures { MatchBool result
            (self.new ≡ record { book = N.log; changes = self.old.changes ++ change.now ∷ [] })
            (self.new.book ≡ N.log) }
    {
        let mut offer: Offer<Change, u64, CountsChanges, Nothing> = self
            .seen
            .plain::<Nothing, Change, Add>(change);
        let mut pen = self.seen.no_pen();
        let len = self.len;
        let found = head
            .head
            .compare_exchange::<Add, Nothing>(len, len + 1, &mut self.seen, &mut offer, &mut pen);
        self.len = if found == len { len + 1 } else { found };
        found == len
    }
}
