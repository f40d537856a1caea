//! A post that signs what it is handed.

ghost use Rattle.std.specs.Prelude.{◌≡◌, ◌≤◌, ◌∷◌, ◌++◌, [], Some, length, map};
ghost use Rattle.std.specs.Option.{option_map};
ghost use Rattle.swim_work.specs.Posts.{IsFresh};
ghost use Rattle.swim_trail.specs.Growing.{Grows};
ghost use Rattle.swim_guard.specs.Guarded.{Answers, Hands, posted_by, sent_by, signed_by};

use crate::rule_books::RuleBook;
use crate::rule_lookups::KeyLookup;
use std::marker::Model;
use std::sync::Wait;
use swim_keys::Keys;
use swim_trail::{Remembered, Trail};
use swim_wire::{LONGEST_DATAGRAM_BYTES, Peer};
use swim_work::Post;

/// Where a text went, and by which keys it was handed on, if it was. The proofs alone know the keys.
#[derive(Drop)]
struct SentBy {
    to: Peer,
    keys: Option<Remembered<Option<Keys>>>,
}

/// A post over another. Where the rules have keys, it hands on each datagram with its tag by the first of them; where
/// they have none, as it is. The keys are those that are in force when it is handed the datagram. Bytes that are longer
/// than a datagram aren't taken. A contract sees the post below, the keys that were asked for, what it was handed so
/// far, and what became of it. So what it was handed is told by all that the post below was handed, where that is
/// known.
#[derive(Drop)]
pub struct SealedPost<'k, O: Post + Drop> {
    post: O,
    keys: KeyLookup<'k, O>,
    handed: Trail<(Peer, bool)>,
    sent: Trail<SentBy>,
}

impl<'k, O: Post + Drop> Model for SealedPost<'k, O> {
    ghost use Rattle.std.specs.Prelude.{map};
    ghost use Rattle.std.specs.Option.{option_map};
    ghost use Rattle.swim_guard.specs.Guarded.{AtPost, sent_by};

    ghost Value = { AtPost O };

    ghost view = { λ s. record {
      post = s.post;
      keys = s.keys;
      handed = map (λ i. record { bytes = i.1; to = i.0.0; is_taken = i.0.1 }) s.handed.items;
      sent = map (λ i. sent_by i.1 i.0.to (option_map (λ keys. keys.value) i.0.keys)) s.sent.items;
    } };
}

impl<'k, O: Post + Drop> SealedPost<'k, O> {
    /// A post over that one by the rules of that book, which was handed nothing yet.
    pub fn new(post: O, book: &'k RuleBook) -> SealedPost<'k, O>
        ensures post { result.post ≡ post }
        ensures keys { result.keys.answered ≡ [] }
        ensures handed { result.handed ≡ [] }
        ensures sent { result.sent ≡ [] }
    {
        SealedPost {
            post,
            keys: KeyLookup::new(book),
            handed: Trail::new(),
            sent: Trail::new(),
        }
    }

    /// Hands a datagram on, with its tag where there are keys. `false` where that failed.
    fn hand_on<R: Wait>(&mut self, rt: &R, bytes: &[u8], to: Peer) -> bool
        ensures hands { Hands O.posted self.old self.new bytes.now to result }
        ensures handed { self.new.handed ≡ self.old.handed }
    {
        if LONGEST_DATAGRAM_BYTES < bytes.len() {
            self.note(bytes, to, None);
            return false;
        }
        self.look_up(rt);
        let is_taken = self.sign(rt, bytes, to);
        let keys = Remembered::of(self.keys.keys());
        self.note(bytes, to, Some(keys));
        is_taken
    }

    /// Notes what became of a text.
    #[tactic(auto, using(swim_trail::specs::Noted::map_more))]
    fn note(&mut self, bytes: &[u8], to: Peer, keys: Option<Remembered<Option<Keys>>>)
        ensures { self.new ≡ record self.old {
          sent = self.old.sent ++ sent_by bytes.now to (option_map (λ keys. keys.value) keys) ∷ [];
        } }
    {
        self.sent.note(&SentBy { to, keys }, bytes);
    }

    /// Looks up the keys that are in force.
    fn look_up<R: Wait>(&mut self, rt: &R)
        ensures asked { Answers self.old.keys self.old.post self.new.keys.keys self.new.keys }
        ensures same { self.new ≡ record self.old { keys = self.new.keys } }
    {
        self.keys.renew(rt, &self.post);
    }

    /// Hands a datagram on, with its tag by the first of the keys that were looked up, if there are some.
    fn sign<R: Wait>(&mut self, rt: &R, bytes: &[u8], to: Peer) -> bool
        requires { length bytes.now ≤ LONGEST_DATAGRAM_BYTES }
        ensures posted { Grows (O.posted self.old.post) (O.posted self.new.post)
            (record { bytes = signed_by self.old.keys.keys bytes.now; to = to; is_taken = result } ∷ []) }
        ensures same { self.new ≡ record self.old { post = self.new.post } }
    {
        match self.keys.keys() {
            Some(keys) => self.post.send(rt, keys.seal(bytes).as_slice(), to),
            None => self.post.send(rt, bytes, to),
        }
    }
}

impl<'k, O: Post + Drop> Post for SealedPost<'k, O> {
    ghost posted = { λ s. posted_by (O.posted s.post) s.sent };

    #[tactic(auto, using(crate::proofs::Sending::none_posted))]
    fn fresh(&self) -> SealedPost<'k, O>
        ensures fresh { IsFresh (posted_by (O.posted result.post) result.sent) }
        ensures handed { result.handed ≡ [] }
        ensures below { IsFresh (O.posted result.post) }
        ensures keys { result.keys.answered ≡ [] }
    {
        SealedPost {
            post: self.post.fresh(),
            keys: self.keys.fresh(),
            handed: Trail::new(),
            sent: Trail::new(),
        }
    }

    #[tactic(auto, using(swim_trail::specs::Noted::map_more, crate::proofs::Sending::posted_more))]
    fn send<R: Wait>(&mut self, rt: &R, bytes: &[u8], to: Peer) -> bool
        ensures posted { Grows (posted_by (O.posted self.old.post) self.old.sent)
            (posted_by (O.posted self.new.post) self.new.sent)
            (record { bytes = bytes.now; to = to; is_taken = result } ∷ []) }
        ensures handed { self.new.handed ≡ self.old.handed
            ++ record { bytes = bytes.now; to = to; is_taken = result } ∷ [] }
        ensures hands { Hands O.posted self.old self.new bytes.now to result }
    {
        let is_taken = self.hand_on(rt, bytes, to);
        self.handed.note(&(to, is_taken), bytes);
        is_taken
    }
}
