//! A line on which only who has a key of the group is heard.

ghost use Rattle.std.specs.Prelude.{◌≡◌, ◌≤◌, ◌∷◌, ◌++◌, [], None, Some, length, map};
ghost use Rattle.std.specs.Option.{option_map};
ghost use Rattle.swim_work.specs.Gates.{FitsInto};
ghost use Rattle.swim_trail.specs.Growing.{Grows};
ghost use Rattle.swim_guard.specs.Guarded.{HandsOn, Judges, handed, heard_by, keys_in, text_by};

use crate::rule_books::RuleBook;
use crate::rule_lookups::KeyLookup;
use crate::thrown::{Sieve, Thrown};
use std::marker::Model;
use std::sync::Wait;
use swim_keys::Keys;
use swim_trail::{Remembered, Trail};
use swim_wire::{KNOWN_MEMBERS, Peer};
use swim_work::{Got, Line};

/// What the line below got, and the keys that were in force then, which the proofs alone know.
#[derive(Drop)]
struct Judged {
    below: Remembered<Got>,
    keys: Remembered<Option<Keys>>,
}

/// A line over another. Where the rules have keys, it hands on each datagram that has a tag by one of them, without its
/// tag, and throws the others away, before anything is decoded; where they have none, it hands on all. The keys are
/// those that are in force once the datagram came. A contract sees the line below, the keys that were asked for, what
/// was thrown away, and what the line below got so far, each with the keys by which it was judged. So what it gave is
/// told by all that the line below gave, where that is known.
#[derive(Drop)]
pub struct SealedLine<'k, L: Line> {
    line: L,
    keys: KeyLookup<'k, L>,
    forged: Thrown,
    judged: Trail<Judged>,
}

impl<'k, L: Line> Model for SealedLine<'k, L> {
    ghost use Rattle.std.specs.Prelude.{map};
    ghost use Rattle.swim_guard.specs.Guarded.{AtLine};

    ghost Value = { AtLine L };

    ghost view = { λ s. record {
      line = s.line;
      keys = s.keys;
      forged = s.forged;
      judged = map (λ i. record {
        keys = i.0.keys.value;
        below = record { got = i.0.below.value; bytes = i.1 };
      }) s.judged.items;
    } };
}

impl<'k, L: Line> SealedLine<'k, L> {
    /// A line over that one by the rules of that book, which threw nothing away yet.
    pub fn new(line: L, book: &'k RuleBook) -> SealedLine<'k, L>
        ensures line { result.line ≡ line }
        ensures keys { result.keys.answered ≡ [] }
        ensures forged { result.forged ≡ record { count = 0; newest = None } }
        ensures judged { result.judged ≡ [] }
    {
        SealedLine {
            line,
            keys: KeyLookup::new(book),
            forged: Thrown::none(),
            judged: Trail::new(),
        }
    }

    /// Asks the line below once, and hands on what has a text by the keys that are in force then.
    fn hand_on<R: Wait>(&mut self, rt: &R, bytes: &mut [u8]) -> Got
        ensures fits { FitsInto result bytes.new }
        ensures listed { L.listed self.new.line ≡ L.listed self.old.line }
        ensures hands { HandsOn L.received self.old self.new result bytes.new }
    {
        let below = self.line.receive(rt, bytes);
        self.keys.renew(rt, &self.line);
        self.judge(below, bytes)
    }

    /// What is handed on of what the line below got, by the keys that are in force.
    fn judge(&mut self, below: Got, bytes: &[u8]) -> Got
        requires { FitsInto below bytes.now }
        ensures fits { FitsInto result bytes.now }
        ensures judges { Judges self.old self.new below bytes.now result }
    {
        self.note(&below, bytes);
        let Got::Datagram(count, source) = below else {
            return below;
        };
        match text_bytes(self.keys.keys(), &bytes[..count]) {
            Some(text_bytes) => Got::Datagram(text_bytes, source),
            None => {
                self.forged.one_more(source);
                Got::Idle
            }
        }
    }

    /// Notes what the line below got, with what stands in the buffer, and the keys that are in force.
    #[tactic(auto, using(swim_trail::specs::Noted::map_more))]
    fn note(&mut self, below: &Got, bytes: &[u8])
        ensures { self.new ≡ record self.old {
          judged = self.old.judged ++ record {
            keys = self.old.keys.keys;
            below = record { got = below.now; bytes = bytes.now };
          } ∷ [];
        } }
    {
        let judged = Judged {
            below: Remembered::of(below),
            keys: Remembered::of(self.keys.keys()),
        };
        self.judged.note(&judged, bytes);
    }
}

/// How many bytes of a datagram are its text by these keys; `None` where it is thrown away.
fn text_bytes(keys: &Option<Keys>, bytes: &[u8]) -> Option<usize>
    ensures { result ≡ option_map length (text_by keys.now bytes.now) }
{
    match keys {
        Some(keys) => keys.unseal(bytes).map(|text| text.len()),
        None => Some(bytes.len()),
    }
}

impl<'k, L: Line> Line for SealedLine<'k, L> {
    ghost received = { λ s. heard_by (L.received s.line) (keys_in s.judged) };

    ghost listed = { λ s. L.listed s.line };

    #[tactic(auto, using(swim_trail::specs::Noted::map_more, crate::proofs::Given::heard_by_more))]
    fn receive<R: Wait>(&mut self, rt: &R, bytes: &mut [u8]) -> Got
        ensures fits { FitsInto result bytes.new }
        ensures received { Grows (heard_by (L.received self.old.line) (keys_in self.old.judged))
            (heard_by (L.received self.new.line) (keys_in self.new.judged)) (record { got = result; bytes = bytes.new } ∷ []) }
        ensures handed { Grows (Some (map handed self.old.judged)) (Some (map handed self.new.judged))
            (record { got = result; bytes = bytes.new } ∷ []) }
        ensures listed { L.listed self.new.line ≡ L.listed self.old.line }
        ensures hands { HandsOn L.received self.old self.new result bytes.new }
    {
        self.hand_on(rt, bytes)
    }

    fn list(&mut self, members: &[Peer])
        requires { length members.now ≤ KNOWN_MEMBERS }
        ensures received { heard_by (L.received self.new.line) (keys_in self.new.judged)
            ≡ heard_by (L.received self.old.line) (keys_in self.old.judged) }
        ensures below { L.received self.new.line ≡ L.received self.old.line }
        ensures listed { Grows (L.listed self.old.line) (L.listed self.new.line) (members.now ∷ []) }
        ensures same { self.new ≡ record self.old { line = self.new.line } }
    {
        self.line.list(members);
    }
}

impl<'k, L: Line> Sieve for SealedLine<'k, L> {
    ghost thrown_away = { λ s. s.forged };

    fn thrown(&self) -> Thrown
        ensures { result ≡ self.now.forged }
    {
        self.forged
    }
}
