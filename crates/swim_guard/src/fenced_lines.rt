//! A line from which nobody is heard more often than a fence lets in.

ghost use Rattle.std.specs.Prelude.{◌≡◌, ◌≤◌, ◌∷◌, ◌++◌, [], None, Some, length, map};
ghost use Rattle.swim_fence.specs.Fences.{Follows};
ghost use Rattle.swim_work.specs.Gates.{FitsInto};
ghost use Rattle.swim_trail.specs.Growing.{Grows};
ghost use Rattle.swim_guard.specs.Fenced.{AsksFence, IsShown, LetsOn, heard_over, thrown_if};
ghost use Rattle.swim_guard.specs.Thrown.{one_thrown};

use crate::rule_books::RuleBook;
use crate::rule_lookups::RateLookup;
use crate::thrown::{Sieve, Thrown};
use crate::timepieces::Timepiece;
use std::marker::Model;
use std::sync::Wait;
use swim_fence::Fence;
use swim_trail::Trail;
use swim_wire::{KNOWN_MEMBERS, Peer};
use swim_work::{Got, Line};

/// A line over another, with a fence between them. It hands on each datagram that the fence lets in, as it is, and
/// throws the others away, before anything is looked at but where they came from. The rate is that of the rules that are
/// in force once the datagram came. A contract sees the line below, the time of the newest datagram, the rates that were
/// asked for, the fence, what was thrown away, what it answered so far, and of each time whether that is what the line
/// below gave. So what it gave is told by all that the line below gave, where that is known.
#[derive(Drop)]
pub struct FencedLine<'k, L: Line, T: Timepiece> {
    line: L,
    timepiece: T,
    rates: RateLookup<'k, L>,
    fence: Fence,
    fenced: Thrown,
    answered: Trail<Got>,
    passed: Trail<bool>,
}

impl<'k, L: Line, T: Timepiece> Model for FencedLine<'k, L, T> {
    ghost use Rattle.std.specs.Prelude.{map};
    ghost use Rattle.swim_trail.specs.Noted.{value_in};
    ghost use Rattle.swim_guard.specs.Fenced.{AtFence};

    ghost Value = { AtFence L };

    ghost view = { λ f. record {
      line = f.line;
      time = T.time f.timepiece;
      rates = f.rates;
      fence = f.fence;
      fenced = f.fenced;
      answered = map (λ i. record { got = i.0; bytes = i.1 }) f.answered.items;
      passed = map value_in f.passed.items;
    } };
}

impl<'k, L: Line, T: Timepiece> FencedLine<'k, L, T> {
    /// A line over that one with a fence of the rate of that book. It was shown no member and threw nothing away yet.
    pub fn new(line: L, timepiece: T, book: &'k RuleBook) -> FencedLine<'k, L, T>
        ensures line { result.line ≡ line }
        ensures time { result.time ≡ T.time timepiece }
        ensures rates { result.rates ≡ record { rate = result.fence.rate; by = line } ∷ [] }
        ensures fence { Follows result.fence [] }
        ensures fenced { result.fenced ≡ record { count = 0; newest = None } }
        ensures answered { result.answered ≡ [] }
        ensures passed { result.passed ≡ [] }
    {
        let mut rates = RateLookup::new(book);
        let rate = rates.rate(&line);
        FencedLine {
            line,
            timepiece,
            rates,
            fence: Fence::new(rate),
            fenced: Thrown::none(),
            answered: Trail::new(),
            passed: Trail::new(),
        }
    }

    /// Whether a datagram that came now from that address passes. Where it doesn't it is counted.
    fn admits(&mut self, source: Peer) -> bool
        ensures line { self.new.line ≡ self.old.line }
        ensures asks { AsksFence self.old self.new source result }
        ensures fenced { self.new.fenced ≡ one_thrown (thrown_if result source) self.old.fenced }
        ensures answered { self.new.answered ≡ self.old.answered }
        ensures passed { self.new.passed ≡ self.old.passed }
    {
        let rate = self.rates.rate(&self.line);
        self.fence.set_rate(rate);
        let now = self.timepiece.now();
        let passes = self.fence.admits(&source, now);
        if !passes {
            self.fenced.one_more(source);
        }
        passes
    }

    /// Asks the line below once, and hands on what passes.
    fn let_on<R: Wait>(&mut self, rt: &R, bytes: &mut [u8]) -> Got
        ensures fits { FitsInto result bytes.new }
        ensures answered { self.new.answered ≡ self.old.answered ++ record { got = result; bytes = bytes.new } ∷ [] }
        ensures listed { L.listed self.new.line ≡ L.listed self.old.line }
        ensures lets { LetsOn L.received self.old self.new result bytes.new }
    {
        let got = self.line.receive(rt, bytes);
        match got {
            Got::Datagram(_, source) if !self.admits(source) => {
                self.answer(Got::Idle, false, bytes)
            }
            _ => self.answer(got, true, bytes),
        }
    }

    /// Notes an answer, with what stands in the buffer, and whether it is what the line below gave.
    #[tactic(auto, using(swim_trail::specs::Noted::map_more))]
    fn answer(&mut self, got: Got, passed: bool, bytes: &[u8]) -> Got
        ensures got { result ≡ got }
        ensures noted { self.new ≡ record self.old {
          answered = self.old.answered ++ record { got = got; bytes = bytes.now } ∷ [];
          passed = self.old.passed ++ passed ∷ [];
        } }
    {
        self.answered.note(&got, bytes);
        self.passed.note(&passed, &[]);
        got
    }
}

impl<'k, L: Line, T: Timepiece> Line for FencedLine<'k, L, T> {
    ghost received = { λ f. heard_over (L.received f.line) f.passed };

    ghost listed = { λ f. L.listed f.line };

    #[tactic(auto, using(crate::proofs::Given::heard_over_more))]
    fn receive<R: Wait>(&mut self, rt: &R, bytes: &mut [u8]) -> Got
        ensures fits { FitsInto result bytes.new }
        ensures received { Grows (heard_over (L.received self.old.line) self.old.passed)
            (heard_over (L.received self.new.line) self.new.passed) (record { got = result; bytes = bytes.new } ∷ []) }
        ensures answered { self.new.answered ≡ self.old.answered ++ record { got = result; bytes = bytes.new } ∷ [] }
        ensures listed { L.listed self.new.line ≡ L.listed self.old.line }
        ensures lets { LetsOn L.received self.old self.new result bytes.new }
    {
        self.let_on(rt, bytes)
    }

    fn list(&mut self, members: &[Peer])
        requires { length members.now ≤ KNOWN_MEMBERS }
        ensures received { heard_over (L.received self.new.line) self.new.passed
            ≡ heard_over (L.received self.old.line) self.old.passed }
        ensures answered { self.new.answered ≡ self.old.answered }
        ensures passed { self.new.passed ≡ self.old.passed }
        ensures below { L.received self.new.line ≡ L.received self.old.line }
        ensures listed { Grows (L.listed self.old.line) (L.listed self.new.line) (members.now ∷ []) }
        ensures shown { IsShown self.old self.new members.now }
    {
        self.fence.list(members);
        self.line.list(members);
    }
}

impl<'k, L: Line, T: Timepiece> Sieve for FencedLine<'k, L, T> {
    ghost thrown_away = { λ f. f.fenced };

    fn thrown(&self) -> Thrown
        ensures { result ≡ self.now.fenced }
    {
        self.fenced
    }
}
