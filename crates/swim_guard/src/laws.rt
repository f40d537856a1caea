//! Laws of who is heard. Each is the contract of a function that does nothing, so that it stays proved.

ghost use Rattle.std.specs.Prelude.{◌≡◌, ◌+◌, ◌-◌, ◌*◌, ◌<◌, ◌≤◌, ℕ, List, map};
ghost use Rattle.swim_fence.specs.Buckets.{price};
ghost use Rattle.swim_fence.specs.Fences.{Follows, Kept};
ghost use Rattle.swim_fence.specs.Histories.{AreAskedWithin, Event, StaysListed};
ghost use Rattle.swim_wire.specs.Address.{Address};
ghost use Rattle.swim_guard.specs.Fenced.{AreSteps, Step, event_of, passed_from};
ghost use Rattle.swim_guard.specs.Guarded.{Judged, datagrams, handed, texts_judged};

/// The datagrams that a line hands on are those of the line below that have a tag by one of the keys that were in force
/// when they were judged, in their order, each without its tag.
#[tactic(auto, using(crate::proofs::Heard::heard_are_the_texts))]
pub fn who_is_heard_has_a_key()
    ensures { (judged : List Judged) → datagrams (map handed judged) ≡ texts_judged judged }
{}

/// Whatever comes over a fenced line while its rate stays, of the datagrams that come from a member's address within a
/// span at most as many pass as the rate, and as many more as the rate says of the span.
#[tactic(auto, using(crate::proofs::Steps::passed_within_a_span))]
pub fn a_span_lets_so_many_through()
    ensures { (old new : Kept) (steps : List Step) (before : List Event) (a : Address) (start end : ℕ) → 0 < old.rate
        → Follows old before → AreSteps old steps new
        → StaysListed a (map event_of steps) before → AreAskedWithin start end (map event_of steps)
        → passed_from a steps * price ≤ old.rate * price + old.rate * (end - start) }
{}
