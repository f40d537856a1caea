//! Laws of fences. Each is the contract of a function that does nothing, so that it stays proved.

ghost use Rattle.std.specs.Prelude.{◌≡◌, ◌+◌, ◌-◌, ◌*◌, ◌<◌, ◌≤◌, ◌∷◌, ℕ, List, false, true};
ghost use Rattle.swim_fence.specs.Buckets.{AreInOrder, asked_lately, price};
ghost use Rattle.swim_fence.specs.Histories.{AreAskedWithin, Event, StaysListed, is_listed, own_events, passes};
ghost use Rattle.swim_fence.specs.Histories.{passed_of_member, passed_of_strangers, times_of};
ghost use Rattle.swim_wire.specs.Address.{Address};

/// Of the datagrams of a member's address that ask within a span at most as many pass as the rate, and as many more as
/// the rate says of the span. Of those of all other addresses together at most as many do.
pub fn a_span_lets_so_many_pass()
    ensures member { (rate start end : ℕ) (a : Address) (recent before : List Event) → 0 < rate
        → StaysListed a recent before → AreAskedWithin start end recent
        → passed_of_member a rate recent before * price ≤ rate * price + rate * (end - start) }
    ensures strangers { (rate start end : ℕ) (recent before : List Event) → 0 < rate
        → AreAskedWithin start end recent
        → passed_of_strangers rate recent before * price ≤ rate * price + rate * (end - start) }
{}

/// While the clock isn't set back, a datagram is refused only where at least as many as the rate asked the same bucket
/// within the second before.
pub fn who_keeps_to_the_rate_passes()
    ensures { (rate : ℕ) (h : List Event) (from : Address) (now : ℕ) → AreInOrder (now ∷ times_of from h)
        → passes rate h from now ≡ false → rate ≤ asked_lately now (times_of from h) }
{}

/// Whether a member's datagram passes, hangs on no datagram of another address: it would pass or not all the same if
/// none of these had asked.
pub fn a_flood_pushes_no_member_out()
    ensures { (rate : ℕ) (h : List Event) (from : Address) (now : ℕ) → is_listed from h ≡ true
        → passes rate h from now ≡ passes rate (own_events from h) from now }
{}
