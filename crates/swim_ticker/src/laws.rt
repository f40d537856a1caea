//! Laws of what the ticker does. Each is the contract of a function that does nothing, so that it stays proved.

ghost use Rattle.std.specs.Prelude.{◌≡◌, ℕ, ◌-◌, ◌^◌, ◌≤◌, ◌+◌, ◌++◌, [], All, List, count_by, length, map, min, not};
ghost use Rattle.swim_history.specs.declared.rows.Change.{Change};
ghost use Rattle.swim_history.specs.Changes.{IsAscending};
ghost use Rattle.swim_history.specs.Setting.{Setting};
ghost use Rattle.swim_node.specs.Seats.{Seated};
ghost use Rattle.swim_rejoin.specs.Knocking.{Start};
ghost use Rattle.swim_work.specs.declared.paces.Beat.{Beat};
ghost use Rattle.swim_work.specs.declared.workers.End.{End};
ghost use Rattle.swim_work.specs.Posts.{Posted, datagram, handed, messages_of, starts_in};
ghost use Rattle.swim_trail.specs.Growing.{Grows};
ghost use Rattle.swim_ticker.specs.Knocking.{AreLooks, knocks_of, rejoins_at};
ghost use Rattle.swim_ticker.specs.Ticking.{Owned, TicksLife};
ghost use Rattle.swim_ticker.specs.Ticks.{AreTicked, ticks_in};

use swim_work::Post;

/// Each tick that the pace gave in a life, in order, became one call of the ticker's seat, and the seat made no other
/// call; or it was refused, and counted, if that wasn't for a full journal.
pub fn each_tick_is_a_call<O: Post>()
    ensures { (o : Setting) (limit : ℕ) (old new : Owned O) (seat : Seated) (seen : List Change)
        (end : End) → TicksLife O.posted o limit old seat seen end new
        → (given : List Beat) × Grows old.beats new.beats given
        × AreTicked (ticks_in given) seat.calls end.counts }
{}

/// What the post was handed in a life are the datagrams of the replies to the seat's calls, each once, in order, to its
/// own address; and those that weren't taken are counted.
pub fn each_reply_is_posted<O: Post>()
    ensures { (o : Setting) (limit : ℕ) (old new : Owned O) (seat : Seated) (seen : List Change)
        (end : End) → TicksLife O.posted o limit old seat seen end new
        → (posted : List Posted) × Grows (O.posted old.post) (O.posted new.post) posted
        × (map handed posted ≡ map datagram (messages_of o seat.calls))
        × (end.counts.unsent ≡ min (count_by (λ p. not p.is_taken) posted) (2 ^ 64 - 1)) }
{}

/// What the post of the knocks was handed in a life are the knocks that are due at the starts of periods that the
/// seat's calls began, each once, in order, by the whole tables that a viewer was shown at these starts, and by what a
/// lookup answered at them, once at each. These are the tables after beginnings of what the viewer had seen in the end.
/// The knocks are counted.
pub fn knocks_are_at_starts<O: Post>()
    ensures { (o : Setting) (limit : ℕ) (old new : Owned O) (seat : Seated) (seen : List Change)
        (end : End) → TicksLife O.posted o limit old seat seen end new
        → (starts : List Start) × AreLooks o seen starts
        × (length starts ≡ starts_in seat.calls) × (new.answered ≡ old.answered ++ rejoins_at starts)
        × (posted : List Posted) × Grows old.knocked new.knocked posted
        × (map handed posted ≡ map datagram (knocks_of o starts))
        × (new.knocks ≡ min (old.knocks + length posted) (2 ^ 64 - 1)) }
{}

/// The rows of each look ascend by id, so that whose turn it is is the next failed member by id.
pub fn looks_ascend_by_id()
    ensures { (o : Setting) (seen : List Change) (starts : List Start) → AreLooks o seen starts
        → All (λ start. IsAscending start.rows) starts }
{}

/// Where its lookup answers 0 alone in a life nobody is knocked at: the post of the knocks was handed nothing.
pub fn with_0_nobody_is_knocked_at<O: Post>()
    ensures { (o : Setting) (limit : ℕ) (old new : Owned O) (seat : Seated) (seen : List Change)
        (end : End) → TicksLife O.posted o limit old seat seen end new
        → (answers : List ℕ) → new.answered ≡ old.answered ++ answers → All (λ rejoin. rejoin ≡ 0) answers
        → old.knocks ≤ 2 ^ 64 - 1
        → Grows old.knocked new.knocked [] × (new.knocks ≡ old.knocks) }
{}
