//! The gates of those who watch: where they come in, and where their bytes go. Nothing of them waits.

ghost use Rattle.std.specs.Prelude.{◌∷◌, [], IfSome};
ghost use Rattle.swim_events.specs.Guests.{IsUntaken, Takes};
ghost use Rattle.swim_trail.specs.Growing.{Grows};

/// What became of bytes that were offered.
#[derive(Clone, Copy, Debug, PartialEq, Eq)]
pub enum Offer {
    /// So many of them were taken, the first ones.
    Took(usize),
    /// There is no room for any now.
    Full,
    /// Nobody takes them any more.
    Gone,
}

/// Where the bytes of one go who watches.
pub trait Outlet {
    ghost use Rattle.std.specs.Prelude.{ℕ, List, Option};
    ghost use Rattle.swim_events.specs.Guests.{Offering};

    // the bytes that it took so far, where they are known
    ghost taken: { Self → Option (List ℕ) };

    // what became of each of the offers so far, and the bytes that were offered, oldest first, where that is known
    ghost offers: { Self → Option (List Offering) };

    /// Takes as many of these bytes as it can at once. It is asked where there are none, too, so that it may find that
    /// nobody takes them any more.
    fn offer(&mut self, bytes: &[u8]) -> Offer
        ensures takes { Takes result bytes.now (taken self.old) (taken self.new) }
        ensures offered { Grows (offers self.old) (offers self.new) ((result, bytes.now) ∷ []) };
}

/// Where those come in who watch, and the clock by which they are given up.
pub trait Entrance<E: Outlet> {
    /// The outlet of the next who has come, if one has.
    fn next(&mut self) -> Option<E>
        ensures { IfSome result (λ outlet. IsUntaken (E.taken outlet)) };

    /// The time now, in milliseconds since some moment.
    fn now(&mut self) -> u64;
}
