//! A list that only proofs read.

ghost use Rattle.std.specs.Prelude.{◌≡◌, ℕ, List, [], ◌∷◌, ◌++◌};
ghost use Rattle.std.specs.Borrow.{ftrue};

use std::marker::{Model, PhantomData};

const _: () = prove!(size_of::<Trail<u64>>() == 0);

/// What was noted so far, oldest first: a value each time, and bytes. It takes no memory, and its methods do nothing at
/// run time.
///
/// A trail says what its owner noted, and nothing more: that the owner notes exactly what a call of the system answered
/// has to be read in the owner's body.
#[derive(Drop)]
pub struct Trail<A> {
    of: PhantomData<A>,
    pub ghost items: { List (A × List ℕ) },
}

impl<A> Model for Trail<A> {
    ghost also_owns = { λ _. ftrue };
}

// It owns nothing.
unsafe impl<A: Send> Send for Trail<A> {}

impl<A> Trail<A> {
    /// Returns a trail in which nothing was noted yet.
    pub fn new() -> Trail<A>
        ensures { result.items ≡ [] }
    {
        Trail { of: PhantomData }
    }

    /// Notes a value and bytes that the caller has in hand.
    pub fn note(&mut self, _value: &A, _bytes: &[u8])
        ensures { self.new.items ≡ self.old.items ++ (_value.now, _bytes.now) ∷ [] }
    {}
}
