//! Values that the proofs alone remember.

ghost use Rattle.std.specs.Prelude.{◌≡◌};
ghost use Rattle.std.specs.Borrow.{ftrue};

use std::marker::{Model, PhantomData};

/// A value as it was. It has no bytes, and owns nothing: only what a clause says of it is known.
#[derive(Drop)]
pub struct Remembered<T> {
    marker: PhantomData<T>,
    pub ghost value: { T },
}

impl<T> Model for Remembered<T> {
    ghost also_owns = { λ _. ftrue };
}

impl<T> Remembered<T> {
    /// Returns the value as it is now. It copies nothing.
    pub fn of(x: &T) -> Remembered<T>
        ensures { result.value ≡ x.now }
    {
        let _ = x;
        Remembered {
            marker: PhantomData,
        }
    }
}

// It owns nothing.
unsafe impl<T> Send for Remembered<T> {}

unsafe impl<T> Sync for Remembered<T> {}
