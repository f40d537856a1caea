//! What a node's detector started from, for those who don't hold the lock.

ghost use Rattle.std.specs.Prelude.{◌≡◌};

use crate::naming::Naming;
use std::marker::{Model, PhantomData};
use swim_history::Opening;

/// The opening of a node.
#[derive(Drop)]
pub(crate) struct NodeOpening<N: Naming> {
    opening: Opening,
    of: PhantomData<N>,
}

impl<N: Naming> Model for NodeOpening<N> {
    ghost use Rattle.std.specs.Prelude.{◌≡◌};
    ghost use Rattle.swim_history.specs.Setting.{Setting};

    ghost Value = { Setting };

    ghost view = { λ s. s.opening };

    ghost invariant = { λ s. s.opening ≡ N.opening };
}

impl<N: Naming> NodeOpening<N> {
    pub(crate) fn new(opening: Opening) -> NodeOpening<N>
        requires { opening ≡ N.opening }
    {
        NodeOpening {
            opening,
            of: PhantomData,
        }
    }

    pub(crate) fn opening(&self) -> &Opening
        ensures { result.now ≡ N.opening }
    {
        &self.opening
    }
}
