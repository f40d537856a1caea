//! News: what a node has published.

ghost use Rattle.std.specs.Prelude.{◌≡◌, ◌<◌, ◌^◌, ◌++◌, ◌∷◌, [], length, IsTrue};
ghost use mathlib.Core.List.{IsPrefix};
ghost use Rattle.swim_node.specs.News.{IsLongerOf};
ghost use Rattle.swim_node.specs.ChangeLog.{Begun};

use crate::change_log::Beginning;
use crate::naming::Naming;
use std::marker::{Model, PhantomData};

/// Changes of the member table that a node has published, oldest first: all of them up to some moment. It holds no
/// list, and takes 8 bytes. Threads may share it. A contract sees the changes; of the news of one node the shorter
/// begins the longer.
#[derive(Drop)]
pub struct News<N: Naming> {
    beginning: Beginning,
    of: PhantomData<N>,
}

impl<N: Naming> Model for News<N> {
    ghost use Rattle.std.specs.Prelude.{◌≡◌, List};
    ghost use Rattle.swim_history.specs.declared.rows.Change.{Change};

    ghost Value = { List Change };

    ghost view = { λ n. n.beginning.changes };

    ghost invariant = { λ n. n.beginning.book ≡ N.log };
}

impl<N: Naming> News<N> {
    /// The changes of this beginning of the node's list.
    pub(crate) fn new(beginning: Beginning) -> News<N>
        requires { beginning.book ≡ N.log }
        ensures { result ≡ beginning.changes }
    {
        News {
            beginning,
            of: PhantomData,
        }
    }

    /// The same news again.
    pub fn again(&self) -> News<N>
        ensures { result ≡ self.now }
    {
        News {
            beginning: self.beginning.again(),
            of: PhantomData,
        }
    }

    /// The beginning of the node's list of changes.
    pub(crate) fn beginning(&self) -> Beginning
        ensures { result ≡ record { book = N.log; changes = self.now } }
    {
        self.beginning.again()
    }

    /// The longer of the two, which the other begins.
    pub(crate) fn longer(&self, other: &News<N>) -> News<N>
        ensures { IsLongerOf self.now other.now result }
    {
        News {
            beginning: self.beginning.longer(&other.beginning),
            of: PhantomData,
        }
    }

    /// Whether it has no more changes than the other, which then begins with them.
    pub(crate) fn begins(&self, other: &News<N>) -> bool
        ensures { IsTrue result → IsPrefix self.now other.now }
    {
        self.beginning.begins(&other.beginning)
    }
}
