//! Laws of lives that were lived. Each is the contract of a function that does nothing, so that it stays proved.

ghost use Rattle.std.specs.Prelude.{◌≡◌, ℕ, List};
ghost use Rattle.swim_history.specs.Setting.{Setting};
ghost use Rattle.swim_crew.specs.declared.pasts.LivesEnd.{LivesEnd};
ghost use Rattle.swim_crew.specs.declared.pasts.Past.{Past};
ghost use Rattle.swim_crew.specs.Crews.{Rules, Stand, rules};
ghost use Rattle.swim_crew.specs.Lives.{AreLived, HasOpened, IsKeptLife};
ghost use Rattle.swim_crew.specs.Views.{MovedBy};

use crate::keepers::Keeper;
use swim_work::{Recorder, Worker};

/// What is seen of a crew and its keeper, whatever that is, and what a life does to it.
pub trait View<A: Worker, B: Worker, C: Worker, D: Recorder, K: Keeper<D>> {
    ghost use Rattle.std.specs.Prelude.{ℕ};
    ghost use Rattle.swim_crew.specs.declared.pasts.Past.{Past};
    ghost use Rattle.swim_crew.specs.Crews.{Stand};

    /// What is seen of them as they are between two lives.
    ghost seen: { Stand A B C D K → Self };

    /// The number of a life, what is left of it, and what is seen before and after it.
    ghost moves: { ℕ → Past → Self → Self → Type 0 };
}

/// If each life changes what is seen in a certain way, and a life that was only opened doesn't change it, then lives
/// that were lived changed it so, one after the other, and nothing else changed it.
pub fn each_life_moves_a_view<
    A: Worker,
    B: Worker,
    C: Worker,
    D: Recorder,
    K: Keeper<D>,
    V: View<A, B, C, D, K>,
>()
    ensures { let r = rules A.works B.works C.works D.records K.opens K.closes in
        ((from : Setting) (number : ℕ) (old new : Stand A B C D K) → HasOpened r from number old new →
        V.seen new ≡ V.seen old) →
        ((from : Setting) (limit : ℕ) (seed : List ℕ) (number : ℕ) (old : Stand A B C D K) (past : Past)
        (new : Stand A B C D K) → IsKeptLife r from limit seed number old past new →
        V.moves number past (V.seen old) (V.seen new)) →
        (opening : Setting) (limit : ℕ) (seed : List ℕ) (old new : Stand A B C D K) (end : LivesEnd) →
        (are : AreLived r opening limit seed old new end) → MovedBy V.moves (V.seen old) are.lives (V.seen new) }
{}
