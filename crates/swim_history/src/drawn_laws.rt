//! Laws of drawn runs. Each is the contract of a function that does nothing, so that it stays proved.

ghost use Rattle.std.specs.Prelude.{ℕ, List};
ghost use Rattle.swim_history.specs.Setting.{Setting, IsSetting};
ghost use Rattle.swim_history.specs.Laws.Drawn.{IsFunctional, DrawsOnce};
ghost use Rattle.swim_history.specs.Laws.DrawnRuns.{IsTotal, DrawsAlways};

/// What choosers of a kind answer, whatever they are.
pub trait Drawing {
    /// The chooser before, ids, an order of them, and the chooser after.
    ghost orders: { Self → List ℕ → List ℕ → Self → Type 0 };

    /// The chooser before, the last place there is, a place, and the chooser after.
    ghost places: { Self → ℕ → ℕ → Self → Type 0 };

    /// Which choosers count as the same.
    ghost same: { Self → Self → Type 0 };
}

/// Where choosers that are the same answer the same and are the same afterwards, an opening, a chooser and a
/// list of calls, each with its seat, have at most one drawn run, and one chooser after it.
pub fn calls_determine_a_drawn_run<C: Drawing>()
    ensures { IsFunctional C.orders C.places C.same → (o : Setting) → IsSetting o →
        DrawsOnce C.orders C.places C.same o }
{}

/// Where choosers always answer, an opening, a chooser and a list of calls, each with its seat, 0 to 3, have a drawn
/// run.
pub fn calls_have_a_drawn_run<C: Drawing>()
    ensures { IsTotal C.orders C.places → (o : Setting) → IsSetting o → DrawsAlways C.orders C.places o }
{}
