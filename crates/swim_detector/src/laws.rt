//! Laws of the two choosers. Each is the contract of a function that does nothing, so that it stays proved.

ghost use Rattle.std.specs.Prelude.{◌≡◌};
ghost use Rattle.swim_targets.specs.Script.{FollowsOrder, FollowsPlace};
ghost use Rattle.swim_targets.specs.Draws.{DrawsOrder, DrawsPlace, HaveSameWords};
ghost use Rattle.swim_history.specs.Setting.{Setting, IsSetting};
ghost use Rattle.swim_history.specs.Laws.Drawn.{DrawsOnce};
ghost use Rattle.swim_history.specs.Laws.DrawnRuns.{DrawsAlways};

/// An opening, a script and a list of calls, each with its seat, 0 to 3, have exactly one run that `Scripted` draws,
/// and one script is left after it.
pub fn a_script_draws_one_run()
    ensures once { (o : Setting) → IsSetting o → DrawsOnce FollowsOrder FollowsPlace (λ one other. one ≡ other) o }
    ensures always { (o : Setting) → IsSetting o → DrawsAlways FollowsOrder FollowsPlace o }
{}

/// An opening, words to come and a list of calls, each with its seat, 0 to 3, have exactly one run that `Seeded` draws,
/// and the words to come after it are determined.
pub fn a_seed_draws_one_run()
    ensures once { (o : Setting) → IsSetting o → DrawsOnce DrawsOrder DrawsPlace HaveSameWords o }
    ensures always { (o : Setting) → IsSetting o → DrawsAlways DrawsOrder DrawsPlace o }
{}
