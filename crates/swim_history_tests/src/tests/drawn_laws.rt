ghost use Rattle.std.specs.Prelude.{◌≡◌, ⊤};
ghost use Rattle.swim_history.specs.Setting.{Setting, IsSetting};
ghost use Rattle.swim_history.specs.Laws.Drawn.{DrawsOnce};
ghost use Rattle.swim_history.specs.Laws.DrawnRuns.{DrawsAlways};

use swim_history::drawn_laws::{Drawing, calls_determine_a_drawn_run, calls_have_a_drawn_run};

// A chooser that leaves ids as they are, and takes the first place.
struct Unmoved;

impl Drawing for Unmoved {
    ghost orders = { λ before ids order after. order ≡ ids };

    ghost places = { λ before last place after. place ≡ 0 };

    ghost same = { λ one other. ⊤ };
}

fn unmoved_draws_one_run()
    ensures once { (o : Setting) → IsSetting o →
        DrawsOnce ⟦<Unmoved as Drawing>⟧.orders ⟦<Unmoved as Drawing>⟧.places ⟦<Unmoved as Drawing>⟧.same o }
    ensures always { (o : Setting) → IsSetting o →
        DrawsAlways ⟦<Unmoved as Drawing>⟧.orders ⟦<Unmoved as Drawing>⟧.places o }
{
    calls_determine_a_drawn_run::<Unmoved>();
    calls_have_a_drawn_run::<Unmoved>();
}

#[test]
fn a_chooser_that_moves_nothing_draws_one_run() {
    unmoved_draws_one_run();
}
