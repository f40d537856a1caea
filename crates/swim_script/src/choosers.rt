//! Who chooses in a script: a seed, or what was written down.

ghost use Rattle.std.specs.Prelude.{◌≡◌};
ghost use Rattle.swim_script.specs.Choosers.{ChoosesOrder, ChoosesPlace};

use swim_targets::{Chooser, Scripted, Seeded};
use swim_wire::Id;

/// The chooser of a script.
#[derive(Drop)]
pub enum Drawer {
    /// It draws from the stream of a seed.
    Seeded(Seeded),
    /// It follows orders and places that were written down.
    Scripted(Scripted),
}

impl Chooser for Drawer {
    ghost orders = { ChoosesOrder };

    ghost places = { ChoosesPlace };

    fn order(&mut self, ids: &mut [Id]) {
        match self {
            Drawer::Seeded(chooser) => chooser.order(ids),
            Drawer::Scripted(chooser) => chooser.order(ids),
        }
    }

    fn place(&mut self, upto: u32) -> u32 {
        match self {
            Drawer::Seeded(chooser) => chooser.place(upto),
            Drawer::Scripted(chooser) => chooser.place(upto),
        }
    }
}
