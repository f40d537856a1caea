//! A herald that counts, and a shelf without files.

ghost use Rattle.std.specs.Prelude.{None};

use swim_recorder::Shelf;
use swim_telling::Herald;
use swim_text::{Page, Sink};

/// A herald that counts the lives that it is told of, and tells nothing.
#[derive(Drop)]
pub struct Counter {
    pub begun: u64,
}

impl Herald for Counter {
    ghost begun = { λ c. None };

    #[tactic(auto, using(swim_telling::specs::Notices::no_notices))]
    fn begins<F: Sink>(&mut self, _number: u64, _notices: &mut F) {
        self.begun = self.begun.saturating_add(1);
    }
}

/// A shelf without files.
#[derive(Drop)]
pub struct NoShelf {}

impl Shelf<Page> for NoShelf {
    ghost fresh = { None };

    ghost opened = { λ s. None };

    ghost filed = { λ s. None };

    #[tactic(auto, using(swim_telling::specs::Notices::no_notices))]
    fn open<F: Sink>(&mut self, _number: u64, _notices: &mut F) -> Option<Page> {
        None
    }

    #[tactic(auto, using(swim_telling::specs::Notices::no_notices, swim_recorder::specs::Filed::unknown_back))]
    fn close<F: Sink>(&mut self, _number: u64, _sink: Page, _notices: &mut F) -> bool {
        false
    }
}
