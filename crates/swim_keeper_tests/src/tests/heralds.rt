//! A herald that counts.

ghost use Rattle.std.specs.Prelude.{None};

use swim_telling::Herald;
use swim_text::Sink;

/// A herald that counts the lives that it is told of, and tells nothing.
#[derive(Drop)]
pub struct Caller {
    pub begun: u64,
}

impl Herald for Caller {
    ghost begun = { λ c. None };

    #[tactic(auto, using(swim_telling::specs::Notices::no_notices))]
    fn begins<F: Sink>(&mut self, _number: u64, _notices: &mut F) {
        self.begun = self.begun.saturating_add(1);
    }
}
