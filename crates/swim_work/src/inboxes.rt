//! Who takes what the ticker left for the receiver.

ghost use Rattle.std.specs.Prelude.{◌≡◌, ◌++◌, ◌∷◌, []};

use crate::tidings::{Tidings, TidingsBoard};
use std::marker::Model;
use std::sync::Wait;
use swim_trail::Trail;

/// Takes what was left on a board. A contract sees what it took so far, oldest first.
#[derive(Drop)]
pub struct TidingsInbox<'b> {
    board: &'b TidingsBoard,
    taken: Trail<Tidings>,
}

impl<'b> Model for TidingsInbox<'b> {
    ghost use Rattle.std.specs.Prelude.{List, map};
    ghost use Rattle.swim_work.specs.declared.tidings.Tidings.{Tidings};

    ghost Value = { List Tidings };

    ghost view = { λ w. map (λ i. i.0) w.taken.items };
}

impl<'b> TidingsInbox<'b> {
    /// Nothing was taken yet.
    pub fn new(board: &'b TidingsBoard) -> TidingsInbox<'b>
        ensures { result ≡ [] }
    {
        TidingsInbox {
            board,
            taken: Trail::new(),
        }
    }

    /// Takes what was left until now.
    #[tactic(auto, using(swim_trail::specs::Noted::map_more))]
    pub fn take<R: Wait>(&mut self, rt: &R) -> Tidings
        ensures { self.new ≡ self.old ++ result ∷ [] }
    {
        let tidings = self.board.take(rt);
        self.taken.note(&tidings, &[]);
        tidings
    }
}
