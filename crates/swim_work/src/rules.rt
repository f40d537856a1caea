//! Who looks up the N that is in force: at each N-th start of a period a member knocks, and N may change while a daemon
//! runs.

ghost use Rattle.std.specs.Prelude.{◌≡◌, ◌++◌, ◌∷◌, []};

use crate::tidings::TidingsBoard;
use std::marker::Model;
use swim_trail::Trail;

/// Answers which N is in force, as a board has it: there is a knock at each N-th start of a period. A contract sees what
/// it answered so far, oldest first.
#[derive(Drop)]
pub struct RejoinLookup<'b> {
    board: &'b TidingsBoard,
    answered: Trail<u16>,
}

impl<'b> Model for RejoinLookup<'b> {
    ghost use Rattle.std.specs.Prelude.{List, map, ℕ};

    ghost Value = { List ℕ };

    ghost view = { λ w. map (λ i. i.0) w.answered.items };
}

impl<'b> RejoinLookup<'b> {
    /// It was asked nothing yet.
    pub fn new(board: &'b TidingsBoard) -> RejoinLookup<'b>
        ensures { result ≡ [] }
    {
        RejoinLookup {
            board,
            answered: Trail::new(),
        }
    }

    /// The N that is in force; 0 where there are no knocks.
    #[tactic(auto, using(swim_trail::specs::Noted::map_more))]
    pub fn rejoin(&mut self) -> u16
        ensures { self.new ≡ self.old ++ result ∷ [] }
    {
        let rejoin = self.board.rejoin();
        self.answered.note(&rejoin, &[]);
        rejoin
    }
}
