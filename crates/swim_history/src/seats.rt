//! What a caller keeps of its calls.

ghost use Rattle.std.specs.Prelude.{◌≡◌, ◌↔◌, IsTrue};

use crate::calls::Call;
use crate::replies::Reply;

/// An answered call.
#[derive(Debug, Drop)]
pub struct Kept {
    /// How many entries stand before it in the journal.
    pub position: u32,
    /// How many calls the seat had made before it.
    pub number: u32,
    pub call: Call,
    pub reply: Reply,
}
