//! Texts in memory, made of pieces.

ghost use Rattle.std.specs.Prelude.{◌≡◌, IfOk};
ghost use Rattle.swim_wire.specs.Pieces.{pieces_text};

use std::alloc::{AllocError, Global};
use swim_text::Page as Text;
use swim_wire::{Piece, put_pieces};

/// Returns the pieces one after another. Fails if memory is refused.
pub(crate) fn text_of(alloc: Global, pieces: &[Piece<'_>]) -> Result<Text, AllocError>
    ensures { IfOk result (λ text. text.text ≡ pieces_text pieces.now) }
{
    let mut text = Text::new(alloc);
    if put_pieces(&mut text, pieces) {
        Ok(text)
    } else {
        Err(AllocError)
    }
}
