//! Lines for people, as they are written.

ghost use Rattle.std.specs.Prelude.{◌≡◌, false};
ghost use Rattle.swim_text.specs.Lines.{has_feed};
ghost use Rattle.swim_telling.specs.Notices.{Notices, line_text};
ghost use Rattle.swim_telling.specs.Telling.{TellsText};

use swim_text::Sink;
use swim_wire::{Piece, put_pieces};

/// Writes a line, with a line feed behind it, and hands it on. Where it can't be written nothing else changes.
pub fn tell_line<F: Sink>(line: &[u8], faults: &mut F)
    requires { has_feed line.now ≡ false }
    ensures { Notices (F.written faults.old, F.failures faults.old)
        (F.written faults.new, F.failures faults.new) }
{
    put_line(line, faults);
}

/// Writes bytes in the same way, whatever stands in them.
fn put_line<F: Sink>(line: &[u8], faults: &mut F)
    ensures { TellsText (line_text line.now) (F.written faults.old, F.failures faults.old)
        (F.written faults.new, F.failures faults.new) }
{
    let pieces = [Piece::Text(line), Piece::Text(b"\n")];
    let _is_put = put_pieces(faults, &pieces);
    let _is_sent = faults.flush();
}
