//! Sources that are looked at and never waited for, and the reading of their lines as they come.

ghost use Rattle.std.specs.Prelude.{◌≡◌, length};
ghost use Rattle.swim_text.specs.ShortLines.{Advances};
ghost use Rattle.swim_text.specs.Polled.{GivesOn, Looks, end_met};

use crate::short_lines::{LineEnd, at_end, read_ready};
use crate::streams::Source;
use arrayvec::ArrayVec;

/// What a look at a source found.
#[derive(Clone, Copy, Debug, PartialEq, Eq)]
pub enum Look {
    /// Bytes, which can be had now.
    Ready,
    /// None came yet.
    Nothing,
    /// There are no more.
    Over,
    /// The source is out of order.
    Fault,
}

/// A source that can be looked at without waiting.
pub trait Polled: Source {
    /// Gets what came by now, where no byte is ready. Nothing is taken.
    fn look(&mut self) -> Look
        ensures looks { Looks (Self.left self.old) (Self.left self.new) (Self.ready self.new) result }
        ensures given { Self.given self.new ≡ Self.given self.old };
}

/// How far the reading of a line got.
#[derive(Clone, Copy, Debug, PartialEq, Eq)]
pub enum Met {
    /// Nothing came.
    Nothing,
    /// Something came, and more of the line is to come.
    Part,
    /// What ended the line.
    End(LineEnd),
}

/// Reads on in a line with what came by now, and never waits: it looks where no byte is ready, and else takes the
/// bytes that are, as `next_short_line` does.
#[tactic(auto, using(crate::proofs::Giving::gives_none, crate::proofs::Giving::gives_these))]
pub fn read_on<R: Polled, const LIMIT: usize>(
    reader: &mut R,
    line: &mut ArrayVec<u8, LIMIT>,
    reads: &mut u32,
) -> Met
    ensures advances { Advances (end_met result) (R.left reader.old) (R.left reader.new)
        line.old.items line.new.items LIMIT reads.old reads.new }
    ensures given { GivesOn (R.given reader.old) (R.given reader.new) (end_met result)
        line.old.items line.new.items LIMIT reads.old reads.new }
{
    if *reads == 0 {
        return Met::End(LineEnd::Spent);
    }
    if !reader.ready().is_empty() {
        return match read_ready(reader, line, reads) {
            Some(end) => Met::End(end),
            None => Met::Part,
        };
    }
    match reader.look() {
        Look::Ready => Met::Part,
        Look::Nothing => Met::Nothing,
        Look::Fault => Met::End(LineEnd::Failed),
        Look::Over => {
            *reads -= 1;
            Met::End(at_end(line.is_empty()))
        }
    }
}
