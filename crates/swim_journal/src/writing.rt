//! The lines of a node's journal.

ghost use Rattle.std.specs.Prelude.{◌≡◌, ◌++◌};
ghost use Rattle.swim_text.specs.Streams.{Puts, failures_if};
ghost use Rattle.swim_history.specs.Texts.{feed};
ghost use Rattle.swim_script.specs.Texts.{placed_text};
ghost use Rattle.swim_journal.specs.Lines.{answer_line, IsReadBack};
ghost use Rattle.swim_journal.specs.Journals.{kept_text};

use crate::lines::put_call;
use swim_history::{Kept, Reply};
use swim_script::put_placed;
use swim_text::Sink;

/// The lines of an answered call: the call's, which reads back as the call, and one that tells its place and its reply.
pub fn put_kept<W: Sink>(writer: &mut W, kept: &Kept) -> bool
    ensures bytes { Puts (W.written writer.old) (W.written writer.new) (kept_text kept.now) result }
    ensures failures { W.failures writer.new ≡ failures_if (W.failures writer.old) result }
    ensures back { IsReadBack kept.now.call }
{
    if !put_call(writer, &kept.call) {
        return false;
    }
    put_answer(writer, kept.position, &kept.reply)
}

/// The line of what was answered, and where.
fn put_answer<W: Sink>(writer: &mut W, place: u32, reply: &Reply) -> bool
    ensures bytes { Puts (W.written writer.old) (W.written writer.new) (answer_line place reply.now) result }
    ensures failures { W.failures writer.new ≡ failures_if (W.failures writer.old) result }
{
    if !writer.put(b"= ") {
        return false;
    }
    put_placed_line(writer, place, reply)
}

fn put_placed_line<W: Sink>(writer: &mut W, place: u32, reply: &Reply) -> bool
    ensures bytes { Puts (W.written writer.old) (W.written writer.new) (placed_text place reply.now ++ feed) result }
    ensures failures { W.failures writer.new ≡ failures_if (W.failures writer.old) result }
{
    if !put_placed(writer, place, reply) {
        return false;
    }
    writer.put(b"\n")
}
