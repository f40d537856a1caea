//! What came of a line, and its text.

ghost use Rattle.std.specs.Prelude.{◌≡◌};
ghost use Rattle.swim_text.specs.Streams.{Puts, failures_if};
ghost use Rattle.swim_script.specs.Holds.{table_of};
ghost use Rattle.swim_script.specs.Outcomes.{text_with};

use crate::answers::{put_answer, put_wire_fault};
use crate::choosers::Drawer;
use swim_detector::Recorder;
use swim_history::{Call, put_gap, put_table};
use swim_text::Sink;
use swim_wire::{Id, WireFault};

/// What came of a line that is answered.
#[derive(Clone, Copy, Debug)]
pub enum LineOutcome {
    /// This call was made; the session's newest reply answers it.
    Made(Call),
    /// This call was not made, since the journal is full.
    Full(Call),
    /// This call was not made, since memory for its entry was refused.
    NoMemory(Call),
    /// Bytes came that are no datagram.
    Unread(WireFault),
    /// The member table is shown.
    Table,
    /// The widest gap between probes of this member is shown.
    Gap(Id),
}

/// Writes what came of a line after the calls of that recorder.
#[tactic(auto, using(crate::proofs::Outcoming::latest_is))]
#[inline(always)]
pub fn put_outcome<W: Sink>(
    recorder: &Recorder<Drawer>,
    outcome: &LineOutcome,
    writer: &mut W,
) -> bool
    ensures bytes { Puts (W.written writer.old) (W.written writer.new) (text_with recorder.now outcome.now) result }
    ensures failures { W.failures writer.new ≡ failures_if (W.failures writer.old) result }
{
    match outcome {
        LineOutcome::Made(_) => put_answer(writer, recorder.reply(), recorder.journal().opening()),
        LineOutcome::Full(_) => writer.put(b"journal full\n"),
        LineOutcome::NoMemory(_) => writer.put(b"no memory\n"),
        LineOutcome::Unread(fault) => put_wire_fault(writer, *fault),
        LineOutcome::Table => put_rows(recorder, writer),
        LineOutcome::Gap(member) => put_gap(writer, recorder.journal().widest_gap(*member)),
    }
}

/// Writes the member table.
// A function of its own, since a table is large and each line has its outcome put.
#[inline(never)]
fn put_rows<W: Sink>(recorder: &Recorder<Drawer>, writer: &mut W) -> bool
    ensures bytes { Puts (W.written writer.old) (W.written writer.new) (table_of recorder.now) result }
    ensures failures { W.failures writer.new ≡ failures_if (W.failures writer.old) result }
{
    put_table(writer, recorder.table().as_slice())
}
