//! The simulator: a script in, replies out.

ghost use Rattle.std.specs.Prelude.{◌≡◌, if◌then◌else◌, OnOk};
ghost use Rattle.swim_text.specs.Streams.{one_more};
ghost use Rattle.swim_script.specs.Ends.{LeavesKnown, unplayed};
ghost use Rattle.swim_script.specs.Reads.{IsReadWhole, ReadsKnown};
ghost use Rattle.swim_script.specs.Script.{RunsKnown, is_read, is_write};

use crate::commands::LINE_BYTES;
use crate::faults::{FaultKind, ScriptFault};
use crate::forms::Form;
use crate::session::Session;
use crate::tellers::{PlainTeller, Teller};
use arrayvec::ArrayVec;
use swim_text::{Sink, Source, Taken, next_line};

/// Plays the script that the reader gives, and writes its answers. Each answer is written as soon as its
/// line was read, and handed on before the reader is waited for. What a journal file tells of answers is compared with
/// them, and the first that differs ends the run. After a script without a fault the writer holds no answer back, and
/// the reader has no byte left. No more is read than one byte behind the most that a script of its form may have. The
/// session, of which no line was read before, has the journal of the run afterwards.
pub fn run<R: Source, W: Sink>(
    session: &mut Session,
    reader: &mut R,
    writer: &mut W,
) -> Result<(), ScriptFault>
    requires { session.old ≡ unplayed }
    ensures told { RunsKnown (R.left reader.old) (R.left reader.new)
        (W.written writer.old) (W.written writer.new) result }
    ensures within { ReadsKnown (R.left reader.old) (R.left reader.new) }
    ensures whole { OnOk result (IsReadWhole (R.left reader.old) (R.left reader.new)) }
    ensures reads { R.failures reader.new ≡
        (if is_read result then one_more (R.failures reader.old) else R.failures reader.old) }
    ensures writes { W.failures writer.new ≡
        (if is_write result then one_more (W.failures writer.old) else W.failures writer.old) }
    ensures leaves { LeavesKnown result (R.left reader.old) (W.written writer.old) (W.written writer.new) session.new }
    ensures sent { OnOk result (W.held writer.new ≡ 0) }
{
    play(session, reader, writer, &mut PlainTeller {})
}

/// Plays the script that the reader gives, as `run` does, and has somebody write its answers.
pub fn play<R: Source, W: Sink, T: Teller<W>>(
    session: &mut Session,
    reader: &mut R,
    writer: &mut W,
    teller: &mut T,
) -> Result<(), ScriptFault>
    requires { session.old ≡ unplayed }
    ensures told { RunsKnown (R.left reader.old) (R.left reader.new)
        (W.written writer.old) (W.written writer.new) result }
    ensures within { ReadsKnown (R.left reader.old) (R.left reader.new) }
    ensures whole { OnOk result (IsReadWhole (R.left reader.old) (R.left reader.new)) }
    ensures reads { R.failures reader.new ≡
        (if is_read result then one_more (R.failures reader.old) else R.failures reader.old) }
    ensures writes { W.failures writer.new ≡
        (if is_write result then one_more (W.failures writer.old) else W.failures writer.old) }
    ensures leaves { LeavesKnown result (R.left reader.old) (W.written writer.old) (W.written writer.new) session.new }
    ensures sent { OnOk result (W.held writer.new ≡ 0) }
{
    let mut line = ArrayVec::<u8, LINE_BYTES>::new();
    let mut form = Form::Script;
    let mut budget = form.bytes();
    loop {
        match next_line(reader, writer, &mut line, &mut budget) {
            Taken::Line => {
                let told = session.form_with(form, line.as_slice());
                budget += told.bytes() - form.bytes();
                form = told;
                session.turn(form, line.as_slice(), writer, teller)?;
            }
            Taken::Over => return session.end(),
            Taken::Long => return Err(session.fault(FaultKind::Long)),
            Taken::Size => return Err(session.fault(FaultKind::Size)),
            Taken::Failed => return Err(session.fault(FaultKind::Read)),
            Taken::Unsent => return Err(session.fault(FaultKind::Write)),
        }
    }
}
