//! One line of a connection: it is read, its command is carried out, and it is answered.

ghost use Rattle.std.specs.Prelude.{◌≡◌, not, Ok};
ghost use Rattle.swim_text.specs.Streams.{failures_if};
ghost use Rattle.swim_control.specs.declared.commands.Said.TheVariants.{Asks};
ghost use Rattle.swim_control.specs.declared.desks.DeskCommand.{DeskCommand};
ghost use Rattle.swim_control.specs.Commands.{line_said, said_by};
ghost use Rattle.swim_control.specs.Serving.{is_write_fault};
ghost use Rattle.swim_control.specs.Texts.{fault_text};
ghost use Rattle.swim_control.specs.Turns.{Turned, IsFaulted, Meets, end_of_answer, closed};

use crate::commands::{Said, read_line};
use crate::desks::{Answer, Desk, DeskCommand};
use crate::faults::Fault;
use crate::serving::Served;
use crate::texts::{put_answer, put_counts, put_fault, put_list};
use std::alloc::Global;
use std::sync::Wait;
use swim_history::put_gap;
use swim_text::{LineEnd, Sink};

/// Answers a line, and tells how serving ends with it, if it does.
pub fn turn<R: Wait, W: Sink, D: Desk>(
    rt: &R,
    alloc: Global,
    line: &[u8],
    writer: &mut W,
    desk: &mut D,
) -> Option<Served>
    ensures turned { Turned D.asks (said_by (line_said line.now)) desk.old desk.new (W.written writer.old)
        (W.written writer.new) result }
    ensures failures { W.failures writer.new ≡ failures_if (W.failures writer.old) (not (is_write_fault result)) }
{
    match read_line(line) {
        Err(fault) => close(put_fault(writer, Fault::Words(fault)), None),
        Ok(Said::Stop) => close(writer.put(b"stopping\n"), Some(Served::Stopped)),
        Ok(Said::Asks(command)) => carry_out(rt, alloc, command, writer, desk),
    }
}

/// Does what the end of a line asks for: a whole line is answered, one that is none is told to be. Tells how serving
/// ends with it, if it does. Nothing is handed on.
pub fn meet<R: Wait, W: Sink, D: Desk>(
    rt: &R,
    alloc: Global,
    met: LineEnd,
    line: &[u8],
    writer: &mut W,
    desk: &mut D,
) -> Option<Served>
    ensures { Meets D.asks met line.now desk.old desk.new (W.written writer.old) (W.written writer.new) result }
{
    match met {
        LineEnd::Feed => turn(rt, alloc, line, writer, desk),
        LineEnd::Long => put_end(writer, Fault::LongLine, Served::TooLong),
        LineEnd::Unended => put_end(writer, Fault::Unended, Served::Unended),
        LineEnd::Over => Some(Served::Ended),
        LineEnd::Spent | LineEnd::Failed | LineEnd::Unsent => Some(Served::ReadFault),
    }
}

/// Writes the fault that ends serving, and tells how it ends.
fn put_end<W: Sink>(writer: &mut W, fault: Fault, end: Served) -> Option<Served>
    ensures { IsFaulted fault end (W.written writer.old) (W.written writer.new) result }
{
    close(put_fault(writer, fault), Some(end))
}

/// Does what a command asks, and answers it.
fn carry_out<R: Wait, W: Sink, D: Desk>(
    rt: &R,
    alloc: Global,
    command: DeskCommand,
    writer: &mut W,
    desk: &mut D,
) -> Option<Served>
    ensures turned { Turned D.asks (Ok (Asks command)) desk.old desk.new (W.written writer.old)
        (W.written writer.new) result }
    ensures failures { W.failures writer.new ≡ failures_if (W.failures writer.old) (not (is_write_fault result)) }
{
    match command {
        DeskCommand::List => answer_list(rt, writer, desk),
        DeskCommand::Gap(id) => {
            let gap = desk.gap(rt, id);
            close(put_gap(writer, gap), None)
        }
        DeskCommand::Stats => answer_stats(rt, writer, desk),
        DeskCommand::Reload => answer_reload(rt, writer, desk),
        DeskCommand::Join(id, peer) => {
            let answer = desk.join(rt, alloc, id, peer);
            close(put_answer(writer, answer), end_of(answer))
        }
        DeskCommand::Remove(id) => {
            let answer = desk.remove(rt, alloc, id);
            close(put_answer(writer, answer), end_of(answer))
        }
    }
}

/// Lists the known members.
// Kept out of line: a table is large, and `carry_out` runs for every command.
#[inline(never)]
fn answer_list<R: Wait, W: Sink, D: Desk>(rt: &R, writer: &mut W, desk: &mut D) -> Option<Served>
    ensures turned { Turned D.asks (Ok (Asks DeskCommand.List)) desk.old desk.new (W.written writer.old)
        (W.written writer.new) result }
    ensures failures { W.failures writer.new ≡ failures_if (W.failures writer.old) (not (is_write_fault result)) }
{
    let table = desk.list(rt);
    close(put_list(writer, &table), None)
}

/// Writes what was counted.
// Kept out of line, since the text is large.
#[inline(never)]
fn answer_stats<R: Wait, W: Sink, D: Desk>(rt: &R, writer: &mut W, desk: &mut D) -> Option<Served>
    ensures turned { Turned D.asks (Ok (Asks DeskCommand.Stats)) desk.old desk.new (W.written writer.old)
        (W.written writer.new) result }
    ensures failures { W.failures writer.new ≡ failures_if (W.failures writer.old) (not (is_write_fault result)) }
{
    let text = desk.stats(rt);
    close(put_counts(writer, &text), None)
}

/// Has the configuration read again, and writes what came of it.
// Kept out of line, since the text is large.
#[inline(never)]
fn answer_reload<R: Wait, W: Sink, D: Desk>(rt: &R, writer: &mut W, desk: &mut D) -> Option<Served>
    ensures turned { Turned D.asks (Ok (Asks DeskCommand.Reload)) desk.old desk.new (W.written writer.old)
        (W.written writer.new) result }
    ensures failures { W.failures writer.new ≡ failures_if (W.failures writer.old) (not (is_write_fault result)) }
{
    let text = desk.reload(rt);
    close(writer.put(text.as_slice()), None)
}

/// How serving ends with an answer, if it does.
fn end_of(answer: Answer) -> Option<Served>
    ensures { result ≡ end_of_answer answer }
{
    match answer {
        Answer::JournalFull => Some(Served::JournalFull),
        _ => None,
    }
}

/// How serving ends with an answer that was written, or was not.
fn close(done: bool, end: Option<Served>) -> Option<Served>
    ensures { result ≡ closed done end }
{
    if done { end } else { Some(Served::WriteFault) }
}
