//! Serving a connection: its lines are read, and answered.

ghost use Rattle.std.specs.Prelude.{◌≡◌, ◌⊎◌, ℕ, Some, not, false};
ghost use Rattle.std.specs.Io.KnownBytes.{Keeps};
ghost use Rattle.swim_text.specs.Streams.{failures_if};
ghost use Rattle.swim_control.specs.Serving.{IsServedKnown, ReadsFail, is_write_fault};
ghost use Rattle.swim_control.specs.Texts.{fault_text};
ghost use Rattle.swim_control.specs.Turns.{IsLast};

use crate::commands::LINE_BYTES;
use crate::desks::Desk;
use crate::faults::Fault;
use crate::texts::put_fault;
use crate::turns::turn;
use arrayvec::ArrayVec;
use std::alloc::Global;
use std::sync::Wait;
use swim_text::{LineEnd, Sink, Source, next_short_line};

/// How many reads of one byte a connection may have.
pub(crate) const READS: u32 = 1_048_576;

/// How serving a connection ended.
#[derive(Clone, Copy, Debug, PartialEq, Eq)]
pub enum Served {
    /// The input ended between two lines.
    Ended,
    /// The input ended within a line.
    Unended,
    /// A line had more than 128 bytes.
    TooLong,
    /// A line said so.
    Stopped,
    /// The desk's journal is full.
    JournalFull,
    /// A read failed, or the connection has had all its reads. The whole lines that were read were answered.
    ReadFault,
    /// A write failed, in place of any other end. What went out of the answer to the last line is a front of it.
    WriteFault,
}

/// Serves a connection: answers each line that the reader gives, by what the desk tells, until the input ends or a
/// line ends it. Each answer is handed on before the reader is waited for, and the last one before serving ends.
pub fn serve<R: Wait, S: Source, W: Sink, D: Desk>(
    rt: &R,
    alloc: Global,
    reader: &mut S,
    writer: &mut W,
    desk: &mut D,
) -> Served
    ensures served { IsServedKnown D.asks (S.left reader.old) (S.left reader.new) desk.old desk.new
        (W.written writer.old) (W.written writer.new) result }
    ensures reads { ReadsFail result (S.left reader.old) (S.left reader.new) (S.failures reader.old)
        (S.failures reader.new) }
    ensures writes { W.failures writer.new ≡ failures_if (W.failures writer.old) (not (is_write_fault (Some result))) }
    ensures sent { is_write_fault (Some result) ≡ false → W.held writer.new ≡ 0 }
{
    let mut line = ArrayVec::<u8, LINE_BYTES>::new();
    let mut reads = READS;
    loop {
        match next_short_line(reader, writer, &mut line, &mut reads) {
            LineEnd::Feed => {
                if let Some(end) = turn(rt, alloc, line.as_slice(), writer, desk) {
                    return send(writer, end);
                }
            }
            LineEnd::Long => return end_with_fault(writer, Fault::LongLine, Served::TooLong),
            LineEnd::Unended => return end_with_fault(writer, Fault::Unended, Served::Unended),
            LineEnd::Over => return send(writer, Served::Ended),
            LineEnd::Spent => return send(writer, Served::ReadFault),
            LineEnd::Failed => return Served::ReadFault,
            LineEnd::Unsent => return Served::WriteFault,
        }
    }
}

/// Writes the fault of a last line, and hands it on.
fn end_with_fault<W: Sink>(writer: &mut W, fault: Fault, end: Served) -> Served
    requires { is_write_fault (Some end) ≡ false }
    ensures told { IsLast (W.written writer.old) (W.written writer.new) (fault_text fault) end result }
    ensures failures { W.failures writer.new ≡ failures_if (W.failures writer.old)
        (not (is_write_fault (Some result))) }
    ensures sent { is_write_fault (Some result) ≡ false → W.held writer.new ≡ 0 }
{
    if !put_fault(writer, fault) {
        return Served::WriteFault;
    }
    send(writer, end)
}

/// Hands on what was written before serving ends, unless a write has failed already.
fn send<W: Sink>(writer: &mut W, end: Served) -> Served
    ensures kept { Keeps (W.written writer.old) (W.written writer.new) }
    ensures ends { (result ≡ end) ⊎ (result ≡ Served.WriteFault) }
    ensures failures { (n : ℕ) → W.failures writer.old ≡ failures_if n (not (is_write_fault (Some end))) →
        W.failures writer.new ≡ failures_if n (not (is_write_fault (Some result))) }
    ensures sent { is_write_fault (Some result) ≡ false → W.held writer.new ≡ 0 }
{
    if end == Served::WriteFault || !writer.flush() {
        Served::WriteFault
    } else {
        end
    }
}
