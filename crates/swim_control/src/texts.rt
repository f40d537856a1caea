//! The texts of answers, written to a sink. Each function answers whether the sink took its text.

ghost use Rattle.std.specs.Prelude.{◌≡◌, ◌++◌, decimal};
ghost use Rattle.swim_text.specs.Streams.{Puts, failures_if};
ghost use Rattle.swim_history.specs.Texts.{feed};
ghost use Rattle.swim_control.specs.Texts.{fault_text, list_text, answer_text};

use crate::desks::{Answer, StatsText};
use crate::faults::Fault;
use swim_history::{Table, put_table};
use swim_text::{Sink, put_numbered};

/// The line of a fault.
pub fn put_fault<W: Sink>(writer: &mut W, fault: Fault) -> bool
    ensures bytes { Puts (W.written writer.old) (W.written writer.new) (fault_text fault) result }
    ensures failures { W.failures writer.new ≡ failures_if (W.failures writer.old) result }
{
    put_number_line(writer, b"fault ", u64::from(fault.number()))
}

/// The lines of a member table, or that there is none.
pub fn put_list<W: Sink>(writer: &mut W, table: &Option<Table>) -> bool
    ensures bytes { Puts (W.written writer.old) (W.written writer.new) (list_text table.now) result }
    ensures failures { W.failures writer.new ≡ failures_if (W.failures writer.old) result }
{
    match table {
        None => writer.put(b"closed\n"),
        Some(table) => put_table(writer, table.as_slice()),
    }
}

/// The line of an answer.
pub fn put_answer<W: Sink>(writer: &mut W, answer: Answer) -> bool
    ensures bytes { Puts (W.written writer.old) (W.written writer.new) (answer_text answer) result }
    ensures failures { W.failures writer.new ≡ failures_if (W.failures writer.old) result }
{
    match answer {
        Answer::Joined(place) => put_number_line(writer, b"joined ", u64::from(place)),
        Answer::Removed => writer.put(b"removed\n"),
        Answer::Refused(why) => put_number_line(writer, b"refused ", u64::from(why)),
        Answer::JournalFull => writer.put(b"journal full\n"),
        Answer::NoMemory => writer.put(b"no memory\n"),
    }
}

/// A text of counts.
pub fn put_counts<W: Sink>(writer: &mut W, text: &StatsText) -> bool
    ensures bytes { Puts (W.written writer.old) (W.written writer.new) text.now.items result }
    ensures failures { W.failures writer.new ≡ failures_if (W.failures writer.old) result }
{
    writer.put(text.as_slice())
}

/// The line of a word and a number.
fn put_number_line<W: Sink>(writer: &mut W, word: &[u8], number: u64) -> bool
    ensures bytes { Puts (W.written writer.old) (W.written writer.new) (word.now ++ (decimal number ++ feed)) result }
    ensures failures { W.failures writer.new ≡ failures_if (W.failures writer.old) result }
{
    if !put_numbered(writer, word, number) {
        return false;
    }
    writer.put(b"\n")
}
