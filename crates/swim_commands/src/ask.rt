//! Asking a daemon that runs.

ghost use Rattle.std.specs.Prelude.{◌≡◌, ◌||◌};
ghost use Rattle.swim_text.specs.Streams.{Puts};
ghost use Rattle.swim_commands.specs.Asking.{Asking, Asks, AsksBeside, Passes, asked_so, stopped_so};
ghost use Rattle.swim_commands.specs.Forms.{shown};

use crate::answers::{ControlAnswer, is_stopping};
use crate::askers::{Asker, Came};
use crate::control_lines::{ControlLine, NextLine, read_line};
use crate::forms::{Form, is_unmet, needs_counts, put_shown};
use crate::sockets::ControlSocket;
use std::io::ErrorKind;
use std::net::Net;
use std::rt::Clock;
use swim_outcomes::{Details, Outcome, words_of};
use swim_text::{Sink, Source};

/// Asks the daemon at a path the lines of an input, and writes its answers in a form. Each of them may take so many
/// seconds.
pub fn ask_daemon<R: Net + Clock, S: Source, W: Sink>(
    rt: &R,
    path: &str,
    seconds: u64,
    form: Form,
    reader: &mut S,
    writer: &mut W,
    details: &mut Details,
) -> Outcome
    ensures { Asks form (S.left reader.old) (S.left reader.new) (W.written writer.old) (W.written writer.new)
        result }
{
    match ControlSocket::open(rt, path, seconds) {
        Ok(mut socket) => ask_lines(form, reader, &mut socket, writer),
        Err(fault) if fault.kind() == ErrorKind::TimedOut => Outcome::AskTimeout,
        Err(fault) => {
            details.add_of(path, words_of(fault.kind()));
            Outcome::NoDaemon
        }
    }
}

/// Asks line after line, and passes on the answer to each before the next is read, up to the end of the input, to an
/// answer that doesn't come, or to the end of who is asked.
#[tactic(auto, using(crate::proofs::Exchanges::none_asked, crate::proofs::Exchanges::one_more_asked, crate::proofs::Exchanges::goes_on, crate::proofs::Exchanges::ends_asked, crate::proofs::Exchanges::ends_unread, crate::proofs::Exchanges::ends_spent, crate::proofs::Exchanges::ends_broken, crate::proofs::Exchanges::ends_stopped))]
fn ask_lines<S: Source, A: Asker, W: Sink>(
    form: Form,
    reader: &mut S,
    asker: &mut A,
    writer: &mut W,
) -> Outcome
    ensures { Asking form
        (record { left = S.left reader.old; written = W.written writer.old; asked = A.asked asker.old })
        (record { left = S.left reader.new; written = W.written writer.new; asked = A.asked asker.new }) result }
{
    let mut line = ControlLine::new();
    let mut answer = ControlAnswer::new();
    let mut counts = ControlAnswer::new();
    let mut is_refused = false;
    for _turn in 0..u64::MAX {
        match read_line(reader, &mut line) {
            NextLine::Line => {}
            NextLine::Over => return asked(is_refused),
            NextLine::Fault => return Outcome::AskUnread,
        }
        if let Err(outcome) = pass(
            form,
            line.as_slice(),
            asker,
            &mut answer,
            &mut counts,
            writer,
        ) {
            return outcome;
        }
        is_refused = is_either(is_refused, is_unmet(form, answer.as_slice()));
        if is_stopping(answer.as_slice()) {
            return stopped(asker.leave(), is_refused);
        }
    }
    Outcome::AskUnread
}

/// Asks a line, and passes its answer on in a form, by the daemon's counts if they are needed.
fn pass<A: Asker, W: Sink>(
    form: Form,
    line: &[u8],
    asker: &mut A,
    answer: &mut ControlAnswer,
    counts: &mut ControlAnswer,
    writer: &mut W,
) -> Result<(), Outcome>
    ensures { Passes form line.now result answer.new.items (W.written writer.old) (W.written writer.new)
        (A.asked asker.old) (A.asked asker.new) }
{
    match asker.ask(line, answer) {
        Came::Answer => {}
        Came::Late => return Err(Outcome::AskTimeout),
        Came::Nothing => return Err(Outcome::Unanswered),
    }
    ask_beside(form, answer.as_slice(), asker, counts);
    if !put_answer(form, answer.as_slice(), counts.as_slice(), writer) {
        return Err(Outcome::AskUnwritten);
    }
    Ok(())
}

/// Asks for the daemon's counts if they are needed to write an answer. Leaves none if they don't come: the answer is
/// written without them.
#[tactic(auto, using(crate::proofs::Beside::none_beside))]
fn ask_beside<A: Asker>(form: Form, answer: &[u8], asker: &mut A, counts: &mut ControlAnswer)
    ensures { AsksBeside form answer.now counts.new.items (A.asked asker.old) (A.asked asker.new) }
{
    counts.clear();
    if !needs_counts(form, answer) {
        return;
    }
    match asker.ask(b"stats\n", counts) {
        Came::Answer => {}
        Came::Late => counts.clear(),
        Came::Nothing => counts.clear(),
    }
}

/// Writes an answer in a form, by these counts of the daemon, and hands it on. Whether all of it was taken.
#[tactic(auto, using(swim_streams::proofs::Taken::put_and_flushed))]
fn put_answer<W: Sink>(form: Form, answer: &[u8], counts: &[u8], writer: &mut W) -> bool
    ensures { Puts (W.written writer.old) (W.written writer.new) (shown form counts.now answer.now) result }
{
    if !put_shown(form, answer, counts, writer) {
        return false;
    }
    writer.flush()
}

/// Whether one of two things is so.
fn is_either(first: bool, second: bool) -> bool
    ensures { result ≡ (first || second) }
{
    first || second
}

/// How asking ended where who was asked stops.
fn stopped(came: Came, is_refused: bool) -> Outcome
    ensures { result ≡ stopped_so came is_refused }
{
    match came {
        Came::Late => Outcome::AskTimeout,
        Came::Answer | Came::Nothing => asked(is_refused),
    }
}

/// How asking ended where each line was answered.
fn asked(is_refused: bool) -> Outcome
    ensures { result ≡ asked_so is_refused }
{
    if is_refused {
        Outcome::AskRefused
    } else {
        Outcome::Asked
    }
}
