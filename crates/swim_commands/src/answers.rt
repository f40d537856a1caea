//! What a daemon answers to a control line, as far as whoever asks has to know.

ghost use Rattle.std.specs.Prelude.{◌≡◌};
ghost use Rattle.swim_commands.specs.Answers.{begins_with_digit, is_answer, is_answer_to, is_over, is_refusal, is_row, is_stop};
ghost use Rattle.swim_commands.specs.Answers.{is_stopping};

use arrayvec::ArrayVec;
use swim_text::Words;

/// Room for an answer. The longest, counts of 128 members, has at most 73,728.
const ANSWER_BYTES: usize = 73_728;

/// The answer of a daemon that stops.
pub const STOPPING: &[u8] = b"stopping\n";

/// An answer, or a front of one.
pub type ControlAnswer = ArrayVec<u8, ANSWER_BYTES>;

/// Whether a text is a whole answer: rows of a table, which begin with a digit, or of counts, which begin with the
/// program's name, and then one other line.
pub fn is_answer(text: &[u8]) -> bool
    ensures { result ≡ is_answer text.now }
{
    let mut lines = Words::split(text, b'\n');
    while let Some(line) = lines.next() {
        if !is_row(line) {
            return is_over(&mut lines);
        }
    }
    false
}

/// Whether a text is a whole answer to this line: `stop` is answered by that the daemon stops, or by a refusal.
pub fn is_answer_to(line: &[u8], text: &[u8]) -> bool
    ensures { result ≡ is_answer_to line.now text.now }
{
    is_answer(text) && (!is_stop(line) || is_stopping(text) || is_refusal(text))
}

/// Whether a line asks a daemon to stop.
pub fn is_stop(line: &[u8]) -> bool
    ensures { result ≡ is_stop line.now }
{
    line == b"stop\n".as_slice()
}

/// Whether nothing is left but what stands behind the last line feed.
#[tactic(auto, using(crate::proofs::Lines::over_is))]
pub(crate) fn is_over(lines: &mut Words<'_>) -> bool
    ensures { result ≡ is_over lines.old }
{
    match lines.next() {
        Some(rest) => rest.is_empty() && lines.is_empty(),
        None => false,
    }
}

/// Whether a line is a row of a table or of counts.
fn is_row(line: &[u8]) -> bool
    ensures { result ≡ is_row line.now }
{
    begins_with_digit(line) || line.starts_with(b"swimd_")
}

fn begins_with_digit(line: &[u8]) -> bool
    ensures { result ≡ begins_with_digit line.now }
{
    match line.first() {
        Some(first) => first.is_ascii_digit(),
        None => false,
    }
}

/// Whether an answer says that what was asked was not done.
pub fn is_refusal(answer: &[u8]) -> bool
    ensures { result ≡ is_refusal answer.now }
{
    answer.starts_with(b"refused ")
        || answer.starts_with(b"fault ")
        || answer.starts_with(b"configuration ")
        || answer == b"journal full\n".as_slice()
        || answer == b"no memory\n".as_slice()
}

/// Whether an answer says that the daemon stops.
pub fn is_stopping(answer: &[u8]) -> bool
    ensures { result ≡ is_stopping answer.now }
{
    answer == STOPPING
}
