//! Whether a journal file tells that a member was judged.

ghost use Rattle.std.specs.Prelude.{◌≡◌, option_copied};
ghost use Rattle.swim_disk.specs.Verdicts.{answer_in, judges, tells_verdict};

use arrayvec::ArrayVec;
use swim_text::cut;

/// How many bytes of a line are looked at: as many as there are up to the member that was judged, and its first digit.
const FRONT_BYTES: usize = 40;

/// Looks through the text of a journal file, as it is written, for a verdict.
#[derive(Drop)]
pub struct VerdictSearch {
    // As much as is looked at of the line that isn't at its end yet.
    front: ArrayVec<u8, FRONT_BYTES>,
    is_found: bool,
}

impl VerdictSearch {
    /// Of a file without a text yet.
    pub fn new() -> VerdictSearch {
        VerdictSearch {
            front: ArrayVec::new(),
            is_found: false,
        }
    }

    /// Whether a line of the text so far tells a verdict.
    pub fn is_found(&self) -> bool {
        self.is_found
    }

    /// Looks through what is written next.
    pub fn read(&mut self, text: &[u8]) {
        let mut rest = text;
        for _line in 0..text.len() {
            let Some((line, others)) = cut(rest, b'\n') else {
                break;
            };
            self.add(line);
            self.end_line();
            rest = others;
        }
        self.add(rest);
    }

    /// Adds as much of a line as is looked at.
    fn add(&mut self, line: &[u8]) {
        let count = line.len().min(self.front.remaining_capacity());
        let _is_added = self.front.try_extend_from_slice(&line[..count]);
    }

    /// Looks at the line, whose end has come.
    fn end_line(&mut self) {
        self.is_found = self.is_found || tells_verdict(self.front.as_slice());
        self.front.clear();
    }
}

/// Whether a line that begins so tells a verdict: `= N started judged ID ..`, where a `-` in place of the ID is nobody.
pub fn tells_verdict(line: &[u8]) -> bool
    ensures { result ≡ tells_verdict line.now }
{
    match answer_in(line) {
        Some(answer) => judges(answer),
        None => false,
    }
}

/// The answer in a line `= N ANSWER`, if it is one.
fn answer_in(line: &[u8]) -> Option<&[u8]>
    ensures { option_copied result ≡ answer_in line.now }
{
    let (sign, rest) = cut(line, b' ')?;
    let (_number, answer) = cut(rest, b' ')?;
    if sign == b"=".as_slice() {
        Some(answer)
    } else {
        None
    }
}

/// Whether an answer says that a member was judged.
fn judges(answer: &[u8]) -> bool
    ensures { result ≡ judges answer.now }
{
    answer.starts_with(b"started judged ") && !answer.starts_with(b"started judged -")
}
