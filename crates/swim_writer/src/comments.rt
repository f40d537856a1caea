//! The comments of journal files, for people: when things happened, and which joins the daemon made by itself.

ghost use Rattle.std.specs.Prelude.{◌≡◌, true, codes};
ghost use Rattle.swim_journal.specs.Comments.{IsCommentLine, MayComment};

use arrayvec::ArrayString;
use jiff::Timestamp;
use std::fmt::Write;
use std::rt::Clock;
use swim_config::TimeUnit;

/// Room for a comment.
const COMMENT_BYTES: usize = 80;

/// The comment behind the line that begins so: one whole line that begins with `#`. It is empty where the line has
/// none. It tells the program's version that is handed in, and to this unit when a period began.
pub fn comment_behind<K: Clock>(
    clock: &K,
    version: &str,
    unit: TimeUnit,
    line: &[u8],
) -> ArrayString<COMMENT_BYTES>
    ensures { MayComment result.bytes }
{
    let comment = words_behind(clock, version, unit, line);
    if is_comment_line(comment.as_str().as_bytes()) {
        comment
    } else {
        ArrayString::new()
    }
}

/// The comment behind the answer to a join that the daemon made by itself.
#[tactic(auto, using(crate::proofs::HeldTexts::own_join_may_comment))]
pub fn own_join() -> &'static [u8]
    ensures text { result.now ≡ codes "# rejoin\n" }
    ensures comment { MayComment result.now }
{
    b"# rejoin\n"
}

/// What is told behind the line that begins so, if something is. The clock is read for such a line alone.
fn words_behind<K: Clock>(
    clock: &K,
    version: &str,
    unit: TimeUnit,
    line: &[u8],
) -> ArrayString<COMMENT_BYTES> {
    let mut comment = ArrayString::new();
    let is_first = line == b"journal 1\n".as_slice();
    if !is_first && !is_started(line) {
        return comment;
    }
    let Ok(time) = Timestamp::now(clock) else {
        return comment;
    };
    if is_first {
        let _is_whole = write!(comment, "# swimd {version} {time:.3}\n");
    } else {
        let seconds = time.as_second();
        let _is_whole = match unit {
            TimeUnit::Seconds => write!(comment, "# {seconds}\n"),
            TimeUnit::Milliseconds => {
                let milliseconds = time.subsec_millisecond();
                write!(comment, "# {seconds}.{milliseconds:03}\n")
            }
        };
    }
    comment
}

/// Whether a text is one whole line that begins with `#`.
fn is_comment_line(text: &[u8]) -> bool
    ensures { result ≡ true → IsCommentLine text.now }
{
    match text {
        [b'#', words @ .., b'\n'] => !words.contains(&b'\n'),
        _ => false,
    }
}

/// Whether a line says that a period was started.
fn is_started(line: &[u8]) -> bool {
    let Some(line) = line.strip_prefix(b"= ") else {
        return false;
    };
    match line.iter().position(|byte| *byte == b' ') {
        Some(place) => line[place..].starts_with(b" started"),
        None => false,
    }
}
