//! Where a line differs from what was expected.

ghost use Rattle.std.specs.Prelude.{◌≡◌, ◌≤◌, length, take, drop};
ghost use Rattle.swimsim.specs.Differences.{same_front};

use crate::marks::Mark;
use std::alloc::Global;
use swim_history::Journal;
use swim_script::put_placed;
use swim_text::{Page, Sink};

/// The first byte of a line that is another than that of the text, or the line's end where the text goes on.
pub fn first_difference<'a>(line: &'a [u8], text: &[u8]) -> Mark<'a>
    ensures before { result.before.now ≡ take (same_front line.now text.now) line.now }
    ensures word { result.word.now ≡ take 1 (drop (same_front line.now text.now) line.now) }
{
    let (before, rest) = line.split_at(same_front(line, text));
    match rest {
        [] => Mark {
            before,
            word: rest,
            is_missing: true,
        },
        [_, ..] => Mark {
            before,
            word: &rest[..1],
            is_missing: false,
        },
    }
}

/// How many bytes at the front of two texts are the same.
fn same_front(left: &[u8], right: &[u8]) -> usize
    ensures count { result ≡ same_front left.now right.now }
    ensures within { result ≤ length left.now }
{
    let [first, rest @ ..] = left else {
        return 0;
    };
    let [other, others @ ..] = right else {
        return 0;
    };
    if first != other {
        return 0;
    }
    1 + same_front(rest, others)
}

/// The line of a journal file that tells the newest entry. `None` where there is no entry, and in want of memory.
pub fn newest_line(alloc: Global, journal: &Journal) -> Option<Page> {
    let place = journal.len().checked_sub(1)?;
    let called = journal.called(place)?;
    let mut line = Page::new(alloc);
    if line.put(b"= ") && put_placed(&mut line, place, &called.reply) {
        Some(line)
    } else {
        None
    }
}
