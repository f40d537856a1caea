//! Journal files with comments.

use std::alloc::Global;
use std::process::Abort;
use std::test::*;
use swim_doubles::Text;
use swim_script::{FaultKind, LineFault, ScriptFault, Session, run};
use swim_text::{Page, Sink};

const PLAIN: &[u8] = b"journal 1\nopen 1 1 1 3 9 2000\nrow 2 10.0.0.2:7000\n\
    seed 0707070707070707070707070707070707070707070707070707070707070707 5\n\
    hear 10.0.0.2:7000 535701010000000200000002000000010000000000000001\n= 0 sent\n\
    tick\n= 1 started judged - probe 2 10\n\
    remove 2\n= 2 removed\n";

// Behind the first line, in the header, behind answers, between a call and its answer, and at the end without a line
// feed.
const COMMENTED: &[u8] =
    b"journal 1\n# swimd 1.0 2026-11-29T09:00:00.000Z\nopen 1 1 1 3 9 2000\n#\nrow 2 10.0.0.2:7000\n\
    seed 0707070707070707070707070707070707070707070707070707070707070707 5\n\
    hear 10.0.0.2:7000 535701010000000200000002000000010000000000000001\n= 0 sent\n\
    tick\n= 1 started judged - probe 2 10\n# 1795942800\n\
    remove 2\n# by an operator\n= 2 removed\n# 17959";

const IN_FRONT: &[u8] = b"# in front\njournal 1\nopen 1 1 1 3 9 2000\nrow 2 10.0.0.2:7000\n";

const DIFFERENT: &[u8] = b"journal 1\nopen 1 1 1 3 9 2000\nrow 2 10.0.0.2:7000\n\
    seed 0707070707070707070707070707070707070707070707070707070707070707 5\n\
    hear 10.0.0.2:7000 535701010000000200000002000000010000000000000001\n= 0 sent\n\
    tick\n# a start\n= 1 quiet\n";

const BEHIND_FIRST: &[u8] = b"\nopen 1 1 1 3 9 2000\nrow 2 10.0.0.2:7000\n\
    seed 0707070707070707070707070707070707070707070707070707070707070707 5\n\
    tick\n= 0 started judged - probe 2 10\n";

// What is found wrong with a file, how many entries were made, and what was written.
fn play(alloc: Global, text: &[u8]) -> (Option<ScriptFault>, Option<u32>, Page) {
    let mut session = Session::new(alloc);
    let mut output = Page::new(alloc);
    let fault = run(&mut session, &mut Text::new(text), &mut output).err();
    let entries = session.into_journal().map(|journal| journal.len());
    (fault, entries, output)
}

// The same of a file whose second line is a comment with so many letters behind its sign.
fn play_behind(alloc: Global, letters: &[u8]) -> Result<Option<ScriptFault>, Fail> {
    let mut file = Page::new(alloc);
    if !(file.put(b"journal 1\n#") && file.put(letters) && file.put(BEHIND_FIRST)) {
        return Err(Fail::new("a file"));
    }
    let (fault, _entries, output) = play(alloc, file.text());
    drop(output);
    Ok(fault)
}

fn assert_fault<R: Abort>(rt: &R, fault: Option<ScriptFault>, line: u32, kind: FaultKind) {
    assert_eq!(rt; fault, Some(ScriptFault { line, kind }));
}

// A file is played as if its comments weren't there.
#[test]
fn comments_are_skipped(rt: HostRuntime) -> Result<(), Fail> {
    let alloc = rt.alloc();
    let (fault, entries, output) = play(alloc, PLAIN);
    let (commented_fault, commented_entries, commented_output) = play(alloc, COMMENTED);
    assert_eq!(rt; fault, None);
    assert_eq!(rt; entries, Some(3));
    assert_eq!(rt; commented_fault, None);
    assert_eq!(rt; commented_entries, Some(3));
    assert!(rt; commented_output.text() == output.text());
    Ok(())
}

// The first line of a journal file is `journal 1`.
#[test]
fn a_comment_in_front_makes_another_script(rt: HostRuntime) -> Result<(), Fail> {
    let (fault, _entries, output) = play(rt.alloc(), IN_FRONT);
    drop(output);
    assert_fault(&rt, fault, 2, FaultKind::Words(LineFault::Word));
    Ok(())
}

// A comment is a line, of 2,048 bytes at most.
#[test]
fn a_comment_may_be_too_long(rt: HostRuntime) -> Result<(), Fail> {
    let alloc = rt.alloc();
    let longest = play_behind(alloc, &[b'x'; 2047])?;
    assert_eq!(rt; longest, None);
    let too_long = play_behind(alloc, &[b'x'; 2048])?;
    assert_fault(&rt, too_long, 2, FaultKind::Long);
    Ok(())
}

// A comment hides no difference.
#[test]
fn a_difference_is_found_behind_a_comment(rt: HostRuntime) -> Result<(), Fail> {
    let (fault, _entries, output) = play(rt.alloc(), DIFFERENT);
    drop(output);
    assert_fault(&rt, fault, 9, FaultKind::Differs);
    Ok(())
}
