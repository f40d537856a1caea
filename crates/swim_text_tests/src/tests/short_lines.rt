//! Lines that are read up to a limit of bytes and of reads.

use arrayvec::ArrayVec;
use std::process::Abort;
use swim_doubles::{FailingPage, Text};
use swim_text::{Byte, LineEnd, Met, Page, Source, next_short_line, read_on};

/// What the first line of a text ends with, where a line has at most 4 bytes, its bytes, and the reads that are left.
fn first(text: &[u8], page: &mut Page, mut reads: u32) -> (LineEnd, ArrayVec<u8, 4>, u32) {
    let mut source = Text::new(text);
    let mut line = ArrayVec::new();
    let end = next_short_line(&mut source, page, &mut line, &mut reads);
    (end, line, reads)
}

// What the first line of a text is taken as, with so many reads.
fn assert_first<R: Abort>(
    rt: &R,
    page: &mut Page,
    (text, reads): (&[u8], u32),
    end: LineEnd,
    (bytes, left): (&[u8], u32),
) {
    let (got, line, after) = first(text, page, reads);
    assert!(rt; got == end);
    assert!(rt; line.as_slice() == bytes);
    assert_eq!(rt; after, left);
}

#[test]
fn takes_short_lines(rt: HostRuntime) {
    let mut page = Page::new(rt.alloc());
    assert_first(&rt, &mut page, (b"", 9), LineEnd::Over, (b"", 8));
    assert_first(&rt, &mut page, (b"", 0), LineEnd::Spent, (b"", 0));
    assert_first(&rt, &mut page, (b"\n", 1), LineEnd::Feed, (b"", 0));
    assert_first(&rt, &mut page, (b"ab\ncd", 9), LineEnd::Feed, (b"ab", 6));
    assert_first(&rt, &mut page, (b"abcd\n", 5), LineEnd::Feed, (b"abcd", 0));
    assert_first(&rt, &mut page, (b"abcd", 5), LineEnd::Unended, (b"abcd", 0));
    assert_first(&rt, &mut page, (b"abcd", 4), LineEnd::Spent, (b"abcd", 0));
    assert_first(&rt, &mut page, (b"abcd\n", 3), LineEnd::Spent, (b"abc", 0));
}

#[test]
fn ends_at_the_byte_too_many(rt: HostRuntime) {
    let mut source = Text::new(b"abcdefg\n");
    let mut page = Page::new(rt.alloc());
    let mut line = ArrayVec::<u8, 4>::new();
    let mut reads = 9;
    let end = next_short_line(&mut source, &mut page, &mut line, &mut reads);
    assert!(rt; end == LineEnd::Long);
    assert!(rt; reads == 4);
    assert!(rt; source.byte() == Byte::One(b'f'));
}

#[test]
fn tells_failures_of_short_lines(rt: HostRuntime) {
    let mut source = Text::failing_after(b"ab\ncd", 4);
    let mut page = FailingPage::new(rt.alloc(), None, Some(5));
    let mut line = ArrayVec::<u8, 4>::new();
    let mut reads = 99;
    for end in [
        LineEnd::Feed,
        LineEnd::Failed,
        LineEnd::Unsent,
        LineEnd::Unended,
        LineEnd::Over,
    ] {
        let got = next_short_line(&mut source, &mut page, &mut line, &mut reads);
        assert!(rt; got == end);
    }
}

// How far the reading of a line gets, each time that it is read on in.
fn assert_met<R: Abort>(
    rt: &R,
    source: &mut Text<'_>,
    line: &mut ArrayVec<u8, 8>,
    reads: &mut u32,
    all: &[Met],
) {
    for met in all {
        assert!(rt; read_on(source, line, reads) == *met);
    }
}

// A line that is read on in as it comes: first it is looked for, and then it is there.
#[test]
fn reads_on_without_waiting(rt: HostRuntime) {
    let mut source = Text::new(b"one\nt");
    let mut line = ArrayVec::<u8, 8>::new();
    let mut reads = 7;
    let first = [Met::Part, Met::End(LineEnd::Feed)];
    assert_met(&rt, &mut source, &mut line, &mut reads, &first);
    assert!(rt; line.as_slice() == b"one".as_slice());
    line.clear();
    let second = [Met::Part, Met::Part, Met::End(LineEnd::Unended)];
    assert_met(&rt, &mut source, &mut line, &mut reads, &second);
    assert!(rt; line.as_slice() == b"t".as_slice());
    assert!(rt; reads == 1);
}

// A failed read, and then no read that is left.
#[test]
fn tells_why_no_line_goes_on(rt: HostRuntime) {
    let mut failing = Text::failing_after(b"one\n", 1);
    let mut line = ArrayVec::<u8, 8>::new();
    let mut reads = 1;
    let failed = [Met::Nothing, Met::End(LineEnd::Failed)];
    assert_met(&rt, &mut failing, &mut line, &mut reads, &failed);
    reads = 0;
    let spent = [Met::End(LineEnd::Spent)];
    assert_met(&rt, &mut failing, &mut line, &mut reads, &spent);
}
