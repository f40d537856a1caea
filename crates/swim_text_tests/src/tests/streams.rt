//! Bytes, lines and words: values from outside, and failures in mid-stream.

use arrayvec::ArrayVec;
use std::alloc::Global;
use std::io::{Error, ErrorKind, Read, Result, Write};
use std::process::Abort;
use swim_doubles::{FailingPage, Text};
use swim_text::{Byte, Page, ReadSource, Sink, Source, Taken, Words, WriteSink, next_line};

/// A reader that is interrupted so many times before it gives its bytes.
#[derive(Drop)]
struct Stutter<'a> {
    left: &'a [u8],
    interruptions: u32,
}

impl Read for Stutter<'_> {
    fn read(&mut self, buf: &mut [u8]) -> Result<usize> {
        if self.interruptions > 0 {
            self.interruptions -= 1;
            return Err(Error::from(ErrorKind::Interrupted));
        }
        Read::read(&mut self.left, buf)
    }
}

/// A writer that is interrupted so many times, takes up to three bytes at a time, and none at one of its calls. It
/// can't be flushed before it took a byte.
#[derive(Drop)]
struct Trickle<'a> {
    taken: &'a mut Vec<u8>,
    interruptions: u32,
    refuses_in: u32,
}

impl Write for Trickle<'_> {
    fn write(&mut self, buf: &[u8]) -> Result<usize> {
        if self.interruptions > 0 {
            self.interruptions -= 1;
            return Err(Error::from(ErrorKind::Interrupted));
        }
        self.refuses_in = self.refuses_in.saturating_sub(1);
        if self.refuses_in == 1 {
            return Ok(0);
        }
        let count = buf.len().min(3);
        self.taken.extend_from_slice(&buf[..count])?;
        Ok(count)
    }

    fn flush(&mut self) -> Result<()> {
        if self.taken.is_empty() {
            return Err(Error::from(ErrorKind::Other));
        }
        Ok(())
    }
}

/// What the second line of a text is taken as, where a line has at most 4 bytes, and the bytes of the budget that are
/// left.
fn second(text: &[u8], page: &mut Page, mut budget: u32) -> (Taken, ArrayVec<u8, 4>, u32) {
    let mut source = Text::new(text);
    let mut line = ArrayVec::new();
    next_line(&mut source, page, &mut line, &mut budget);
    let taken = next_line(&mut source, page, &mut line, &mut budget);
    (taken, line, budget)
}

// What the second line of a text is taken as, with such a budget.
fn assert_second<R: Abort>(
    rt: &R,
    page: &mut Page,
    (text, budget): (&[u8], u32),
    taken: Taken,
    (bytes, left): (&[u8], u32),
) {
    let (got, line, after) = second(text, page, budget);
    assert!(rt; got == taken);
    assert!(rt; line.as_slice() == bytes);
    assert_eq!(rt; after, left);
}

#[test]
fn takes_lines(rt: HostRuntime) {
    let mut page = Page::new(rt.alloc());
    assert_second(&rt, &mut page, (b"", 9), Taken::Over, (b"", 9));
    assert_second(&rt, &mut page, (b"ab", 9), Taken::Over, (b"", 7));
    assert_second(&rt, &mut page, (b"ab\n", 3), Taken::Over, (b"", 0));
    assert_second(&rt, &mut page, (b"ab\n\n", 9), Taken::Line, (b"", 5));
    assert_second(&rt, &mut page, (b"ab\ncd", 9), Taken::Line, (b"cd", 4));
    assert_second(&rt, &mut page, (b"ab\ncd\nef", 9), Taken::Line, (b"cd", 3));
    assert_second(
        &rt,
        &mut page,
        (b"ab\nabcd\n", 9),
        Taken::Line,
        (b"abcd", 1),
    );
    assert_second(
        &rt,
        &mut page,
        (b"abcdef\ncd\n", 12),
        Taken::Line,
        (b"cd", 2),
    );
}

// The second line of a text is refused, with such a budget.
fn assert_refused<R: Abort>(rt: &R, page: &mut Page, text: &[u8], budget: u32, taken: Taken) {
    let (got, line, after) = second(text, page, budget);
    assert!(rt; got == taken);
    assert!(rt; line.len() <= 4);
    assert!(rt; after <= budget);
}

#[test]
fn refuses_lines(rt: HostRuntime) {
    let mut page = Page::new(rt.alloc());
    assert_refused(&rt, &mut page, b"ab\nabcde\n", 9, Taken::Long);
    assert_refused(&rt, &mut page, b"ab\nabcde", 9, Taken::Long);
    assert_refused(&rt, &mut page, b"ab\ncd", 4, Taken::Size);
    assert_refused(&rt, &mut page, b"ab\ncd\n", 5, Taken::Size);
    assert_refused(&rt, &mut page, b"ab\nabcde\n", 8, Taken::Size);
}

// Of a line that is too large one byte more is read than it may have, also where more of them are ready.
#[test]
fn leaves_what_a_large_line_has_beyond(rt: HostRuntime) {
    let mut source = Text::new(b"abcdef\n");
    let mut page = Page::new(rt.alloc());
    let mut line = ArrayVec::<u8, 9>::new();
    let mut budget = 3;
    assert!(rt; next_line(&mut source, &mut page, &mut line, &mut budget) == Taken::Size);
    assert!(rt; source.byte() == Byte::One(b'e'));
}

#[test]
fn tells_failures_in_mid_stream(rt: HostRuntime) {
    let mut source = Text::failing_after(b"ab\ncd", 4);
    let mut page = FailingPage::new(rt.alloc(), None, Some(5));
    let mut line = ArrayVec::<u8, 4>::new();
    let mut budget = 99;
    let table = [
        (Taken::Line, b"ab".as_slice()),
        (Taken::Failed, b"c"),
        (Taken::Unsent, b""),
        (Taken::Line, b"d"),
        (Taken::Over, b""),
    ];
    for (taken, bytes) in table {
        let got = next_line(&mut source, &mut page, &mut line, &mut budget);
        assert!(rt; got == taken);
        assert!(rt; line.as_slice() == bytes);
    }
}

#[test]
fn answers_before_it_waits(rt: HostRuntime) {
    let mut seen = Vec::new(rt.alloc());
    let mut source = ReadSource::new(b"ab\ncd\n".as_slice());
    let mut line = ArrayVec::<u8, 4>::new();
    let mut budget = 99;
    {
        let mut sink = WriteSink::new(&mut seen);
        next_line(&mut source, &mut sink, &mut line, &mut budget);
        assert!(rt; sink.put(b"first"));
        // The second line is in the buffer, and the end is not.
        next_line(&mut source, &mut sink, &mut line, &mut budget);
        assert!(rt; sink.put(b"second"));
        next_line(&mut source, &mut sink, &mut line, &mut budget);
        assert!(rt; sink.put(b"third"));
    }
    assert!(rt; seen.as_slice() == b"firstsecond".as_slice());
}

// The next byte of a source.
fn assert_byte<R: Abort, S: Source>(rt: &R, source: &mut S, byte: Byte) {
    assert!(rt; source.byte() == byte);
}

// What is ready in a source, of which so many bytes are skipped.
fn skip_of<R: Abort, S: Source>(rt: &R, source: &mut S, ready: &[u8], count: usize) {
    assert!(rt; source.ready() == ready);
    assert!(rt; count <= source.ready().len());
    source.skip(count);
}

// A reader that is interrupted so often gives this first, and then what is left of its bytes.
fn assert_first<R: Abort>(rt: &R, interruptions: u32, first: Byte) {
    let mut source = ReadSource::new(Stutter {
        left: b"ab",
        interruptions,
    });
    skip_of(rt, &mut source, b"", 0);
    assert_byte(rt, &mut source, first);
    if first == Byte::Fault {
        assert_byte(rt, &mut source, Byte::One(b'a'));
    }
    skip_of(rt, &mut source, b"b", 0);
    assert_byte(rt, &mut source, Byte::One(b'b'));
    assert_byte(rt, &mut source, Byte::End);
    assert_byte(rt, &mut source, Byte::End);
}

#[test]
fn reads_through_interruptions(rt: HostRuntime) {
    assert_first(&rt, 0, Byte::One(b'a'));
    assert_first(&rt, 15, Byte::One(b'a'));
    assert_first(&rt, 16, Byte::Fault);
}

#[test]
fn gives_what_was_read(rt: HostRuntime) {
    let mut source = ReadSource::new(b"abcd".as_slice());
    assert_byte(&rt, &mut source, Byte::One(b'a'));
    skip_of(&rt, &mut source, b"bcd", 2);
    skip_of(&rt, &mut source, b"d", 1);
    assert_byte(&rt, &mut source, Byte::End);
}

#[test]
fn gives_the_rest_of_a_line(rt: HostRuntime) {
    let mut text = Text::new(b"ab\ncd");
    skip_of(&rt, &mut text, b"", 0);
    assert_byte(&rt, &mut text, Byte::One(b'a'));
    skip_of(&rt, &mut text, b"b\n", 1);
    skip_of(&rt, &mut text, b"\n", 1);
    skip_of(&rt, &mut text, b"", 0);
    assert_byte(&rt, &mut text, Byte::One(b'c'));
}

// What a writer that is interrupted and refuses takes of 5,000 bytes, whether they were put and flushed.
fn assert_taken<R: Abort>(
    rt: &R,
    alloc: Global,
    interruptions: u32,
    refuses_in: u32,
    are_done: (bool, bool),
    whole: usize,
) {
    let mut taken = Vec::new(alloc);
    {
        let mut sink = WriteSink::new(Trickle {
            taken: &mut taken,
            interruptions,
            refuses_in,
        });
        put_and_flush(rt, &mut sink, &[b'x'; 5000], are_done);
    }
    assert!(rt; taken.len() == whole);
}

fn put_and_flush<R: Abort, S: Sink>(
    rt: &R,
    sink: &mut S,
    bytes: &[u8],
    (is_put, is_flushed): (bool, bool),
) {
    assert!(rt; !sink.flush());
    assert!(rt; sink.put(bytes) == is_put);
    assert!(rt; sink.flush() == is_flushed);
    assert!(rt; sink.flush());
}

#[test]
fn writes_all_it_took(rt: HostRuntime) {
    assert_taken(&rt, rt.alloc(), 15, 0, (true, true), 5000);
    assert_taken(&rt, rt.alloc(), 16, 0, (false, true), 4096);
    assert_taken(&rt, rt.alloc(), 0, 2, (false, true), 4096);
    assert_taken(&rt, rt.alloc(), 0, 1500, (true, false), 5000);
}

#[test]
fn shows_what_was_put(rt: HostRuntime) {
    let mut page = FailingPage::new(rt.alloc(), Some(1), None);
    assert!(rt; page.put(b"ab"));
    assert!(rt; !page.put(b"cd"));
    assert!(rt; page.put(b"ef"));
    assert!(rt; page.flush());
    assert!(rt; page.text() == b"abef".as_slice());
}

// The next word.
fn assert_word<R: Abort>(rt: &R, words: &mut Words<'_>, word: &[u8]) {
    assert!(rt; !words.is_empty());
    assert!(rt; words.next() == Some(word));
}

fn assert_no_word<R: Abort>(rt: &R, words: &mut Words<'_>) {
    assert!(rt; words.is_empty());
    assert!(rt; words.next().is_none());
}

#[test]
fn cuts_words(rt: HostRuntime) {
    let mut words = Words::new(b"open 7  x");
    assert_word(&rt, &mut words, b"open");
    assert_word(&rt, &mut words, b"7");
    assert_word(&rt, &mut words, b"");
    assert_word(&rt, &mut words, b"x");
    assert_no_word(&rt, &mut words);
    let mut parts = Words::split(b"", b',');
    assert_word(&rt, &mut parts, b"");
    assert_no_word(&rt, &mut parts);
}
