//! How long a line and how many reads may be.

use super::assert_same;
use super::groups::{Group, assert_at_once, assert_bytes, assert_lines, assert_served, serve_two};
use std::alloc::Global;
use std::process::Abort;
use std::sync::Wait;
use std::test::*;
use swim_control::Served;
use swim_doubles::Text;
use swim_text::{Byte, Page, ReadSource, Source};

/// How many reads a connection may have.
const READS: usize = 1_048_576;

/// The answer to a line that is too long.
const TOO_LONG: &[u8] = b"fault 1\n";

#[test]
fn takes_128_bytes(rt: HostRuntime) {
    let mut text = [b'a'; 129];
    text[128] = b'\n';
    assert_lines(
        &rt,
        rt.alloc(),
        &mut Group::of_two(),
        &text,
        b"fault 2\n",
        Served::Ended,
    );
}

#[test]
fn takes_128_bytes_without_a_line_feed(rt: HostRuntime) {
    let text = [b'a'; 128];
    assert_lines(
        &rt,
        rt.alloc(),
        &mut Group::of_two(),
        &text,
        b"fault 6\n",
        Served::Unended,
    );
}

#[test]
fn refuses_129_bytes(rt: HostRuntime) {
    let text = [b'a'; 129];
    assert_lines(
        &rt,
        rt.alloc(),
        &mut Group::of_two(),
        &text,
        TOO_LONG,
        Served::TooLong,
    );
}

#[test]
fn refuses_129_bytes_however_they_come(rt: HostRuntime) {
    let mut text = [b'a'; 131];
    text[129] = b'\n';
    assert_bytes(
        &rt,
        rt.alloc(),
        &mut Group::of_two(),
        &text,
        TOO_LONG,
        Served::TooLong,
    );
    assert_at_once(
        &rt,
        rt.alloc(),
        &mut Group::of_two(),
        &text,
        TOO_LONG,
        Served::TooLong,
    );
}

// It is what a source gives next.
fn assert_next<R: Abort>(rt: &R, source: &mut Text<'_>, byte: Byte) {
    assert_same(rt, &source.byte(), &byte);
}

#[test]
fn reads_nothing_after_the_byte_too_many(rt: HostRuntime) {
    let mut text = [b'a'; 131];
    text[129] = b'x';
    let mut source = Text::new(&text);
    assert_served(
        &rt,
        rt.alloc(),
        &mut Group::of_two(),
        &mut source,
        TOO_LONG,
        Served::TooLong,
    );
    assert_next(&rt, &mut source, Byte::One(b'x'));
}

#[test]
fn reads_nothing_after_a_stop(rt: HostRuntime) {
    let mut source = Text::new(b"stop\nlist\n");
    assert_served(
        &rt,
        rt.alloc(),
        &mut Group::of_two(),
        &mut source,
        b"stopping\n",
        Served::Stopped,
    );
    assert_next(&rt, &mut source, Byte::One(b'l'));
}

/// Whether a text is so many times the answer to an empty line.
fn is_faults(text: &[u8], count: usize) -> bool {
    if text.len() / 8 != count {
        return false;
    }
    for line in text.chunks(8) {
        if line != b"fault 2\n".as_slice() {
            return false;
        }
    }
    true
}

// What a source gives is answered by so many faults, and serving it ends so.
fn assert_faults<S: Source, R: Wait + Abort>(
    rt: &R,
    alloc: Global,
    source: &mut S,
    count: usize,
    end: Served,
) {
    let mut page = Page::new(alloc);
    assert_same(rt, &serve_two(rt, alloc, source, &mut page), &end);
    assert!(rt; is_faults(page.text(), count));
}

#[test]
fn spends_its_reads(rt: HostRuntime) -> Result<(), Fail> {
    let text = vec![in rt.alloc(); b'\n'; READS + 1]?;
    let mut source = Text::new(text.as_slice());
    assert_faults(&rt, rt.alloc(), &mut source, READS, Served::ReadFault);
    assert_next(&rt, &mut source, Byte::One(b'\n'));
    assert_next(&rt, &mut source, Byte::End);
    Ok(())
}

#[test]
fn has_no_read_for_the_end(rt: HostRuntime) -> Result<(), Fail> {
    let text = vec![in rt.alloc(); b'\n'; READS]?;
    let mut source = Text::new(text.as_slice());
    assert_faults(&rt, rt.alloc(), &mut source, READS, Served::ReadFault);
    Ok(())
}

#[test]
fn has_a_read_for_the_end(rt: HostRuntime) -> Result<(), Fail> {
    let text = vec![in rt.alloc(); b'\n'; READS - 1]?;
    let mut source = ReadSource::new(text.as_slice());
    assert_faults(&rt, rt.alloc(), &mut source, READS - 1, Served::Ended);
    Ok(())
}

#[test]
fn spends_its_reads_within_a_line(rt: HostRuntime) -> Result<(), Fail> {
    let mut text = vec![in rt.alloc(); b'\n'; READS - 4]?;
    text.extend_from_slice(b"list\n")?;
    let mut source = ReadSource::new(text.as_slice());
    assert_faults(&rt, rt.alloc(), &mut source, READS - 4, Served::ReadFault);
    Ok(())
}
