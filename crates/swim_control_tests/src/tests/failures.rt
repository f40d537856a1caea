//! One read, one write or one flush that fails, at each place.

use super::assert_same;
use super::groups::{Group, assert_served, serve_two};
use std::alloc::Global;
use std::process::Abort;
use std::sync::Wait;
use std::test::*;
use swim_control::Served;
use swim_doubles::{FailingPage, Text};

/// A dialogue, and its answers.
const TEXT: &[u8] = b"list\njoin 0 1.2.3.4:5\nlis";

const ANSWERS: &[u8] = b"2 10.0.0.2:7000 up\n3 10.0.0.3:7000 up\n.\nfault 3\nfault 6\n";

/// The answers to its whole lines within so many bytes.
fn answered(bytes: u32) -> &'static [u8] {
    if bytes < 5 {
        b""
    } else if bytes < 22 {
        b"2 10.0.0.2:7000 up\n3 10.0.0.3:7000 up\n.\n"
    } else {
        b"2 10.0.0.2:7000 up\n3 10.0.0.3:7000 up\n.\nfault 3\n"
    }
}

#[test]
fn tells_a_failing_read(rt: HostRuntime) {
    for calls in 0..26 {
        let mut source = Text::failing_after(TEXT, calls);
        let mut group = Group::of_two();
        assert_served(
            &rt,
            rt.alloc(),
            &mut group,
            &mut source,
            answered(calls),
            Served::ReadFault,
        );
    }
}

#[test]
fn needs_no_more_reads(rt: HostRuntime) {
    let mut source = Text::failing_after(TEXT, 26);
    assert_served(
        &rt,
        rt.alloc(),
        &mut Group::of_two(),
        &mut source,
        ANSWERS,
        Served::Unended,
    );
}

/// Whether a put of the answers fails where so many are taken.
fn fails_after<R: Wait + Abort>(rt: &R, alloc: Global, puts: u32) -> bool {
    let mut page = FailingPage::new(alloc, Some(puts), None);
    let end = serve_two(rt, alloc, &mut Text::new(TEXT), &mut page);
    assert!(rt; ANSWERS.starts_with(page.text()));
    let fails = end == Served::WriteFault;
    if fails {
        assert!(rt; page.text().len() < ANSWERS.len());
    } else {
        assert_same(rt, &end, &Served::Unended);
        assert_same(rt, &page.text(), &ANSWERS);
    }
    fails
}

#[test]
fn tells_a_failing_write(rt: HostRuntime) {
    let mut failed = 0;
    for puts in 0..40 {
        if fails_after(&rt, rt.alloc(), puts) {
            failed = puts + 1;
        }
    }
    // The puts of the answers: the table takes 1 for each row and 1 for its end, and a fault 3.
    assert_same(&rt, &failed, &9);
}

/// Where the flush after so many others fails, that is told, and this text has been answered so.
fn assert_unflushed<R: Wait + Abort>(
    rt: &R,
    alloc: Global,
    flushes: u32,
    text: &[u8],
    answers: &[u8],
) {
    let mut page = FailingPage::new(alloc, None, Some(flushes));
    let end = serve_two(rt, alloc, &mut Text::new(text), &mut page);
    assert_same(rt, &end, &Served::WriteFault);
    assert_same(rt, &page.text(), &answers);
}

#[test]
fn tells_a_failing_flush(rt: HostRuntime) {
    // A flush before each line's first read and before the look for the end, and one at the end.
    let table = [
        (0, answered(0)),
        (1, answered(5)),
        (2, answered(22)),
        (3, answered(25)),
        (4, ANSWERS),
    ];
    for (flushes, answers) in table {
        assert_unflushed(&rt, rt.alloc(), flushes, TEXT, answers);
    }
}

#[test]
fn tells_a_flush_that_fails_after_a_stop(rt: HostRuntime) {
    assert_unflushed(&rt, rt.alloc(), 1, b"stop\n", b"stopping\n");
}
