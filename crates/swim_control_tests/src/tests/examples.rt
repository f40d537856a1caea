//! Lines and their answers, as they are written down in docs/FORMATS.md.

use super::groups::{Group, assert_at_once, assert_bytes, assert_lines};
use swim_control::Served;

const DIALOGUE: &[u8] = b"list\njoin 0 1.2.3.4:5\nlis";

const ITS_ANSWERS: &[u8] = b"2 10.0.0.2:7000 up\n3 10.0.0.3:7000 up\n.\nfault 3\nfault 6\n";

#[test]
fn answers_a_dialogue(rt: HostRuntime) {
    let mut group = Group::of_two();
    assert_lines(
        &rt,
        rt.alloc(),
        &mut group,
        DIALOGUE,
        ITS_ANSWERS,
        Served::Unended,
    );
}

#[test]
fn answers_however_the_bytes_come(rt: HostRuntime) {
    let mut group = Group::of_two();
    assert_bytes(
        &rt,
        rt.alloc(),
        &mut group,
        DIALOGUE,
        ITS_ANSWERS,
        Served::Unended,
    );
    let mut group = Group::of_two();
    assert_at_once(
        &rt,
        rt.alloc(),
        &mut group,
        DIALOGUE,
        ITS_ANSWERS,
        Served::Unended,
    );
}

#[test]
fn answers_one_after_another(rt: HostRuntime) {
    let table = [
        (b"gap 2\n".as_slice(), b"gap none\n".as_slice()),
        (b"join 5 10.0.0.5:7000\n", b"joined 2\n"),
        (b"join 5 10.0.0.5:7000\n", b"refused 2\n"),
        (b"join 6\n", b"fault 4\n"),
        (b"join 6 10.0.0.6:7000 x\n", b"fault 5\n"),
        (b"remove 9\n", b"refused 4\n"),
        (b"remove 5\n", b"removed\n"),
        (b"List\n", b"fault 2\n"),
        (b"list \n", b"fault 5\n"),
        (b"gap 3\n", b"gap 2 4 3\n"),
        (b"stats\n", b"swimd_ticks_total 5\n.\n"),
        (b"stats 3\n", b"fault 5\n"),
        (b"reload\n", b"reloaded\n"),
        (b"reload 3\n", b"fault 5\n"),
    ];
    let mut group = Group::of_two();
    for (text, answer) in table {
        assert_lines(&rt, rt.alloc(), &mut group, text, answer, Served::Ended);
    }
}

#[test]
fn stops_where_it_is_asked_to(rt: HostRuntime) {
    let text = b"gap 2\nstop\ngap 2\n";
    let answers = b"gap none\nstopping\n";
    assert_lines(
        &rt,
        rt.alloc(),
        &mut Group::of_two(),
        text,
        answers,
        Served::Stopped,
    );
}

#[test]
fn shows_what_joined(rt: HostRuntime) {
    let text = b"join 5 10.0.0.5:7000\nlist\n";
    let answers = b"joined 2\n2 10.0.0.2:7000 up\n3 10.0.0.3:7000 up\n5 10.0.0.5:7000 up\n.\n";
    assert_lines(
        &rt,
        rt.alloc(),
        &mut Group::of_two(),
        text,
        answers,
        Served::Ended,
    );
}

#[test]
fn shows_nobody_who_was_removed(rt: HostRuntime) {
    let text = b"remove 2\nlist\n";
    let answers = b"removed\n3 10.0.0.3:7000 up\n.\n";
    assert_lines(
        &rt,
        rt.alloc(),
        &mut Group::of_two(),
        text,
        answers,
        Served::Ended,
    );
}

#[test]
fn tells_faults(rt: HostRuntime) {
    let table = [
        (b"\n".as_slice(), b"fault 2\n".as_slice()),
        (b" list\n", b"fault 2\n"),
        (b"list\r\n", b"fault 2\n"),
        (b"list \r\n", b"fault 5\n"),
        (b"stop now\n", b"fault 5\n"),
        (b"lis\0\n", b"fault 2\n"),
        (b"\xfflist\n", b"fault 2\n"),
        (b"gap\n", b"fault 3\n"),
        (b"gap \n", b"fault 3\n"),
        (b"gap 05\n", b"fault 3\n"),
        (b"gap +5\n", b"fault 3\n"),
        (b"gap 4294967296\n", b"fault 3\n"),
        (b"gap \xff\n", b"fault 3\n"),
        (b"gap 2 \n", b"fault 5\n"),
        (b"remove 0\n", b"fault 3\n"),
        (b"remove 2 \xff\n", b"fault 5\n"),
        (b"join 0 1.2.3.4\n", b"fault 3\n"),
        (b"join 5 \n", b"fault 4\n"),
        (b"join 5 1.2.3.4:0 x\n", b"fault 4\n"),
        (b"join 5 1.2.3.\xff:5\n", b"fault 4\n"),
        (b"join 5  1.2.3.4:5\n", b"fault 4\n"),
    ];
    for (text, answer) in table {
        assert_lines(
            &rt,
            rt.alloc(),
            &mut Group::of_two(),
            text,
            answer,
            Served::Ended,
        );
    }
}

#[test]
fn ends_in_every_place_of_a_line(rt: HostRuntime) {
    let line = b"join 5 10.0.0.5:7000\n".as_slice();
    for count in 1..line.len() {
        let mut group = Group::of_two();
        assert_lines(
            &rt,
            rt.alloc(),
            &mut group,
            &line[..count],
            b"fault 6\n",
            Served::Unended,
        );
    }
    assert_lines(
        &rt,
        rt.alloc(),
        &mut Group::of_two(),
        line,
        b"joined 2\n",
        Served::Ended,
    );
}

#[test]
fn ends_an_empty_text(rt: HostRuntime) {
    assert_lines(
        &rt,
        rt.alloc(),
        &mut Group::of_two(),
        b"",
        b"",
        Served::Ended,
    );
}

#[test]
fn ends_at_a_full_journal(rt: HostRuntime) {
    let text = b"remove 3\nremove 9\nlist\nremove 2\nlist\n";
    let answers = b"removed\nrefused 4\n2 10.0.0.2:7000 up\n.\njournal full\n";
    let mut group = Group::with_room(2);
    assert_lines(
        &rt,
        rt.alloc(),
        &mut group,
        text,
        answers,
        Served::JournalFull,
    );
}

#[test]
fn goes_on_without_memory(rt: HostRuntime) {
    let text = b"join 5 10.0.0.5:7000\njoin 5 10.0.0.5:7000\nremove 1\n";
    let answers = b"no memory\njoined 2\nrefused 1\n";
    let mut group = Group::with_memory_for(0);
    assert_lines(&rt, rt.alloc(), &mut group, text, answers, Served::Ended);
}

#[test]
fn tells_that_there_is_no_table(rt: HostRuntime) {
    let answers = b"closed\ngap none\n";
    assert_lines(
        &rt,
        rt.alloc(),
        &mut Group::closed(),
        b"list\ngap 2\n",
        answers,
        Served::Ended,
    );
}
