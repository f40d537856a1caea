ghost use Rattle.std.specs.Prelude.{None};

use std::fmt::Debug;
use std::process::Abort;
use std::test::Fail;
use swim_doubles::FailingPage;
use swim_events::Event;
use swim_history::Change;
use swim_text::{Page, Sink};
use swim_watch::{EventLine, Feed, FeedEvent, NoEvent, WatchEnd, read_said, show, watch};
use swim_wire::{Id, Peer};

/// Gives these lines, and then none.
#[derive(Drop)]
struct Lines<'a> {
    left: &'a [&'a str],
}

impl<'a> Feed for Lines<'a> {
    ghost heard = { λ l. None };

    fn hear<W: Sink>(&mut self, line: &mut EventLine, _writer: &W) -> bool {
        let [first, others @ ..] = self.left else {
            return false;
        };
        line.clear();
        let _is_whole = line.try_extend_from_slice(first.as_bytes());
        self.left = others;
        true
    }
}

// The two are the same. A call of this is proved at once, and an `assert_eq!` in some seconds.
fn assert_same<T: PartialEq + Debug, R: Abort>(rt: &R, left: &T, right: &T) {
    assert_eq!(rt; *left, *right);
}

// The same of a line.
fn assert_same_at<T: PartialEq + Debug, R: Abort>(rt: &R, left: &T, right: &T, line: &str) {
    assert_eq!(rt; *left, *right, "at {line}");
}

fn id(value: u32) -> Id {
    Id::new(value).unwrap_or_default()
}

#[test]
fn reads_each_line(rt: HostRuntime) {
    let peer = Peer {
        ip: [10, 0, 0, 4],
        port: 7000,
    };
    for (line, said) in [
        (
            "up 4 10.0.0.4:7000",
            FeedEvent::Event(Event::Changed(Change::Up(id(4), peer))),
        ),
        (
            "failed 3 17",
            FeedEvent::Event(Event::Changed(Change::Failed(id(3), 17))),
        ),
        (
            "gone 4294967295",
            FeedEvent::Event(Event::Changed(Change::Gone(id(4_294_967_295)))),
        ),
        (
            "life 18446744073709551615",
            FeedEvent::Event(Event::Life(u64::MAX)),
        ),
        ("lost", FeedEvent::Event(Event::Lost)),
        ("ended", FeedEvent::Event(Event::Ended)),
        (".", FeedEvent::TableEnds),
        ("again", FeedEvent::Again),
    ] {
        assert_same_at(&rt, &read_said(line.as_bytes()), &Ok(said), line);
    }
}

#[test]
fn reads_no_other_line(rt: HostRuntime) {
    for line in [
        "",
        " ",
        "up",
        "up 4",
        "up 0 10.0.0.4:7000",
        "up 4 10.0.0.4:7000 ",
        "up  4 10.0.0.4:7000",
        "up 4 10.0.0.4",
        "failed 3",
        "failed 3 17 1",
        "failed 03 17",
        "gone 4294967296",
        "gone",
        "life 18446744073709551616",
        "life -1",
        "Lost",
        "lost ",
        "ended 1",
        "..",
        "again again",
    ] {
        assert_same_at(&rt, &read_said(line.as_bytes()), &Err(NoEvent), line);
    }
}

#[test]
fn shows_each_line_as_an_object(rt: HostRuntime) -> Result<(), Fail> {
    for (line, object) in [
        (
            "up 4 10.0.0.4:7000",
            "{\"event\":\"up\",\"id\":4,\"peer\":\"10.0.0.4:7000\",\"time\":\"t\"}",
        ),
        (
            "failed 3 17",
            "{\"event\":\"failed\",\"id\":3,\"period\":17,\"time\":\"t\"}",
        ),
        ("gone 3", "{\"event\":\"gone\",\"id\":3,\"time\":\"t\"}"),
        ("life 2", "{\"event\":\"life\",\"life\":2,\"time\":\"t\"}"),
        ("lost", "{\"event\":\"lost\",\"time\":\"t\"}"),
        ("ended", "{\"event\":\"ended\",\"time\":\"t\"}"),
        (".", "{\"event\":\"table_ends\",\"time\":\"t\"}"),
        ("again", "{\"event\":\"again\",\"time\":\"t\"}"),
        ("again\"", "{\"event\":\"other\",\"time\":\"t\"}"),
    ] {
        let text = show(rt.alloc(), line.as_bytes(), "t")?;
        assert_same_at(&rt, &text.as_str(), &object, line);
    }
    Ok(())
}

#[test]
fn writes_lines_up_to_the_last(rt: HostRuntime) {
    let mut feed = Lines {
        left: &["up 4 10.0.0.4:7000", ".", "what", "again"],
    };
    let mut page = Page::new(rt.alloc());
    let ended = watch(&rt, rt.alloc(), &mut feed, false, &mut page);
    assert_same(&rt, &ended, &WatchEnd::Over);
    assert_same(
        &rt,
        &page.text(),
        &b"up 4 10.0.0.4:7000\n.\nwhat\nagain\n".as_slice(),
    );
}

#[test]
fn writes_objects_up_to_the_last(rt: HostRuntime) {
    let mut feed = Lines {
        left: &["gone 4", "lost"],
    };
    let mut page = Page::new(rt.alloc());
    let ended = watch(&rt, rt.alloc(), &mut feed, true, &mut page);
    assert_same(&rt, &ended, &WatchEnd::Over);
    let front = b"{\"event\":\"gone\",\"id\":4,\"time\":\"2".as_slice();
    assert!(rt; page.text().starts_with(front));
    assert!(rt; page.text().ends_with(b"Z\"}\n".as_slice()));
}

#[test]
fn ends_where_a_line_cant_be_written(rt: HostRuntime) {
    let mut feed = Lines {
        left: &[".", "gone 4", "lost"],
    };
    let mut page = FailingPage::new(rt.alloc(), None, Some(1));
    let ended = watch(&rt, rt.alloc(), &mut feed, false, &mut page);
    assert_same(&rt, &ended, &WatchEnd::Unwritten);
    assert_same(&rt, &feed.left.len(), &1);
}
