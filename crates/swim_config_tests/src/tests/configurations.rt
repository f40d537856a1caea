//! Configurations, from their bytes to what is told of them.

use super::assert_same;
use arrayvec::ArrayVec;
use std::alloc::Global;
use swim_config::{
    ConfigFault, ConfigKey, INPUT_BYTES, put_fault, read_config, read_input, summary,
};
use swim_doubles::{FailingPage, Text};
use swim_text::{Page, Sink};

/// A configuration with a member.
const WHOLE: &str = "id = 1
listen = \"10.0.0.1:7000\"
control = \"/tmp/swimd.sock\"
k = 1
rtt = 1
period = 3
tick_ms = 1000
seed = \"00000000000000000000000000000000000000000000000000000000000000aB\"
journal = 1000
[[member]]
id = 2
at = \"10.0.0.2:7000\"
";

/// Its summary.
const SUMMARY: &str = "id 1
listen 10.0.0.1:7000
control /tmp/swimd.sock
k 1 rtt 1 period 3 tick_ms 1000 last 0 journal 1000
members 1
2 10.0.0.2:7000
";

/// How it ended to read a configuration and to write its summary.
#[derive(Clone, Copy, Debug, PartialEq, Eq)]
enum End {
    Shown,
    Unread,
    Refused(ConfigFault),
    Unwritten,
    NotHandedOn,
}

fn show<W: Sink>(alloc: Global, reader: &mut Text, page: &mut W) -> End {
    let mut text = ArrayVec::<u8, INPUT_BYTES>::new();
    if !read_input(reader, &mut text) {
        return End::Unread;
    }
    match read_config(alloc, text.as_slice()) {
        Ok(config) if !summary(&config, page) => End::Unwritten,
        Ok(_) if !page.flush() => End::NotHandedOn,
        Ok(_) => End::Shown,
        Err(fault) => End::Refused(fault),
    }
}

fn end_of(alloc: Global, text: &[u8]) -> End {
    show(alloc, &mut Text::new(text), &mut Page::new(alloc))
}

#[test]
fn shows_a_configuration(rt: HostRuntime) {
    let mut page = Page::new(rt.alloc());
    let end = show(rt.alloc(), &mut Text::new(WHOLE.as_bytes()), &mut page);
    assert_same(&rt, &end, &End::Shown);
    assert_same(&rt, &page.text(), &SUMMARY.as_bytes());
}

#[test]
fn names_the_first_key_that_is_missing(rt: HostRuntime) {
    let end = end_of(rt.alloc(), b"id = 1\nlisten = \"10.0.0.1:7000\"\nk = 9\n");
    let fault = ConfigFault::Missing(ConfigKey::Control);
    assert_same(&rt, &end, &End::Refused(fault));
    let mut page = Page::new(rt.alloc());
    assert!(rt; put_fault(&mut page, fault));
    assert_same(&rt, &page.text(), &b"configuration 4 control\n".as_slice());
}

#[test]
fn tells_unknown_keys_before_missing_ones(rt: HostRuntime) {
    let end = end_of(rt.alloc(), b"z = 1\n");
    assert_same(&rt, &end, &End::Refused(ConfigFault::UnknownKey));
}

#[test]
fn tells_a_failed_read(rt: HostRuntime) {
    let mut reader = Text::failing_after(WHOLE.as_bytes(), 40);
    let end = show(rt.alloc(), &mut reader, &mut Page::new(rt.alloc()));
    assert_same(&rt, &end, &End::Unread);
}

#[test]
fn tells_a_failed_write(rt: HostRuntime) {
    let mut page = FailingPage::new(rt.alloc(), Some(3), None);
    let end = show(rt.alloc(), &mut Text::new(WHOLE.as_bytes()), &mut page);
    assert_same(&rt, &end, &End::Unwritten);
}

#[test]
fn tells_a_summary_that_is_not_handed_on(rt: HostRuntime) {
    let mut page = FailingPage::new(rt.alloc(), None, Some(0));
    let end = show(rt.alloc(), &mut Text::new(WHOLE.as_bytes()), &mut page);
    assert_same(&rt, &end, &End::NotHandedOn);
}

#[test]
fn refuses_65_537_bytes(rt: HostRuntime) {
    let bytes = [b'\n'; 65_537];
    let end = end_of(rt.alloc(), &bytes[..65_536]);
    assert_same(
        &rt,
        &end,
        &End::Refused(ConfigFault::Missing(ConfigKey::Id)),
    );
    let end = end_of(rt.alloc(), &bytes);
    assert_same(&rt, &end, &End::Refused(ConfigFault::Size));
}
