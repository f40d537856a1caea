//! Configuration files, and what is answered where a daemon reads one that was started with another.

use std::alloc::Global;
use std::process::Abort;
use std::test::Fail;
use swim_config::put_fault;
use swim_reload::{put_reloaded, reread};
use swim_text::Page;

/// A configuration with no member, and no key that may be left out.
pub const ALONE: &str = "id = 1
listen = \"10.0.0.1:7000\"
control = \"/tmp/swimd.sock\"
k = 1
rtt = 1
period = 3
tick_ms = 1000
seed = \"00000000000000000000000000000000000000000000000000000000000000aB\"
journal = 1000
";

/// These texts, one behind the other. With a text that stands in a `format!` a proof computes, for many seconds.
pub fn joined(alloc: Global, parts: &[&str]) -> Result<String, Fail> {
    Ok(parts.concat(alloc)?)
}

/// What is answered where a daemon was started with the one file and reads the other.
pub fn answer_to(alloc: Global, started: &str, text: &str) -> Page {
    let mut page = Page::new(alloc);
    let _is_put = match reread(alloc, started.as_bytes(), text.as_bytes()) {
        Ok((started, read)) => put_reloaded(&mut page, &started, &read),
        Err(fault) => put_fault(&mut page, fault),
    };
    page
}

/// This is answered.
pub fn assert_answer<R: Abort>(rt: &R, alloc: Global, started: &str, text: &str, wanted: &str) {
    let page = answer_to(alloc, started, text);
    assert!(rt; page.text() == wanted.as_bytes(), "not {wanted} of {text}");
}

/// This is answered where these lines stand in front of the configuration, the first ones at the start.
pub fn assert_answer_behind<R: Abort>(
    rt: &R,
    alloc: Global,
    [started, read, wanted]: [&str; 3],
) -> Result<(), Fail> {
    let started = joined(alloc, &[started, ALONE])?;
    let text = joined(alloc, &[read, ALONE])?;
    assert_answer(rt, alloc, started.as_str(), text.as_str(), wanted);
    Ok(())
}
