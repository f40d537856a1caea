//! A configuration with no member, to which tests add lines, and what has to be told of a document.

use super::{assert_same, assert_same_at};
use std::alloc::Global;
use std::process::Abort;
use std::test::Fail;
use swim_config::{Config, put_cause, put_fault, put_warnings, read_config, summary};
use swim_text::Page;

/// A configuration with no member.
pub const ALONE: &str = "id = 1
listen = \"10.0.0.1:7000\"
control = \"/tmp/swimd.sock\"
k = 1
rtt = 1
period = 3
tick_ms = 1000
seed = \"00000000000000000000000000000000000000000000000000000000000000aB\"
journal = 1000
";

/// What is told of a document's fault; nothing where it has none.
pub fn told_of(alloc: Global, document: &str) -> Page {
    let mut page = Page::new(alloc);
    if let Err(fault) = read_config(alloc, document.as_bytes()) {
        let _is_put = put_fault(&mut page, fault)
            && put_cause(alloc, &mut page, document.as_bytes(), fault);
    }
    page
}

/// These texts, one behind the other. With a text that stands in a `format!` a proof computes, for many seconds.
pub fn joined(alloc: Global, parts: &[&str]) -> Result<String, Fail> {
    Ok(parts.concat(alloc)?)
}

/// The configuration behind these lines.
pub fn behind(alloc: Global, lines: &str) -> Result<String, Fail> {
    joined(alloc, &[lines, ALONE])
}

/// What a document says that has no fault.
pub fn config_of<R: Abort>(rt: &R, alloc: Global, document: &str) -> Config {
    match read_config(alloc, document.as_bytes()) {
        Ok(config) => config,
        Err(_) => panic!(rt; "a configuration: {document}"),
    }
}

/// A document's fault is told so.
pub fn assert_fault<R: Abort>(rt: &R, alloc: Global, document: &str, wanted: &str) {
    let told = told_of(alloc, document);
    assert_same_at(rt, document, &told.text(), &wanted.as_bytes());
}

/// A document's fault is told in these three lines: what it is, what was expected, and what stands there.
pub fn assert_fault_lines<R: Abort>(
    rt: &R,
    alloc: Global,
    document: &str,
    [fault, expected, found]: [&str; 3],
) -> Result<(), Fail> {
    let wanted = joined(alloc, &[fault, "\n", expected, "\n", found, "\n"])?;
    assert_fault(rt, alloc, document, wanted.as_str());
    Ok(())
}

/// The same, of the configuration behind these lines.
pub fn assert_fault_behind<R: Abort>(
    rt: &R,
    alloc: Global,
    lines: &str,
    wanted: [&str; 3],
) -> Result<(), Fail> {
    let document = behind(alloc, lines)?;
    assert_fault_lines(rt, alloc, document.as_str(), wanted)
}

/// The summary of a document's configuration.
fn summary_of<R: Abort>(rt: &R, alloc: Global, config: &Config) -> Page {
    let mut page = Page::new(alloc);
    assert!(rt; summary(config, &mut page));
    page
}

/// A configuration's summary is this text.
pub fn assert_summary<R: Abort>(rt: &R, alloc: Global, config: &Config, wanted: &str) {
    let page = summary_of(rt, alloc, config);
    assert_same(rt, &page.text(), &wanted.as_bytes());
}

/// A configuration's summary begins so.
pub fn assert_summary_begins<R: Abort>(rt: &R, alloc: Global, config: &Config, front: &str) {
    let page = summary_of(rt, alloc, config);
    assert!(rt;
        page.text().starts_with(front.as_bytes()),
        "not in front: {front}"
    );
}

/// A configuration's summary ends so.
pub fn assert_summary_ends<R: Abort>(rt: &R, alloc: Global, config: &Config, end: &str) {
    let page = summary_of(rt, alloc, config);
    assert!(rt;
        page.text().ends_with(end.as_bytes()),
        "not at the end: {end}"
    );
}

/// This is warned of where a document is used.
pub fn assert_warnings<R: Abort>(rt: &R, alloc: Global, document: &str, wanted: &str) {
    let mut page = Page::new(alloc);
    assert!(rt; put_warnings(&mut page, &config_of(rt, alloc, document)));
    assert_same_at(rt, document, &page.text(), &wanted.as_bytes());
}
