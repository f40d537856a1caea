//! The key `wire`: which version it says, how a summary tells it, and its faults.

use super::alone::{assert_fault, assert_fault_behind, assert_summary, behind, config_of};
use super::assert_same_at;
use std::alloc::Global;
use std::process::Abort;
use std::test::Fail;
use swim_wire::Version;

/// Its summary.
const SUMMARY: &str = "id 1
listen 10.0.0.1:7000
control /tmp/swimd.sock
k 1 rtt 1 period 3 tick_ms 1000 last 0 journal 1000
members 0
";

/// Its summary where its own pings have version 2.
const SUMMARY_OF_2: &str = "id 1
listen 10.0.0.1:7000
control /tmp/swimd.sock
k 1 rtt 1 period 3 tick_ms 1000 last 0 journal 1000 wire 2
members 0
";

/// The same where it has journal files.
const SUMMARY_WITH_FILES: &str = "id 1
listen 10.0.0.1:7000
control /tmp/swimd.sock
journal_dir /tmp
k 1 rtt 1 period 3 tick_ms 1000 last 0 journal 1000 wire 2
journal_keep 16
members 0
";

/// A document says this, and its summary is this text.
fn assert_version<R: Abort>(rt: &R, alloc: Global, document: &str, version: Version, told: &str) {
    let config = config_of(rt, alloc, document);
    assert_same_at(rt, document, &config.opening.version(), &version);
    assert_summary(rt, alloc, &config, told);
}

#[test]
fn a_version_is_1_where_none_is_said(rt: HostRuntime) -> Result<(), Fail> {
    for (lines, version, told) in [
        ("", Version::One, SUMMARY),
        ("wire = 1\n", Version::One, SUMMARY),
        ("wire = 2\n", Version::Two, SUMMARY_OF_2),
        (
            "journal_dir = \"/tmp\"\nwire = 2\n",
            Version::Two,
            SUMMARY_WITH_FILES,
        ),
    ] {
        let document = behind(rt.alloc(), lines)?;
        assert_version(&rt, rt.alloc(), document.as_str(), version, told);
    }
    Ok(())
}

#[test]
fn another_version_is_a_fault(rt: HostRuntime) -> Result<(), Fail> {
    let expected =
        "  expected: an integer from 1 to 2 (the version of its own pings and ping-reqs)";
    for (lines, fault, found) in [
        ("wire = 0\n", "configuration 6 wire", "  line 1: wire = 0"),
        ("wire = 3\n", "configuration 6 wire", "  line 1: wire = 3"),
        ("wire = -2\n", "configuration 6 wire", "  line 1: wire = -2"),
        (
            "wire = \"2\"\n",
            "configuration 5 wire",
            "  line 1: wire = \"2\"",
        ),
        // It is told before what stands behind `wire` in the table of keys.
        (
            "journal_dir = 1\nwire = 3\n",
            "configuration 6 wire",
            "  line 2: wire = 3",
        ),
    ] {
        assert_fault_behind(&rt, rt.alloc(), lines, [fault, expected, found])?;
    }
    Ok(())
}

#[test]
fn wire_has_its_place_among_the_keys(rt: HostRuntime) -> Result<(), Fail> {
    let last = "configuration 6 last
  expected: an integer from 0 to 9223372036854775807 (the last period number that was used before)
  line 2: last = -1
";
    let wired = "configuration 3
  found: wired; the nearest known key: wire
  line 1: wired = 2
";
    for (lines, wanted) in [("wire = 3\nlast = -1\n", last), ("wired = 2\n", wired)] {
        let document = behind(rt.alloc(), lines)?;
        assert_fault(&rt, rt.alloc(), document.as_str(), wanted);
    }
    Ok(())
}
