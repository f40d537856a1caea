//! The key `rejoin`: how often it says that is knocked, how a summary tells it, and its faults.

use super::alone::{assert_fault_behind, assert_summary_ends, behind, config_of, joined};
use super::assert_same_at;
use std::alloc::Global;
use std::process::Abort;
use std::test::Fail;

/// A document says this, and its summary ends so.
fn assert_rejoin<R: Abort>(rt: &R, alloc: Global, document: &str, rejoin: u32, end: &str) {
    let config = config_of(rt, alloc, document);
    assert_same_at(rt, document, &config.rejoin, &rejoin);
    assert_summary_ends(rt, alloc, &config, end);
}

#[test]
fn nobody_is_knocked_at_where_nothing_is_said(rt: HostRuntime) -> Result<(), Fail> {
    for (lines, rejoin, told) in [
        ("", 0, ""),
        ("rejoin = 0\n", 0, " rejoin 0"),
        ("rejoin = 3\n", 3, " rejoin 3"),
        (
            "rejoin = 65_535\nfence = 7\n",
            65_535,
            " fence 7 rejoin 65535",
        ),
    ] {
        let document = behind(rt.alloc(), lines)?;
        let end = joined(rt.alloc(), &[" journal 1000", told, "\nmembers 0\n"])?;
        assert_rejoin(&rt, rt.alloc(), document.as_str(), rejoin, end.as_str());
    }
    Ok(())
}

#[test]
fn another_rejoin_is_a_fault(rt: HostRuntime) -> Result<(), Fail> {
    let expected =
        "  expected: an integer from 0 to 65535 (periods between knocks at failed members, 0 for none)";
    for (lines, fault, found) in [
        (
            "rejoin = -1\n",
            "configuration 6 rejoin",
            "  line 1: rejoin = -1",
        ),
        (
            "\nrejoin = 65536\n",
            "configuration 6 rejoin",
            "  line 2: rejoin = 65536",
        ),
        (
            "rejoin = 1.0\n",
            "configuration 5 rejoin",
            "  line 1: rejoin = 1.0",
        ),
    ] {
        assert_fault_behind(&rt, rt.alloc(), lines, [fault, expected, found])?;
    }
    Ok(())
}
