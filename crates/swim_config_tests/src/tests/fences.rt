//! The key `fence`: which rate it says, how a summary tells it, its faults, and when a journal is short for a flood.

use super::alone::{
    ALONE, assert_fault_behind, assert_summary_ends, assert_warnings, behind, config_of, joined,
};
use super::assert_same_at;
use std::alloc::Global;
use std::process::Abort;
use std::test::Fail;

/// A document says this, and its summary ends so.
fn assert_fence<R: Abort>(rt: &R, alloc: Global, document: &str, fence: u32, end: &str) {
    let config = config_of(rt, alloc, document);
    assert_same_at(rt, document, &config.fence, &fence);
    assert_summary_ends(rt, alloc, &config, end);
}

#[test]
fn a_fence_is_1000_where_none_is_said(rt: HostRuntime) -> Result<(), Fail> {
    for (lines, fence, told) in [
        ("", 1_000, ""),
        ("fence = 1000\n", 1_000, " fence 1000"),
        ("fence = 0\n", 0, " fence 0"),
        (
            "fence = 4_294_967_295\nwire = 2\n",
            4_294_967_295,
            " wire 2 fence 4294967295",
        ),
    ] {
        let document = behind(rt.alloc(), lines)?;
        let end = joined(rt.alloc(), &[" journal 1000", told, "\nmembers 0\n"])?;
        assert_fence(&rt, rt.alloc(), document.as_str(), fence, end.as_str());
    }
    Ok(())
}

#[test]
fn another_fence_is_a_fault(rt: HostRuntime) -> Result<(), Fail> {
    let expected =
        "  expected: an integer from 0 to 4294967295 (datagrams a second of an address, 0 for all)";
    for (lines, fault, found) in [
        (
            "fence = -1\n",
            "configuration 6 fence",
            "  line 1: fence = -1",
        ),
        (
            "\nfence = 4294967296\n",
            "configuration 6 fence",
            "  line 2: fence = 4294967296",
        ),
        (
            "fence = 1.0\n",
            "configuration 5 fence",
            "  line 1: fence = 1.0",
        ),
    ] {
        assert_fault_behind(&rt, rt.alloc(), lines, [fault, expected, found])?;
    }
    Ok(())
}

/// The configuration behind these lines, with a member, which is brought back. It asks no relay.
fn with_a_member(alloc: Global, lines: &str) -> Result<String, Fail> {
    let member = "[[member]]\nid = 2\nat = \"10.0.0.2:7000\"\n";
    let document = joined(alloc, &["rejoin = 1\n", lines, ALONE, member])?;
    Ok(document.as_str().replace(alloc, "\nk = 1", "\nk = 0")?)
}

/// Three rounds of one member are 9 seconds here.
#[test]
fn a_journal_is_short_where_a_flood_fills_it(rt: HostRuntime) -> Result<(), Fail> {
    for (lines, warning) in [
        ("fence = 0\n", ""),
        ("fence = 111\n", ""),
        (
            "fence = 112\n",
            "warning: journal 1000 is shorter than what a flood of 112 datagrams a second adds in three rounds, 1008 entries\n",
        ),
        (
            "fence = 4294967295\n",
            "warning: journal 1000 is shorter than what a flood of 4294967295 datagrams a second adds in three rounds, 38654705655 entries\n",
        ),
    ] {
        let document = with_a_member(rt.alloc(), lines)?;
        assert_warnings(&rt, rt.alloc(), document.as_str(), warning);
    }
    Ok(())
}

/// The fence that goes without saying lets in 9,000 datagrams in that time.
#[test]
fn of_the_fence_that_goes_without_saying_nothing_is_warned(rt: HostRuntime) -> Result<(), Fail> {
    let document = with_a_member(rt.alloc(), "")?;
    assert_warnings(&rt, rt.alloc(), document.as_str(), "");
    Ok(())
}
