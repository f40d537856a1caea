//! The key `journal_ms`: to which unit it says that times are told, how a summary tells it, and its faults.

use super::alone::{
    assert_fault, assert_fault_behind, assert_summary_ends, behind, config_of, joined,
};
use super::assert_same_at;
use std::alloc::Global;
use std::process::Abort;
use std::test::Fail;
use swim_config::TimeUnit;

/// A document says this, and its summary ends so.
fn assert_unit<R: Abort>(rt: &R, alloc: Global, document: &str, unit: TimeUnit, end: &str) {
    let config = config_of(rt, alloc, document);
    assert_same_at(rt, document, &config.files.unit, &unit);
    assert_summary_ends(rt, alloc, &config, end);
}

#[test]
fn times_are_in_seconds_where_nothing_is_said(rt: HostRuntime) -> Result<(), Fail> {
    let keep = "\njournal_keep 16";
    let folder = "journal_dir = \"/tmp\"\n";
    for (lines, unit, told) in [
        (["", ""], TimeUnit::Seconds, ["", ""]),
        ([folder, ""], TimeUnit::Seconds, [keep, ""]),
        ([folder, "journal_ms = 0\n"], TimeUnit::Seconds, [keep, ""]),
        (
            [folder, "journal_ms = 1\n"],
            TimeUnit::Milliseconds,
            [keep, " journal_ms 1"],
        ),
        // Without files nothing is told of it, as of how many stay.
        (["", "journal_ms = 1\n"], TimeUnit::Milliseconds, ["", ""]),
        (
            [
                "journal_keep = 0\n",
                "journal_ms = 1\njournal_dir = \".\"\n",
            ],
            TimeUnit::Milliseconds,
            ["\njournal_keep 0", " journal_ms 1"],
        ),
    ] {
        let document = behind(rt.alloc(), joined(rt.alloc(), &lines)?.as_str())?;
        let [keep, ms] = told;
        let end = joined(rt.alloc(), &[" journal 1000", keep, ms, "\nmembers 0\n"])?;
        assert_unit(&rt, rt.alloc(), document.as_str(), unit, end.as_str());
    }
    Ok(())
}

#[test]
fn another_unit_is_a_fault(rt: HostRuntime) -> Result<(), Fail> {
    let expected =
        "  expected: an integer from 0 to 1 (times in journal files: 0 in seconds, 1 with milliseconds)";
    for (lines, fault, found) in [
        (
            "journal_ms = 2\n",
            "configuration 6 journal_ms",
            "  line 1: journal_ms = 2",
        ),
        (
            "\njournal_ms = -1\n",
            "configuration 6 journal_ms",
            "  line 2: journal_ms = -1",
        ),
        (
            "journal_ms = true\n",
            "configuration 5 journal_ms",
            "  line 1: journal_ms = true",
        ),
        (
            "journal_ms = \"1\"\n",
            "configuration 5 journal_ms",
            "  line 1: journal_ms = \"1\"",
        ),
    ] {
        assert_fault_behind(&rt, rt.alloc(), lines, [fault, expected, found])?;
    }
    Ok(())
}

#[test]
fn journal_ms_has_its_place_among_the_keys(rt: HostRuntime) -> Result<(), Fail> {
    let keep = "configuration 6 journal_keep
  expected: an integer from 0 to 4294967295 (how many journal files stay, 0 for all)
  line 2: journal_keep = -1
";
    let near = "configuration 3
  found: journal-ms; the nearest known key: journal_ms
  line 1: journal-ms = 1
";
    for (lines, wanted) in [
        ("journal_ms = 2\njournal_keep = -1\n", keep),
        ("journal-ms = 1\n", near),
    ] {
        let document = behind(rt.alloc(), lines)?;
        assert_fault(&rt, rt.alloc(), document.as_str(), wanted);
    }
    Ok(())
}
