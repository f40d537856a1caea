//! The folder of the journal files isn't the path of another key.

use super::alone::{assert_fault_behind, assert_summary_begins, behind, config_of};
use std::test::Fail;

/// What a value of `journal_dir` has to be.
const EXPECTED: &str =
    "  expected: a string of 1 to 100 characters of ASCII that print (the folder of the journal files, not the path of another key)";

#[test]
fn a_folder_at_another_path_is_a_fault(rt: HostRuntime) -> Result<(), Fail> {
    for (lines, found) in [
        (
            "journal_dir = '/tmp/swimd.sock'\n",
            "  line 1: journal_dir = '/tmp/swimd.sock'",
        ),
        (
            "events = 'e'\njournal_dir = 'e'\n",
            "  line 2: journal_dir = 'e'",
        ),
        (
            "events = 'e'\nmetrics = 'm'\njournal_dir = 'm'\n",
            "  line 3: journal_dir = 'm'",
        ),
    ] {
        let fault = "configuration 6 journal_dir";
        assert_fault_behind(&rt, rt.alloc(), lines, [fault, EXPECTED, found])?;
    }
    Ok(())
}

#[test]
fn a_folder_beside_them_is_none(rt: HostRuntime) -> Result<(), Fail> {
    let lines = "events = 'e'\nmetrics = 'm'\njournal_dir = '/tmp/swimd.sock/'\n";
    let document = behind(rt.alloc(), lines)?;
    let config = config_of(&rt, rt.alloc(), document.as_str());
    let front =
        "id 1\nlisten 10.0.0.1:7000\ncontrol /tmp/swimd.sock\nevents e\nmetrics m\njournal_dir /tmp/swimd.sock/\n";
    assert_summary_begins(&rt, rt.alloc(), &config, front);
    Ok(())
}
