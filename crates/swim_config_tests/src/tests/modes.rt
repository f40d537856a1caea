//! The keys `control_mode` and `events_mode`: which modes they say, how a summary tells them, and their faults.

use super::alone::{assert_fault_behind, assert_summary_begins, behind, config_of, joined};
use super::assert_same_at;
use std::alloc::Global;
use std::process::Abort;
use std::test::Fail;

/// A summary up to the path of the control socket.
const FRONT: &str = "id 1\nlisten 10.0.0.1:7000\ncontrol /tmp/swimd.sock";

/// A document says these modes, and its summary begins so.
fn assert_modes<R: Abort>(
    rt: &R,
    alloc: Global,
    document: &str,
    modes: [Option<u32>; 2],
    front: &str,
) {
    let config = config_of(rt, alloc, document);
    assert_same_at(rt, document, &config.modes.control, &modes[0]);
    assert_same_at(rt, document, &config.modes.events, &modes[1]);
    assert_summary_begins(rt, alloc, &config, front);
}

#[test]
fn a_summary_tells_modes_that_are_given(rt: HostRuntime) -> Result<(), Fail> {
    for (lines, modes, told) in [
        ("", [None, None], ""),
        (
            "control_mode = \"0660\"\n",
            [Some(0o660), None],
            "\ncontrol_mode 0660",
        ),
        (
            "events_mode = \"0604\"\nevents = \"e\"\n",
            [None, Some(0o604)],
            "\nevents e\nevents_mode 0604",
        ),
        (
            "journal_dir = \"/tmp\"\nevents_mode = \"0777\"\ncontrol_mode = \"0000\"\n",
            [Some(0), Some(0o777)],
            "\ncontrol_mode 0000\nevents_mode 0777\njournal_dir /tmp",
        ),
    ] {
        let document = behind(rt.alloc(), lines)?;
        let front = joined(rt.alloc(), &[FRONT, told, "\nk 1 "])?;
        assert_modes(&rt, rt.alloc(), document.as_str(), modes, front.as_str());
    }
    Ok(())
}

#[test]
fn another_mode_is_a_fault(rt: HostRuntime) -> Result<(), Fail> {
    let control =
        "  expected: a string of a 0 and 3 octal digits, as 0660 (the mode of the control socket)";
    let events =
        "  expected: a string of a 0 and 3 octal digits, as 0660 (the mode of the events' socket)";
    for (lines, wanted) in [
        (
            "control_mode = \"660\"\n",
            [
                "configuration 6 control_mode",
                control,
                "  line 1: control_mode = \"660\"",
            ],
        ),
        (
            "control_mode = 0o660\n",
            [
                "configuration 5 control_mode",
                control,
                "  line 1: control_mode = 0o660",
            ],
        ),
        (
            "\nevents_mode = \"0680\"\n",
            [
                "configuration 6 events_mode",
                events,
                "  line 2: events_mode = \"0680\"",
            ],
        ),
        (
            "events_mode = \"1600\"\n",
            [
                "configuration 6 events_mode",
                events,
                "  line 1: events_mode = \"1600\"",
            ],
        ),
    ] {
        assert_fault_behind(&rt, rt.alloc(), lines, wanted)?;
    }
    Ok(())
}
