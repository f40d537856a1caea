//! The key `events`: which path it says, how a summary tells it, and its faults.

use super::alone::{assert_fault_behind, assert_summary_begins, behind, config_of, joined};
use super::assert_same_at;
use std::alloc::Global;
use std::process::Abort;
use std::test::Fail;

/// What a value of `events` has to be.
const EXPECTED: &str =
    "  expected: a string of 1 to 100 characters of ASCII that print (the path of the events' socket, not that of control)";

/// A summary up to the path of the control socket.
const FRONT: &str = "id 1\nlisten 10.0.0.1:7000\ncontrol /tmp/swimd.sock";

/// A document says this path, and its summary begins so.
fn assert_events<R: Abort>(rt: &R, alloc: Global, document: &str, path: &str, front: &str) {
    let config = config_of(rt, alloc, document);
    let events = config.events.as_ref();
    assert_same_at(rt, document, &events.map_or("", |it| it.as_str()), &path);
    assert_summary_begins(rt, alloc, &config, front);
}

#[test]
fn a_summary_tells_the_path_behind_that_of_control(rt: HostRuntime) -> Result<(), Fail> {
    for (lines, path, told) in [
        ("", "", ""),
        (
            "events = \"/run/events\"\n",
            "/run/events",
            "\nevents /run/events",
        ),
        (
            "journal_dir = \"/tmp\"\nevents = \"e\"\n",
            "e",
            "\nevents e\njournal_dir /tmp",
        ),
    ] {
        let document = behind(rt.alloc(), lines)?;
        let front = joined(rt.alloc(), &[FRONT, told, "\nk 1 "])?;
        assert_events(&rt, rt.alloc(), document.as_str(), path, front.as_str());
    }
    Ok(())
}

#[test]
fn another_path_is_a_fault(rt: HostRuntime) -> Result<(), Fail> {
    for (lines, fault, found) in [
        (
            "events = \"\"\n",
            "configuration 6 events",
            "  line 1: events = \"\"",
        ),
        (
            "events = 7\n",
            "configuration 5 events",
            "  line 1: events = 7",
        ),
        // One path can't be that of both sockets.
        (
            "\nevents = \"/tmp/swimd.sock\" # twice\n",
            "configuration 6 events",
            "  line 2: events = \"/tmp/swimd.sock\" # twice",
        ),
    ] {
        assert_fault_behind(&rt, rt.alloc(), lines, [fault, EXPECTED, found])?;
    }
    Ok(())
}
