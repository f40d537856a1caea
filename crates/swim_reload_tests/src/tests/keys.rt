//! Each key that needs a start, changed alone, and all of them at once.

use super::documents::{assert_answer, joined};
use std::alloc::Global;
use std::test::Fail;
use swim_reload::RELOADED_BYTES;

/// A key with a line that gives it a value, and one that gives it another.
struct Line {
    key: &'static str,
    first: &'static str,
    second: &'static str,
}

/// Those of a configuration with two members.
const LINES: [Line; 19] = [
    Line {
        key: "id",
        first: "id = 1\n",
        second: "id = 9\n",
    },
    Line {
        key: "listen",
        first: "listen = \"10.0.0.1:7000\"\n",
        second: "listen = \"10.0.0.1:7001\"\n",
    },
    Line {
        key: "control",
        first: "control = \"/tmp/swimd.sock\"\n",
        second: "control = \"/tmp/swimd.sock2\"\n",
    },
    Line {
        key: "events",
        first: "events = \"/tmp/events.sock\"\n",
        second: "events = \"/tmp/event.sock\"\n",
    },
    Line {
        key: "metrics",
        first: "metrics = \"/tmp/metrics.prom\"\n",
        second: "metrics = \"/tmp/metrics.Prom\"\n",
    },
    Line {
        key: "control_mode",
        first: "control_mode = \"0600\"\n",
        second: "control_mode = \"0660\"\n",
    },
    Line {
        key: "events_mode",
        first: "events_mode = \"0640\"\n",
        second: "\n",
    },
    Line {
        key: "k",
        first: "k = 1\n",
        second: "k = 2\n",
    },
    Line {
        key: "rtt",
        first: "rtt = 1\n",
        second: "rtt = 2\n",
    },
    Line {
        key: "period",
        first: "period = 6\n",
        second: "period = 7\n",
    },
    Line {
        key: "tick_ms",
        first: "tick_ms = 1000\n",
        second: "tick_ms = 999\n",
    },
    Line {
        key: "seed",
        first: "seed = \"00000000000000000000000000000000000000000000000000000000000000aB\"\n",
        second: "seed = \"00000000000000000000000000000000000000000000000000000000000000aC\"\n",
    },
    Line {
        key: "journal",
        first: "journal = 1000\n",
        second: "journal = 1001\n",
    },
    Line {
        key: "last",
        first: "last = 7\n",
        second: "last = 8\n",
    },
    Line {
        key: "wire",
        first: "wire = 2\n",
        second: "\n",
    },
    Line {
        key: "journal_dir",
        first: "journal_dir = \"/tmp/journals\"\n",
        second: "journal_dir = \"/tmp/journal\"\n",
    },
    Line {
        key: "journal_keep",
        first: "journal_keep = 8\n",
        second: "journal_keep = 0\n",
    },
    Line {
        key: "journal_ms",
        first: "journal_ms = 1\n",
        second: "\n",
    },
    Line {
        key: "member",
        first: "member = [{ id = 2, at = \"10.0.0.2:7000\" }, { id = 3, at = \"10.0.0.3:7000\" }]\n",
        second: "member = [{ id = 3, at = \"10.0.0.3:7000\" }, { id = 2, at = \"10.0.0.2:7000\" }]\n",
    },
];

/// Their configuration, in which this key has its other value, or, with none, no key has.
fn changed_at(alloc: Global, key: &str) -> Result<String, Fail> {
    let mut text = String::new(alloc);
    for line in &LINES {
        let is_changed = line.key == key;
        text.push_str(if is_changed { line.second } else { line.first })?;
    }
    Ok(text)
}

/// Their configuration, in which each key has its other value.
fn all_changed(alloc: Global) -> Result<String, Fail> {
    let mut text = String::new(alloc);
    for line in &LINES {
        text.push_str(line.second)?;
    }
    Ok(text)
}

#[test]
fn tells_each_key_alone(rt: HostRuntime) -> Result<(), Fail> {
    let started = changed_at(rt.alloc(), "")?;
    for line in &LINES {
        let read = changed_at(rt.alloc(), line.key)?;
        let wanted = joined(rt.alloc(), &["reloaded; ", line.key, " needs a start\n"])?;
        assert_answer(
            &rt,
            rt.alloc(),
            started.as_str(),
            read.as_str(),
            wanted.as_str(),
        );
    }
    Ok(())
}

#[test]
fn tells_all_keys_in_their_order(rt: HostRuntime) -> Result<(), Fail> {
    let started = changed_at(rt.alloc(), "")?;
    let read = all_changed(rt.alloc())?;
    let mut wanted = String::new(rt.alloc());
    wanted.push_str("reloaded")?;
    for line in &LINES {
        wanted.push_str("; ")?;
        wanted.push_str(line.key)?;
        wanted.push_str(" needs a start")?;
    }
    wanted.push_str("\n")?;
    assert!(rt; wanted.len() == RELOADED_BYTES);
    assert_answer(
        &rt,
        rt.alloc(),
        started.as_str(),
        read.as_str(),
        wanted.as_str(),
    );
    Ok(())
}

#[test]
fn tells_a_member_at_another_address(rt: HostRuntime) -> Result<(), Fail> {
    let started = changed_at(rt.alloc(), "member")?;
    let members =
        "member = [{ id = 3, at = \"10.0.0.3:7000\" }, { id = 2, at = \"10.0.0.2:7009\" }]\n";
    let mut read = String::new(rt.alloc());
    for line in &LINES {
        let is_changed = line.key == "member";
        read.push_str(if is_changed { members } else { line.first })?;
    }
    assert_answer(
        &rt,
        rt.alloc(),
        started.as_str(),
        read.as_str(),
        "reloaded; member needs a start\n",
    );
    Ok(())
}
