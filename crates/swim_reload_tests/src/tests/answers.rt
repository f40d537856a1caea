//! What is taken over, and what is told together.

use super::documents::{assert_answer, assert_answer_behind};
use std::test::Fail;

/// Keys of a group, and others.
const KEYS: &str =
    "keys = [\"0000000000000000000000000000000000000000000000000000000000000001\"]\n";

const OTHER_KEYS: &str =
    "keys = [\"0000000000000000000000000000000000000000000000000000000000000002\"]\n";

const KEYS_AND_LAST: &str = "last = 0
keys = [\"0000000000000000000000000000000000000000000000000000000000000001\"]
";

const OTHER_KEYS_AND_FENCE: &str = "fence = 7
keys = [\"0000000000000000000000000000000000000000000000000000000000000002\"]
";

/// A configuration, and one of another version whose ticks are shorter.
const LONG_TICKS: &str = "id = 1
listen = \"10.0.0.1:7000\"
control = \"/tmp/swimd.sock\"
k = 1
rtt = 1
period = 3
tick_ms = 1000
seed = \"00000000000000000000000000000000000000000000000000000000000000aB\"
journal = 1000
";

const SHORT_TICKS: &str = "id = 1
listen = \"10.0.0.1:7000\"
control = \"/tmp/swimd.sock\"
k = 1
rtt = 1
period = 3
tick_ms = 500
seed = \"00000000000000000000000000000000000000000000000000000000000000aB\"
journal = 1000
wire = 2
";

#[test]
fn tells_two_keys_in_their_order(rt: HostRuntime) {
    assert_answer(
        &rt,
        rt.alloc(),
        LONG_TICKS,
        SHORT_TICKS,
        "reloaded; tick_ms needs a start; wire needs a start\n",
    );
    assert_answer(&rt, rt.alloc(), LONG_TICKS, LONG_TICKS, "reloaded\n");
}

#[test]
fn keys_the_fence_and_rejoin_are_taken_over(rt: HostRuntime) -> Result<(), Fail> {
    for lines in [
        [KEYS, OTHER_KEYS, "reloaded\n"],
        [KEYS, OTHER_KEYS_AND_FENCE, "reloaded\n"],
        ["", "fence = 0\n", "reloaded\n"],
        ["fence = 1000\n", "fence = 1\n", "reloaded\n"],
        ["", "rejoin = 3\n", "reloaded\n"],
        ["rejoin = 3\n", "rejoin = 65535\n", "reloaded\n"],
        ["rejoin = 3\n", "", "reloaded\n"],
    ] {
        assert_answer_behind(&rt, rt.alloc(), lines)?;
    }
    Ok(())
}

#[test]
fn a_value_that_goes_without_saying_is_the_same_where_it_is_said(
    rt: HostRuntime,
) -> Result<(), Fail> {
    for lines in [
        ["", "last = 0\n", "reloaded\n"],
        [
            "",
            "wire = 1\nrejoin = 0\njournal_keep = 16\njournal_ms = 0\n",
            "reloaded\n",
        ],
        ["wire = 1\n", "wire = 2\n", "reloaded; wire needs a start\n"],
    ] {
        assert_answer_behind(&rt, rt.alloc(), lines)?;
    }
    Ok(())
}

#[test]
fn a_last_number_of_the_clock_is_another_than_a_written_one(rt: HostRuntime) -> Result<(), Fail> {
    for lines in [
        [KEYS, KEYS_AND_LAST, "reloaded; last needs a start\n"],
        [KEYS_AND_LAST, OTHER_KEYS, "reloaded; last needs a start\n"],
        ["", KEYS, "reloaded; last needs a start\n"],
        ["", KEYS_AND_LAST, "reloaded\n"],
    ] {
        assert_answer_behind(&rt, rt.alloc(), lines)?;
    }
    Ok(())
}

#[test]
fn a_socket_that_goes_or_comes_is_told(rt: HostRuntime) -> Result<(), Fail> {
    for lines in [
        [
            "",
            "events = \"/tmp/events.sock\"\n",
            "reloaded; events needs a start\n",
        ],
        [
            "events = \"/tmp/events.sock\"\n",
            "",
            "reloaded; events needs a start\n",
        ],
        [
            "events_mode = \"0600\"\n",
            "",
            "reloaded; events_mode needs a start\n",
        ],
        [
            "journal_dir = \"/tmp/journals\"\n",
            "metrics = \"/tmp/journals\"\n",
            "reloaded; metrics needs a start; journal_dir needs a start\n",
        ],
    ] {
        assert_answer_behind(&rt, rt.alloc(), lines)?;
    }
    Ok(())
}
