//! The key `keys`: which keys it says, how a summary tells them, its faults, and that no fault shows their digits.

use super::alone::{
    self, assert_fault, assert_fault_lines, assert_summary, config_of, joined, told_of,
};
use super::{assert_same, assert_same_at};
use std::alloc::Global;
use std::process::Abort;
use std::test::Fail;
use swim_config::{Config, fingerprint};
use swim_keys::GroupKey;

/// A key, and the same with other digits in front.
const FIRST: &str = "00112233445566778899aabbccddeeffFFEEDDCCBBAA99887766554433221100";

const SECOND: &str = "ff112233445566778899aabbccddeeffFFEEDDCCBBAA99887766554433221100";

/// What a value of `keys` has to be.
const EXPECTED: &str =
    "  expected: an array of 1 to 4 strings of 64 hexadecimal digits (the keys of the group, of which the first signs)";

/// What is told of another form, and of other values.
const FORM: &str = "configuration 5 keys";

const RANGE: &str = "configuration 6 keys";

/// The beginning of a summary, up to its line of numbers.
const FRONT: &str = "id 1
listen 10.0.0.1:7000
control /tmp/swimd.sock
k 1 rtt 1 period 3 tick_ms 1000";

/// A text with the digits of the two keys in place of `<1>` and `<2>`.
fn with_digits(alloc: Global, text: &str) -> Result<String, Fail> {
    let first = text.replace(alloc, "<1>", FIRST)?;
    Ok(first.as_str().replace(alloc, "<2>", SECOND)?)
}

/// The configuration behind these lines, in which `<1>` and `<2>` stand for the digits of the two keys.
fn behind(alloc: Global, lines: &str) -> Result<String, Fail> {
    alone::behind(alloc, with_digits(alloc, lines)?.as_str())
}

#[test]
fn keys_are_read_in_order(rt: HostRuntime) -> Result<(), Fail> {
    let document = behind(rt.alloc(), "keys = [\"<1>\", '<2>']\n")?;
    let config = config_of(&rt, rt.alloc(), document.as_str());
    assert_two_keys(&rt, &config);
    Ok(())
}

fn assert_two_keys<R: Abort>(rt: &R, config: &Config) {
    let firsts = config.keys.as_slice();
    assert_same(rt, &firsts.len(), &2);
    for (key, first) in firsts.iter().zip([0x00, 0xff]) {
        assert_key(rt, key.as_bytes(), first);
    }
}

/// A key's bytes begin with this one and those of the second and third, and end with that of the last.
fn assert_key<R: Abort>(rt: &R, bytes: &[u8; 32], first: u8) {
    assert_same(rt, &[bytes[0], bytes[1], bytes[2]], &[first, 0x11, 0x22]);
    assert_same(rt, &bytes[31], &0);
}

#[test]
fn a_summary_tells_how_many_keys_there_are_and_which(rt: HostRuntime) -> Result<(), Fail> {
    for (lines, numbers) in [
        ("", " last 0 journal 1000"),
        ("keys = [\"<1>\"]\n", " journal 1000 keys 1\nkey ef49150b"),
        (
            "keys = [\"<2>\",\n  \"<1>\", # the old one\n]\n",
            " journal 1000 keys 2\nkey f4ac81e2\nkey ef49150b",
        ),
        (
            "keys = [\"<1>\",\"<2>\",\"<1>\",\"<2>\"]\nwire = 2\nlast = 7\n",
            " last 7 journal 1000 wire 2 keys 4\nkey ef49150b\nkey f4ac81e2\nkey ef49150b\nkey f4ac81e2",
        ),
    ] {
        let document = behind(rt.alloc(), lines)?;
        let wanted = joined(rt.alloc(), &[FRONT, numbers, "\nmembers 0\n"])?;
        let config = config_of(&rt, rt.alloc(), document.as_str());
        assert_summary(&rt, rt.alloc(), &config, wanted.as_str());
    }
    Ok(())
}

/// The fingerprints are the front of what `sha256sum` says of the keys' bytes.
#[test]
fn a_fingerprint_tells_one_key_from_another(rt: HostRuntime) {
    for (text, wanted) in [(FIRST, b"ef49150b"), (SECOND, b"f4ac81e2")] {
        match GroupKey::read(text.as_bytes()) {
            Ok(key) => assert_same_at(&rt, text, &fingerprint(&key), wanted),
            Err(_) => panic!(rt; "a key: {text}"),
        }
    }
}

#[test]
fn other_keys_are_a_fault(rt: HostRuntime) -> Result<(), Fail> {
    for (lines, fault, found) in [
        ("keys = \"<1>\"\n", FORM, "  line 1: keys = \"..\""),
        (
            "keys = [\"<1>\", 5]\n",
            FORM,
            "  line 1: keys = [\"..\", 5]",
        ),
        ("keys = [[\"<1>\"]]\n", FORM, "  line 1: keys = [[\"..\"]]"),
        ("keys = []\n", RANGE, "  line 1: keys = []"),
        (
            "keys = [\"<1>\",'<1>',\"<1>\",\"<2>\",\"<2>\"]\n",
            RANGE,
            "  line 1: keys = [\"..\",'..',\"..\",\"..\",\"..\"]",
        ),
        (
            "keys = [\"<1>\", \"<1>0\"]\n",
            RANGE,
            "  line 1: keys = [\"..\", \"..\"]",
        ),
        ("keys = [\n  \"<1> \",\n]\n", RANGE, "  line 1: keys = ["),
        // The digits aren't shown either where one of them is none, or where there are spaces among them.
        (
            "keys = [\"0123456789abcdefO123456789abcdef0123456789abcdef0123456789abcdef\"]\n",
            RANGE,
            "  line 1: keys = [\"..\"]",
        ),
        (
            "keys = [ \"01 23 45 67 89 ab cd ef 01 23 45 67 89 ab cd ef 01 23 45\" ]\n",
            RANGE,
            "  line 1: keys = [ \"..\" ]",
        ),
        ("keys.<1> = 1\n", FORM, "  line 1: ..= 1"),
    ] {
        let document = behind(rt.alloc(), lines)?;
        assert_fault_lines(&rt, rt.alloc(), document.as_str(), [fault, EXPECTED, found])?;
    }
    Ok(())
}

#[test]
fn no_other_fault_shows_a_key(rt: HostRuntime) -> Result<(), Fail> {
    let toml = "configuration 2\n  expected: a TOML document, in UTF-8\n";
    for (lines, wanted) in [
        // a name that isn't quite it, and the key of a member
        (
            "key = [\"<1>\"]\n",
            "configuration 3\n  found: key; the nearest known key: keys\n  line 1: key = [\"..\"]\n",
        ),
        (
            "keis = [\"<1>\"]\n",
            "configuration 3\n  found: keis; the nearest known key: keys\n  line 1: keis = [\"..\"]\n",
        ),
        (
            "keys = [\"<2>\"]\n<1> = 1\n",
            "configuration 3\n  found: ..; the nearest known key: journal_keep\n  line 2: ..= 1\n",
        ),
        (
            "keys = [\"<2>\"]\nwire = 3 # once <1>\n",
            "configuration 6 wire\n  expected: an integer from 1 to 2 (the version of its own pings and ping-reqs)\n  line 2: wire = 3 #..\n",
        ),
    ] {
        let document = behind(rt.alloc(), lines)?;
        assert_fault(&rt, rt.alloc(), document.as_str(), wanted);
    }
    let document = behind(rt.alloc(), "wire = 1 Keys = [\"<1>\"]\n")?;
    let page = told_of(rt.alloc(), document.as_str());
    assert!(rt; page.text().starts_with(toml.as_bytes()));
    assert!(rt;
        page.text()
            .ends_with(b"\n  line 1: wire = 1 Keys = [\"..\"]\n")
    );
    Ok(())
}

/// The last number of a configuration's detector, where a daemon of it starts in the 1000th millisecond.
fn last_at_1000(config: Config) -> u64 {
    config.begun_at(1_000).opening.last()
}

#[test]
fn the_clock_is_the_last_number_where_keys_are_set_and_none_is_given(
    rt: HostRuntime,
) -> Result<(), Fail> {
    for (lines, last) in [
        ("", 0),
        ("last = 7\n", 7),
        ("keys = [\"<1>\"]\n", 1_000),
        ("keys = [\"<1>\"]\nlast = 0\n", 0),
        ("keys = [\"<1>\"]\nlast = 2000\n", 2_000),
    ] {
        let document = behind(rt.alloc(), lines)?;
        let config = config_of(&rt, rt.alloc(), document.as_str());
        assert_same_at(&rt, lines, &last_at_1000(config), &last);
    }
    Ok(())
}
