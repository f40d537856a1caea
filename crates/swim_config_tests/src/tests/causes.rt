//! Causes below the lines of faults, and warnings.

use super::alone::{ALONE, assert_warnings, behind, joined};
use super::assert_same;
use std::alloc::Global;
use std::process::Abort;
use std::test::Fail;
use swim_config::{ConfigFault, put_cause, read_config};
use swim_text::Page;

/// A configuration that can't work in any of the ways that are warned of.
const DOUBTFUL: &str = "id = 1
listen = \"10.0.0.1:7000\"
control = \"/tmp/swimd.sock\"
k = 3
rtt = 1
period = 1500
tick_ms = 60000
seed = \"4242424242424242424242424242424242424242424242424242424242424242\"
journal = 13535
[[member]]
id = 4
at = \"10.0.0.4:7000\"
[[member]]
id = 2
at = \"10.0.0.1:7000\"
[[member]]
id = 3
at = \"10.0.0.4:7000\"
";

/// Its warnings. A round has 3 periods of 1502 entries, and 2 entries for each of 3 members: three have 13536.
const WARNINGS: &str =
    "warning: journal 13535 is shorter than three rounds, which take 13536 entries
warning: member 2 is at this member's own address, 10.0.0.1:7000
warning: members 4 and 3 are at one address, 10.0.0.4:7000
warning: k 3 is greater than the members that could relay, 2
warning: a period has 90000000 milliseconds, which is beyond a day
warning: wire is 1, so that a relay that judged a member is no path to it
warning: rejoin is 0, so that only an operator's join brings a failed member back
warning: seed is one byte again and again, which anybody may guess
";

/// The cause of a document's fault is told so.
fn assert_cause<R: Abort>(rt: &R, alloc: Global, document: &str, wanted: &str) {
    let mut page = Page::new(alloc);
    match read_config(alloc, document.as_bytes()) {
        Ok(_) => panic!(rt; "no fault: {document}"),
        Err(fault) => {
            let _is_put = put_cause(alloc, &mut page, document.as_bytes(), fault);
        }
    }
    assert_same(rt, &page.text(), &wanted.as_bytes());
}

#[test]
fn tells_what_was_expected_and_what_stood_there(rt: HostRuntime) {
    let document = "# of a test\n\nid = 1 # this\nlisten = \"10.0.0.1\"\r\n";
    let wanted = "  expected: a string IP:PORT, as 10.0.0.1:7000 (where its datagrams come in)
  line 4: listen = \"10.0.0.1\"
";
    assert_cause(&rt, rt.alloc(), document, wanted);
}

#[test]
fn finds_no_key_in_a_text(rt: HostRuntime) {
    let document = "id = 1\ncontrol = '''\nlisten = 2\n'''\nlisten = 3\n";
    let wanted = "  expected: a string IP:PORT, as 10.0.0.1:7000 (where its datagrams come in)
  line 5: listen = 3
";
    assert_cause(&rt, rt.alloc(), document, wanted);
}

#[test]
fn tells_nothing_of_refused_memory(rt: HostRuntime) {
    let mut page = Page::new(rt.alloc());
    assert!(rt; put_cause(rt.alloc(), &mut page, b"", ConfigFault::NoMemory));
    assert!(rt; page.text().is_empty());
}

#[test]
fn warns_of_all(rt: HostRuntime) {
    assert_warnings(&rt, rt.alloc(), DOUBTFUL, WARNINGS);
}

#[test]
fn warns_of_version_1_where_relays_are_asked(rt: HostRuntime) -> Result<(), Fail> {
    let wire = "warning: wire is 1, so that a relay that judged a member is no path to it\n";
    for (lines, warning) in [("", wire), ("wire = 1\n", wire), ("wire = 2\n", "")] {
        let document = behind(rt.alloc(), lines)?;
        assert_warnings(&rt, rt.alloc(), document.as_str(), warning);
        let nobody = document.as_str().replace(rt.alloc(), "\nk = 1", "\nk = 0")?;
        assert_warnings(&rt, rt.alloc(), nobody.as_str(), "");
    }
    Ok(())
}

#[test]
fn warns_of_no_knocks_where_members_are_listed(rt: HostRuntime) -> Result<(), Fail> {
    let rejoin =
        "warning: rejoin is 0, so that only an operator's join brings a failed member back\n";
    for (lines, warning) in [("", rejoin), ("rejoin = 0\n", rejoin), ("rejoin = 1\n", "")] {
        let alone = joined(rt.alloc(), &["wire = 2\n", lines, ALONE])?;
        assert_warnings(&rt, rt.alloc(), alone.as_str(), "");
        let member = "[[member]]\nid = 2\nat = \"10.0.0.2:7000\"\n";
        let document = joined(rt.alloc(), &[alone.as_str(), member])?;
        let nobody = document.as_str().replace(rt.alloc(), "\nk = 1", "\nk = 0")?;
        assert_warnings(&rt, rt.alloc(), nobody.as_str(), warning);
    }
    Ok(())
}

#[test]
fn warns_of_a_key_of_one_byte(rt: HostRuntime) -> Result<(), Fail> {
    let plain =
        "warning: a key of the group is one byte again and again, which anybody may guess\n";
    for (lines, warning) in [
        (
            "keys = ['0000000000000000000000000000000000000000000000000000000000000000']\n",
            plain,
        ),
        (
            "keys = ['5c5c5c5c5c5c5c5c5c5c5c5c5c5c5c5c5d5d5d5d5d5d5d5d5d5d5d5d5d5d5d5d']\n",
            "",
        ),
        (
            "keys = ['5c5c5c5c5c5c5c5c5c5c5c5c5c5c5c5c5c5c5c5c5c5c5c5c5c5c5c5c5c5c5c5d',
                'fFFffFFffFFffFFffFFffFFffFFffFFffFFffFFffFFffFFffFFffFFffFFffFFf']\n",
            plain,
        ),
    ] {
        let document = joined(rt.alloc(), &["wire = 2\n", lines, ALONE])?;
        assert_warnings(&rt, rt.alloc(), document.as_str(), warning);
    }
    Ok(())
}
