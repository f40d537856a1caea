//! A file that is refused, and an answer that isn't taken.

use super::documents::{ALONE, assert_answer, assert_answer_behind};
use std::test::Fail;
use swim_config::ConfigFault;
use swim_doubles::FailingPage;
use swim_reload::{put_reloaded, reread};

#[test]
fn a_fault_of_the_file_is_told(rt: HostRuntime) -> Result<(), Fail> {
    for lines in [
        ["", "journal_keep = -1\n", "configuration 6 journal_keep\n"],
        ["", "z = 1\n", "configuration 3\n"],
        ["z = 1\n", "rejoin = true\n", "configuration 5 rejoin\n"],
        ["z = 1\n", "", "configuration 3\n"],
    ] {
        assert_answer_behind(&rt, rt.alloc(), lines)?;
    }
    assert_answer(
        &rt,
        rt.alloc(),
        ALONE,
        "id = 1\n",
        "configuration 4 listen\n",
    );
    Ok(())
}

#[test]
fn too_many_bytes_are_refused(rt: HostRuntime) {
    let bytes = [b'\n'; 65_537];
    let answer = reread(rt.alloc(), ALONE.as_bytes(), &bytes);
    assert!(rt; matches!(answer, Err(ConfigFault::Size)));
}

#[test]
fn a_write_that_fails_is_told(rt: HostRuntime) {
    let answer = reread(rt.alloc(), ALONE.as_bytes(), ALONE.as_bytes());
    let Ok((started, read)) = answer else {
        panic!(rt; "both are configurations");
    };
    for writes in [0, 1, 2] {
        let mut page = FailingPage::new(rt.alloc(), Some(writes), None);
        let is_put = put_reloaded(&mut page, &started, &read);
        assert!(rt; !is_put, "after {writes} writes");
    }
}
