//! How files are named, and which life is older.

use crate::tests::{file_of, me};
use std::test::Fail;
use swim_disk::{Journaled, Stamp, journals_in, judged_in, path_of};
use swim_wire::Id;

#[test]
fn a_file_is_named_by_its_life(rt: HostRuntime) {
    let path = file_of(12).path();
    assert!(rt; path.as_str() == "/d/7-1795614412-12.swim");
    let most = Stamp {
        began: u64::MAX,
        life: u64::MAX,
    };
    let last = Id::new(u32::MAX).unwrap_or_default();
    let path = path_of("", last, most);
    assert!(rt; path.as_str() == "/4294967295-18446744073709551615-18446744073709551615.swim");
    assert!(rt; path_of("/d", me(), file_of(12).stamp).as_str() == "/d/7-1795614412-12.swim");
}

// By the second of its daemon's start, and then by its number.
#[test]
fn an_older_life_is_less(rt: HostRuntime) {
    let stamp = |began, life| Stamp { began, life };
    assert!(rt; stamp(100, 0) < stamp(100, 1));
    assert!(rt; stamp(100, 2) < stamp(100, 10));
    assert!(rt; stamp(100, 10) < stamp(200, 0));
    assert!(rt; stamp(200, 0) < stamp(1_000, 0));
}

// One of another member stands beside it, and that of the older life is less, whoever wrote it.
#[test]
fn the_older_of_two_files_is_less(rt: HostRuntime) {
    let file = |began, life, member| Journaled {
        stamp: Stamp { began, life },
        member,
    };
    let other = Id::new(1).unwrap_or_default();
    assert!(rt; file(100, 0, me()) < file(100, 1, other));
    assert!(rt; file(100, 0, other) < file(100, 0, me()));
}

#[test]
fn a_folder_has_one_of_verdicts(rt: HostRuntime) {
    assert!(rt; judged_in("/d").as_str() == "/d/judged");
}

#[test]
fn a_folder_that_is_not_there_has_no_files(rt: HostRuntime) -> Result<(), Fail> {
    let files = journals_in(&rt, rt.alloc(), "/no/such/folder")?;
    assert!(rt; files.is_empty());
    Ok(())
}
