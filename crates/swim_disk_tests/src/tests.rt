mod backlogs;
mod files;
mod names;
mod verdicts;

use std::fmt::Debug;
use std::process::Abort;
use swim_disk::{DirPath, NewFile, Stamp};
use swim_wire::Id;

// The two are the same. A call of this is proved at once, and an `assert_eq!` in some seconds.
fn assert_same<T: PartialEq + Debug, R: Abort>(rt: &R, left: &T, right: &T) {
    assert_eq!(rt; *left, *right);
}

// Member 7.
fn me() -> Id {
    Id::new(7).unwrap_or_default()
}

// The file of this life of member 7, whose daemon began at second 1795614412, in /d, where all files stay.
fn file_of(life: u64) -> NewFile {
    let mut dir = DirPath::new();
    let _is_whole = dir.try_push_str("/d");
    NewFile {
        dir,
        me: me(),
        stamp: Stamp {
            began: 1_795_614_412,
            life,
        },
        keep: 0,
    }
}
