//! What a disk does of files that wait, and in which order.

use crate::tests::{assert_same, file_of};
use std::process::Abort;
use std::test::Fail;
use swim_disk::{Backlog, FILE_BYTES, FileTask, MOST_FILES, Pending};

// What a disk did of files: a letter for each task, with the number of a file that is finished.
fn done<R: Abort>(rt: &R, task: Option<FileTask>, want: &str) {
    match task {
        Some(FileTask::Make(new)) => assert_eq!(rt; want, "make", "file {}", new.stamp.life),
        Some(FileTask::Write(_)) => assert_eq!(rt; want, "write"),
        Some(FileTask::Finish(draft)) => assert_eq!(rt; want, "finish", "file {}", draft.number),
        None => assert_eq!(rt; want, "nothing"),
    }
}

#[test]
fn bytes_go_round(rt: HostRuntime) -> Result<(), Fail> {
    let mut pending = Pending::new(rt.alloc())?;
    let mut page = [0; 5];
    assert!(rt; pending.is_empty() && pending.add(b"one two"));
    assert_same(&rt, &pending.take(&mut page), &5);
    assert_same(&rt, &page, b"one t");
    assert!(rt; pending.add(b" three"));
    assert_same(&rt, &pending.take(&mut page), &5);
    assert_same(&rt, &page, b"wo th");
    pending.clear();
    assert_same(&rt, &pending.take(&mut page), &0);
    assert!(rt; pending.has_room(FILE_BYTES) && !pending.has_room(FILE_BYTES + 1));
    Ok(())
}

// It is made before it is written, and finished before the next one is made.
#[test]
fn files_are_done_in_order(rt: HostRuntime) -> Result<(), Fail> {
    let mut backlog = Backlog::new(rt.alloc())?;
    let mut page = [0; 4];
    done(&rt, backlog.next(&mut page), "nothing");
    assert!(rt; !backlog.add(b"none") && !backlog.has_room(0) && !backlog.end(false));
    assert!(rt; backlog.begin(0, file_of(0)) && !backlog.begin(1, file_of(1)));
    assert!(rt; backlog.is_current(0) && !backlog.is_current(1) && backlog.add(b"abcdef"));
    done(&rt, backlog.next(&mut page), "make");
    done(&rt, backlog.next(&mut page), "write");
    assert_same(&rt, &page, b"abcd");
    assert!(rt; backlog.end(false) && backlog.begin(1, file_of(1)));
    done(&rt, backlog.next(&mut page), "finish");
    done(&rt, backlog.next(&mut page), "make");
    done(&rt, backlog.next(&mut page), "nothing");
    Ok(())
}

// The fifth has room when the first is done with.
#[test]
fn four_files_wait(rt: HostRuntime) -> Result<(), Fail> {
    let mut backlog = Backlog::new(rt.alloc())?;
    for life in 0..4u64 {
        assert!(rt; backlog.begin(life, file_of(life)));
        assert!(rt; backlog.end(false));
    }
    assert_same(&rt, &MOST_FILES, &4);
    assert!(rt; !backlog.begin(4, file_of(4)));
    if let Some(FileTask::Finish(mut draft)) = backlog.next(&mut []) {
        assert_same(&rt, &draft.number, &0);
        assert!(rt; draft.take_new().is_some() && draft.take_new().is_none());
        backlog.give_back(draft.pending);
    }
    assert!(rt; backlog.begin(4, file_of(4)));
    Ok(())
}
