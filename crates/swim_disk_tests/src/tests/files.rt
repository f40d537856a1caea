//! What is known of files, and what people are told of them.

use crate::tests::{assert_same, file_of};
use std::io::ErrorKind;
use std::process::Abort;
use std::test::Fail;
use swim_disk::{FileEnd, FileFault, FilePath, FileSheet, FileTask, LostFile};

const FULL: FileFault = FileFault::Refused(ErrorKind::StorageFull);

// The path under which the file of a life was made.
fn path(life: u64) -> FilePath {
    file_of(life).path()
}

fn lost(life: u64, fault: FileFault) -> LostFile {
    LostFile {
        path: path(life),
        fault,
    }
}

// A life's file that was begun and made.
fn begin<R: Abort>(rt: &R, sheet: &mut FileSheet, life: u64) {
    assert!(rt; sheet.begin(file_of(life)) && sheet.is_making());
    let task = sheet.next(&mut []);
    assert!(rt; matches!(task, Some(FileTask::Make(_))));
    sheet.note(life, path(life), None);
    assert!(rt; !sheet.is_making());
}

// The oldest file that is over is done with.
fn finish<R: Abort>(rt: &R, sheet: &mut FileSheet, life: u64, fault: Option<FileFault>) {
    let Some(FileTask::Finish(draft)) = sheet.next(&mut []) else {
        assert!(rt; false, "no file is over");
        return;
    };
    assert_same(rt, &draft.number, &life);
    assert!(rt; sheet.is_unsettled());
    sheet.finish(draft, path(life), fault);
}

// Nobody is told anything more, and so many lives have no whole file.
fn must_be_told<R: Abort>(rt: &R, sheet: &mut FileSheet, cut: u64) {
    assert_same(rt, &sheet.take_lost(), &None);
    assert_same(rt, &sheet.cut, &cut);
}

#[test]
fn a_whole_file(rt: HostRuntime) -> Result<(), Fail> {
    let mut sheet = FileSheet::new(rt.alloc())?;
    assert!(rt;
        !sheet.is_ok() && !sheet.is_making() && !sheet.is_finishing() && !sheet.is_unsettled()
    );
    begin(&rt, &mut sheet, 0);
    assert!(rt; sheet.is_ok() && sheet.add(b"all").is_ok() && !sheet.is_full_for(1));
    sheet.end();
    assert!(rt; sheet.is_finishing());
    finish(&rt, &mut sheet, 0, None);
    assert!(rt; !sheet.is_finishing() && !sheet.is_unsettled());
    assert_same(&rt, &sheet.take_end(), &FileEnd::Whole);
    must_be_told(&rt, &mut sheet, 0);
    Ok(())
}

// It is told at once, and not again when its life ends.
#[test]
fn a_fault_while_its_life_lasts(rt: HostRuntime) -> Result<(), Fail> {
    let mut sheet = FileSheet::new(rt.alloc())?;
    begin(&rt, &mut sheet, 0);
    sheet.note(0, path(0), Some(FULL));
    assert!(rt; !sheet.is_ok() && sheet.add(b"more") == Err(FULL));
    assert_same(&rt, &sheet.take_lost(), &Some(lost(0, FULL)));
    sheet.end();
    assert!(rt; !sheet.is_finishing());
    assert_same(&rt, &sheet.take_end(), &FileEnd::Told);
    finish(&rt, &mut sheet, 0, Some(FULL));
    must_be_told(&rt, &mut sheet, 1);
    begin(&rt, &mut sheet, 1);
    assert!(rt; sheet.is_ok());
    Ok(())
}

// The end of its life tells it where nobody did before.
#[test]
fn a_fault_at_the_end(rt: HostRuntime) -> Result<(), Fail> {
    let mut sheet = FileSheet::new(rt.alloc())?;
    begin(&rt, &mut sheet, 0);
    sheet.end();
    assert_same(&rt, &sheet.take_end(), &FileEnd::Whole);
    finish(&rt, &mut sheet, 0, Some(FULL));
    assert_same(&rt, &sheet.take_end(), &FileEnd::Lost(lost(0, FULL)));
    assert_same(&rt, &sheet.take_end(), &FileEnd::Told);
    must_be_told(&rt, &mut sheet, 1);
    Ok(())
}

// It is told while the next life lasts, whose own file is well.
#[test]
fn a_fault_behind_the_end(rt: HostRuntime) -> Result<(), Fail> {
    let mut sheet = FileSheet::new(rt.alloc())?;
    begin(&rt, &mut sheet, 0);
    sheet.end();
    assert!(rt; sheet.begin(file_of(1)));
    sheet.note(0, path(0), Some(FULL));
    assert!(rt; sheet.is_ok() && sheet.is_making());
    finish(&rt, &mut sheet, 0, Some(FULL));
    assert!(rt; sheet.is_ok());
    assert_same(&rt, &sheet.take_lost(), &Some(lost(0, FULL)));
    must_be_told(&rt, &mut sheet, 1);
    Ok(())
}

// It is told behind the end of its life also where the next one has begun before anybody was told.
#[test]
fn a_fault_between_two_lives(rt: HostRuntime) -> Result<(), Fail> {
    let mut sheet = FileSheet::new(rt.alloc())?;
    begin(&rt, &mut sheet, 0);
    sheet.end();
    finish(&rt, &mut sheet, 0, Some(FULL));
    begin(&rt, &mut sheet, 1);
    assert_same(&rt, &sheet.take_lost(), &Some(lost(0, FULL)));
    must_be_told(&rt, &mut sheet, 1);
    Ok(())
}

#[test]
fn a_disk_that_is_too_slow(rt: HostRuntime) -> Result<(), Fail> {
    let mut sheet = FileSheet::new(rt.alloc())?;
    assert!(rt; sheet.begin(file_of(0)));
    let page = [b'a'; 65_536];
    for _page in 0..4 {
        assert!(rt; sheet.add(&page).is_ok());
    }
    assert!(rt; sheet.is_full_for(1) && sheet.add(b"a") == Err(FileFault::Slow));
    assert!(rt; !sheet.is_full_for(1) && sheet.fault() == Some(FileFault::Slow));
    sheet.note(0, path(0), Some(FULL));
    assert_same(&rt, &sheet.take_lost(), &Some(lost(0, FileFault::Slow)));
    must_be_told(&rt, &mut sheet, 1);
    Ok(())
}

// A life that begins while four files wait has none, and is counted.
#[test]
fn too_many_files(rt: HostRuntime) -> Result<(), Fail> {
    let mut sheet = FileSheet::new(rt.alloc())?;
    for life in 0..4u64 {
        assert!(rt; sheet.begin(file_of(life)));
        sheet.end();
        assert_same(&rt, &sheet.take_end(), &FileEnd::Whole);
    }
    assert!(rt; !sheet.begin(file_of(4)) && !sheet.is_ok() && !sheet.is_making());
    must_be_told(&rt, &mut sheet, 1);
    finish(&rt, &mut sheet, 0, None);
    assert!(rt; sheet.begin(file_of(5)) && sheet.is_ok());
    must_be_told(&rt, &mut sheet, 1);
    Ok(())
}
