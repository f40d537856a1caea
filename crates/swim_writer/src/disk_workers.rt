//! The thread that alone waits for the disk of journal files: it makes, writes and keeps them.

ghost use Rattle.std.specs.Prelude.{◌≡◌, Some};

use crate::disk_desks::DiskDesk;
use crate::disk_sheets::Task;
use std::alloc::Global;
use std::fs::{File, OpenFile};
use std::io::Write;
use std::rt::{Clock, Files};
use std::sync::Wait;
use swim_disk::{Draft, FILE_BYTES, FileFault, FilePath, FileTask, NewFile, VerdictSearch};

/// How many bytes are written at a time at most.
const PAGE_BYTES: usize = 4_096;

/// How many pages a file that is over has at most, and one more, which is empty.
const PAGES: usize = FILE_BYTES / PAGE_BYTES + 1;

/// The journal file that is open, if one is.
#[derive(Drop)]
struct OpenJournal {
    // When the files' daemon began, by their names.
    began: u64,
    number: u64,
    path: FilePath,
    file: Option<File>,
    fault: Option<FileFault>,
    verdicts: VerdictSearch,
    // As what it is named once more when a member was judged. `None` once it is.
    unjudged: Option<NewFile>,
}

impl OpenJournal {
    /// None was opened yet.
    fn new() -> OpenJournal {
        OpenJournal {
            began: 0,
            number: 0,
            path: FilePath::new(),
            file: None,
            fault: None,
            verdicts: VerdictSearch::new(),
            unjudged: None,
        }
    }

    /// Makes a file, which is answered as it is named. Where the last one is named by a later second, so is this one.
    fn made<R: Files<File = File>>(&mut self, rt: &R, new: NewFile) -> NewFile {
        let mut new = new;
        new.stamp.began = new.stamp.began.max(self.began);
        self.fault = None;
        self.verdicts = VerdictSearch::new();
        self.unjudged = None;
        match new.make(rt) {
            Ok(file) => {
                self.began = new.stamp.began;
                self.file = Some(file);
                self.unjudged = Some(new);
            }
            Err(fault) => self.give_up(FileFault::Refused(fault.kind())),
        }
        self.number = new.stamp.life;
        self.path = new.path();
        new
    }

    /// Removes the files that are too many beside the one that was made, if it was.
    fn remove_old<R: Files<File = File>>(&self, rt: &R, alloc: Global, new: &NewFile) {
        if self.fault.is_none() {
            new.remove_old(rt, alloc);
        }
    }

    /// Lets go of the file for this reason.
    fn give_up(&mut self, fault: FileFault)
        ensures fault { self.new.fault ≡ Some fault }
    {
        self.fault = Some(fault);
        self.file = None;
    }

    /// Writes a text, as long as the system took all before it.
    fn write(&mut self, text: &[u8])
        ensures stays { (fault : FileFault) → self.old.fault ≡ Some fault → self.new.fault ≡ Some fault }
    {
        if self.fault.is_some() {
            return;
        }
        let Some(file) = &mut self.file else {
            return;
        };
        match file.write_all(text) {
            Ok(()) => self.verdicts.read(text),
            Err(fault) => self.give_up(FileFault::Refused(fault.kind())),
        }
    }

    /// Gives the file its second name, once a verdict is written into it.
    fn keep_judged<R: Files<File = File>>(&mut self, rt: &R, alloc: Global)
        ensures fault { self.new.fault ≡ self.old.fault }
    {
        if !self.verdicts.is_found() {
            return;
        }
        if let Some(new) = self.unjudged.take() {
            new.keep_judged(rt, alloc);
        }
    }

    /// Has the system keep the file for good, and closes it.
    fn keep(&mut self)
        ensures stays { (fault : FileFault) → self.old.fault ≡ Some fault → self.new.fault ≡ Some fault }
    {
        if self.fault.is_some() {
            return;
        }
        let Some(file) = &self.file else {
            return;
        };
        match file.sync_data() {
            Ok(()) => self.file = None,
            Err(fault) => self.give_up(FileFault::Refused(fault.kind())),
        }
    }

    /// Writes all that is left of a file.
    fn write_rest(&mut self, draft: &mut Draft, page: &mut [u8]) {
        for _page in 0..PAGES {
            let count = draft.pending.take(page);
            if count == 0 {
                return;
            }
            self.write(&page[..count]);
        }
    }
}

/// Does what is laid on the desk, until it is closed and all is done.
pub fn serve_disk<R: Files<File = File> + Clock + Wait>(rt: &R, alloc: Global, desk: &DiskDesk) {
    let mut open = OpenJournal::new();
    let mut page = [0; PAGE_BYTES];
    for _turn in rt.forever() {
        match desk.take(rt, &mut page) {
            Task::File(task) => serve_file(rt, alloc, desk, &mut open, task, &mut page),
            Task::End => return,
        }
    }
}

/// Does something for a journal file.
fn serve_file<R: Files<File = File> + Clock + Wait>(
    rt: &R,
    alloc: Global,
    desk: &DiskDesk,
    open: &mut OpenJournal,
    task: FileTask,
    page: &mut [u8],
) {
    match task {
        FileTask::Make(new) => {
            let new = open.made(rt, new);
            desk.note(rt, open.number, open.path, open.fault);
            open.remove_old(rt, alloc, &new);
        }
        FileTask::Write(count) => {
            open.write(&page[..count.min(page.len())]);
            desk.note(rt, open.number, open.path, open.fault);
            open.keep_judged(rt, alloc);
        }
        FileTask::Finish(draft) => finish_file(rt, alloc, desk, open, draft, page),
    }
}

/// Writes what is left of a file, and has the system keep it.
fn finish_file<R: Files<File = File> + Clock + Wait>(
    rt: &R,
    alloc: Global,
    desk: &DiskDesk,
    open: &mut OpenJournal,
    draft: Draft,
    page: &mut [u8],
) {
    let mut draft = draft;
    if let Some(new) = draft.take_new() {
        let new = open.made(rt, new);
        open.remove_old(rt, alloc, &new);
    }
    open.write_rest(&mut draft, page);
    open.keep();
    open.keep_judged(rt, alloc);
    desk.note_end(rt, draft, open.path, open.fault);
}
