//! The folder of the journal files, one for each life of a daemon.

ghost use Rattle.std.specs.Prelude.{◌≡◌, Some, [], true, IfOk};
ghost use Rattle.swim_journal.specs.Comments.{without_comments};
ghost use Rattle.swim_telling.specs.Notices.{Notices};

use crate::clerks::Clerk;
use crate::counters::Counters;
use crate::file_faults::words_for;
use std::alloc::{AllocError, Global};
use std::fs::File;
use std::net::Net;
use std::rt::{Clock, Files};
use std::sync::{Arc, Wait};
use swim_config::JournalFiles;
use swim_disk::{DirPath, FileEnd, LostFile, NewFile, Stamp};
use swim_notices::Notice;
use swim_outcomes::VERSION;
use swim_recorder::Shelf;
use swim_text::Sink;
use swim_trail::Trail;
use swim_wire::Id;
use swim_writer::{Begun, DiskDesk, HeldText, JournalFile};

/// The folder in which a daemon has a file made for each of its lives, if it does: by whoever serves its desk, so that no
/// life waits for a disk longer than a moment. What fails is told among the notices. A contract sees for which lives it
/// was asked for files, and those that it took back: what each of them took, and what its desk took of that.
#[derive(Drop)]
pub struct Folder<'r, R> {
    rt: &'r R,
    alloc: Global,
    files: JournalFiles,
    me: Id,
    began: u64,
    desk: Arc<DiskDesk, Global>,
    counters: &'r Counters,
    // How many lives had no file, as too many waited.
    unfiled: u64,
    // The numbers of the lives for which it was asked for files.
    opened: Trail<u64>,
    // The files that it took back, and whether they are kept.
    filed: Trail<(u64, bool, HeldText)>,
}

impl<'r, R: Net + Clock + Wait> Folder<'r, R> {
    /// The folder of this member's files, whose daemon began so many seconds after 1970, with the clerk's desk. Where
    /// files are made, their memory is taken here. They have the remarks that stand among the counters. It was asked
    /// for no file yet, and took none back.
    pub fn open<G: Clerk>(
        rt: &'r R,
        alloc: Global,
        files: JournalFiles,
        me: Id,
        began: u64,
        clerk: &G,
        counters: &'r Counters,
    ) -> Result<Folder<'r, R>, AllocError>
        ensures opened { IfOk result (λ folder. folder.opened.items ≡ []) }
        ensures filed { IfOk result (λ folder. folder.filed.items ≡ []) }
    {
        let desk = clerk.desk()?;
        if files.dir.is_some() {
            desk.open_files(rt, alloc)?;
        }
        Ok(Folder {
            rt,
            alloc,
            files,
            me,
            began,
            desk,
            counters,
            unfiled: 0,
            opened: Trail::new(),
            filed: Trail::new(),
        })
    }

    /// The file of the life of this number, where lives have files.
    fn file_of(&self, number: u64) -> Option<NewFile> {
        let mut dir = DirPath::new();
        let _is_whole = dir.try_push_str(self.files.dir.as_ref()?.as_str());
        Some(NewFile {
            dir,
            me: self.me,
            stamp: Stamp {
                began: self.began,
                life: number,
            },
            keep: self.files.keep,
        })
    }

    /// Tells of a file that isn't whole.
    #[tactic(auto, using(swim_telling::specs::Notices::no_notices))]
    fn tell_lost<F: Sink>(&self, lost: &LostFile, notices: &mut F)
        ensures { Notices (F.written notices.old, F.failures notices.old)
            (F.written notices.new, F.failures notices.new) }
    {
        let notice = Notice::unwritten(self.rt, lost.path.as_str(), words_for(lost.fault));
        notice.tell_notice(self.rt, self.alloc, notices);
    }

    /// Begins the file of a life, and tells where there is none.
    #[tactic(auto, using(swim_telling::specs::Notices::no_notices))]
    fn begin<F: Sink>(&mut self, new: NewFile, notices: &mut F) -> JournalFile<'r, R>
        ensures fresh { result.text.taken ≡ [] }
        ensures opened { self.new.opened ≡ self.old.opened }
        ensures filed { self.new.filed ≡ self.old.filed }
        ensures notices { Notices (F.written notices.old, F.failures notices.old)
            (F.written notices.new, F.failures notices.new) }
    {
        let Ok(desk) = Arc::try_clone(&self.desk) else {
            return self.file(None);
        };
        match desk.begin(self.rt, new) {
            Begun::Going => self.file(Some(desk)),
            Begun::Refused => {
                self.end_newest(notices);
                self.file(None)
            }
            Begun::TooMany => {
                self.unfiled = self.unfiled.saturating_add(1);
                let notice = Notice::unfiled(self.rt, new.path().as_str(), self.unfiled);
                notice.tell_notice(self.rt, self.alloc, notices);
                self.file(None)
            }
        }
    }

    /// The file that the desk has begun; without a desk, one that takes nothing.
    fn file(&self, desk: Option<Arc<DiskDesk, Global>>) -> JournalFile<'r, R>
        ensures { result.text.taken ≡ [] }
    {
        let remarks = &self.counters.remarks;
        JournalFile::new(self.rt, remarks, VERSION, self.files.unit, desk)
    }

    /// Ends the newest file, and answers whether it is whole. Where it isn't, and nobody was told yet, it is told.
    #[tactic(auto, using(swim_telling::specs::Notices::no_notices))]
    fn end_newest<F: Sink>(&self, notices: &mut F) -> bool
        ensures { Notices (F.written notices.old, F.failures notices.old)
            (F.written notices.new, F.failures notices.new) }
    {
        match self.desk.end(self.rt) {
            FileEnd::Whole => true,
            FileEnd::Lost(lost) => {
                self.tell_lost(&lost, notices);
                false
            }
            FileEnd::Told => false,
        }
    }

    /// Ends a file. Whether its disk was handed all of it, and nobody knows yet that it isn't kept.
    #[tactic(auto, using(swim_telling::specs::Notices::no_notices))]
    fn end<F: Sink>(&self, file: &mut JournalFile<'r, R>, notices: &mut F) -> bool
        ensures taken { file.new.text.taken ≡ file.old.text.taken }
        ensures same { result ≡ true →
            without_comments file.new.text.handed ≡ without_comments file.new.text.taken }
        ensures notices { Notices (F.written notices.old, F.failures notices.old)
            (F.written notices.new, F.failures notices.new) }
    {
        if !file.is_begun() {
            return false;
        }
        let is_taken = file.finish();
        let is_whole = self.end_newest(notices);
        is_taken && is_whole
    }
}

impl<'r, R: Files<File = File> + Net + Clock + Wait> Shelf<JournalFile<'r, R>> for Folder<'r, R> {
    ghost use Rattle.std.specs.Prelude.{map};
    ghost use Rattle.swim_trail.specs.Noted.{value_in};
    ghost use Rattle.swim_reports.specs.Folders.{filed_in};

    ghost fresh = { Some [] };

    ghost opened = { λ s. Some (map value_in s.opened.items) };

    ghost filed = { λ s. Some (map filed_in s.filed.items) };

    #[tactic(auto, using(swim_telling::specs::Notices::no_notices, swim_trail::specs::Noted::map_more))]
    fn open<F: Sink>(&mut self, number: u64, notices: &mut F) -> Option<JournalFile<'r, R>> {
        self.opened.note(&number, b"");
        let new = self.file_of(number)?;
        Some(self.begin(new, notices))
    }

    #[tactic(auto, using(crate::specs::Folders::back_more))]
    fn close<F: Sink>(&mut self, number: u64, sink: JournalFile<'r, R>, notices: &mut F) -> bool {
        let mut file = sink;
        let is_kept = self.end(&mut file, notices);
        self.filed.note(&(number, is_kept, file.into_text()), b"");
        is_kept
    }
}
