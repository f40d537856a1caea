//! What is known of journal files: what is to be written into them, and what became of them.

ghost use Rattle.std.specs.Prelude.{◌≡◌, ◌++◌, ◌+◌, ◌<◌, ◌≤◌, ◌↔◌, ◌&&◌, ◌||◌, [], None, Some, true, false};
ghost use Rattle.std.specs.Prelude.{IfOk, IfErr, IsErr, IsTrue, IsOk, MatchBool, MatchOption, if◌then◌else◌, is_some, length, nat_lt, not};
ghost use Rattle.std.specs.Option.{option_to_list};
ghost use Rattle.swim_disk.specs.Backlogs.{TakesNext, ended, written_on};
ghost use Rattle.swim_disk.specs.Files.{IsBegun, TakesLost, counted, end_of, fault_of, finished, first_of, is_current};
ghost use Rattle.swim_disk.specs.Files.{is_finish, is_kept, is_news};
ghost use Rattle.swim_disk.specs.Files.{is_of, is_ok, is_unfinished, is_unmade, known, lost_of, news_of, noted, told};
ghost use Rattle.swim_disk.specs.Files.{untold_of, with_lost};

use crate::backlogs::{Backlog, Draft, FileTask};
use crate::file_faults::FileFault;
use crate::lost_files::{LostFile, LostFiles};
use crate::new_files::NewFile;
use crate::old_files::FilePath;
use std::alloc::{AllocError, Global};
use std::io::ErrorKind;

/// How a file ended.
#[derive(Clone, Copy, Debug, PartialEq)]
pub enum FileEnd {
    /// Nothing is missing of it, as far as is known.
    Whole,
    /// It isn't whole, and people are to be told so now.
    Lost(LostFile),
    /// It isn't whole, and people were told so.
    Told,
}

/// How the newest file stands.
#[derive(Clone, Copy)]
pub struct FileState {
    /// The number of the life whose file it is.
    pub number: u64,
    pub path: FilePath,
    /// Whether the disk is done with making it.
    pub is_made: bool,
    /// Whether the disk is done with it.
    pub is_finished: bool,
    /// Whether people were told why it isn't whole.
    pub is_told: bool,
    /// Why it isn't whole, as far as is known.
    pub fault: Option<FileFault>,
}

impl FileState {
    /// How it ended, as far as is known.
    fn end(&self) -> FileEnd
        ensures { result ≡ end_of (Some self.now) }
    {
        match (self.fault, self.is_told) {
            (None, _) => FileEnd::Whole,
            (Some(_), true) => FileEnd::Told,
            (Some(fault), false) => FileEnd::Lost(LostFile {
                path: self.path,
                fault,
            }),
        }
    }

    /// How it ended, as far as is known. From now on people know.
    fn take_end(&mut self) -> FileEnd
        ensures end { result ≡ end_of (Some self.old) }
        ensures told { self.new ≡ record self.old { is_told = is_some self.old.fault } }
    {
        let end = self.end();
        self.is_told = self.fault.is_some();
        end
    }
}

/// What is known of files.
#[derive(Drop)]
pub struct FileSheet {
    /// What is to be written.
    pub backlog: Backlog,
    /// The file of the newest life, if it has one.
    pub newest: Option<FileState>,
    /// Whether the disk is at a file that is over.
    pub is_at_hand: bool,
    /// Files of which people are to be told.
    pub lost: LostFiles,
    /// How many lives have no whole file.
    pub cut: u64,
}

impl FileSheet {
    /// No files.
    pub fn new(alloc: Global) -> Result<FileSheet, AllocError>
        ensures { IfOk result (λ sheet. (sheet.backlog.over.items ≡ []) × (sheet.backlog.current ≡ None)
            × (sheet.newest ≡ None) × (sheet.lost.files.items ≡ []) × (sheet.cut ≡ 0)) }
    {
        Ok(FileSheet {
            backlog: Backlog::new(alloc)?,
            newest: None,
            is_at_hand: false,
            lost: LostFiles::new(),
            cut: 0,
        })
    }

    /// Begins the file of the next life. `false` where too many wait: then that life has none, which is counted.
    pub fn begin(&mut self, new: NewFile) -> bool
        ensures newest { MatchBool result (IsBegun new self.new.newest) (self.new.newest ≡ None) }
        ensures lost { self.new.lost.files.items ≡ with_lost (untold_of self.old.newest) self.old.lost.files.items }
        ensures cut { self.new.cut ≡ counted (not result) self.old.cut }
        ensures over { self.new.backlog.over.items ≡ self.old.backlog.over.items }
        ensures full { result ≡ false → self.new.backlog.current ≡ self.old.backlog.current }
        ensures room { self.old.backlog.current ≡ None → 0 < length self.old.backlog.spare.items → result ≡ true }
    {
        let untold = self.untold();
        self.lost.add(untold);
        let state = FileState {
            number: new.stamp.life,
            path: new.path(),
            is_made: false,
            is_finished: false,
            is_told: false,
            fault: None,
        };
        let is_begun = self.backlog.begin(new.stamp.life, new);
        if is_begun {
            self.newest = Some(state);
        } else {
            self.newest = None;
            self.count();
        }
        is_begun
    }

    /// Whether the disk has yet to make the newest file.
    pub fn is_making(&self) -> bool
        ensures { result ≡ is_unmade self.now.newest }
    {
        match &self.newest {
            Some(newest) => !newest.is_made,
            None => false,
        }
    }

    /// Whether the disk may yet write all that is left of the newest file.
    pub fn is_finishing(&self) -> bool
        ensures { result ≡ is_unfinished self.now.newest }
    {
        match &self.newest {
            Some(newest) => !(newest.is_finished || newest.fault.is_some()),
            None => false,
        }
    }

    /// Whether the disk isn't done with all files that are over.
    pub fn is_unsettled(&self) -> bool
        ensures { result ≡ false → (self.now.is_at_hand ≡ false) × (self.now.backlog.over.items ≡ []) }
    {
        self.is_at_hand || !self.backlog.over.is_empty()
    }

    /// Whether the newest file is to get so many bytes for which there is no room yet.
    pub fn is_full_for(&self, count: usize) -> bool
        ensures whole { IsTrue result → fault_of self.now.newest ≡ None }
        ensures room { fault_of self.now.newest ≡ None → MatchOption self.now.backlog.current (result ≡ true)
            (λ draft. result ≡ false ↔ (length draft.pending + count ≤ 262144)) }
    {
        self.fault().is_none() && !self.backlog.has_room(count)
    }

    /// Why the newest file isn't whole, as far as is known.
    pub fn fault(&self) -> Option<FileFault>
        ensures { result ≡ fault_of self.now.newest }
    {
        match &self.newest {
            Some(newest) => newest.fault,
            None => None,
        }
    }

    /// Whether the newest life has a file, of which nothing is missing as far as is known.
    pub fn is_ok(&self) -> bool
        ensures { result ≡ is_ok self.now.newest }
    {
        match &self.newest {
            Some(newest) => newest.fault.is_none(),
            None => false,
        }
    }

    /// Adds a text to the newest file: all of it, or nothing. `Err` where it isn't whole, or isn't from now on, as there is
    /// no room for the text.
    pub fn add(&mut self, text: &[u8]) -> Result<(), FileFault>
        ensures over { self.new.backlog.over.items ≡ self.old.backlog.over.items }
        ensures ok { IfOk result (λ done. (self.new.backlog.current ≡ written_on text.now self.old.backlog.current)
            × (fault_of self.old.newest ≡ None) × (self.new.newest ≡ self.old.newest) × (self.new.cut ≡ self.old.cut)) }
        ensures err { IfErr result (λ fault. (self.new.backlog.current ≡ self.old.backlog.current)
            × (first_of (fault_of self.old.newest) (Some FileFault.Slow) ≡ Some fault)
            × (self.new.newest ≡ known (Some FileFault.Slow) self.old.newest)
            × (self.new.cut ≡ counted (is_ok self.old.newest) self.old.cut)) }
        ensures room { fault_of self.old.newest ≡ None → MatchOption self.old.backlog.current (IsErr result)
            (λ draft. IsOk result ↔ (length draft.pending + length text.now ≤ 262144)) }
        ensures lost { self.new.lost.files.items ≡ self.old.lost.files.items }
    {
        if let Some(fault) = self.fault() {
            return Err(fault);
        }
        if self.backlog.add(text) {
            return Ok(());
        }
        self.know(FileFault::Slow);
        Err(FileFault::Slow)
    }

    /// Ends the newest file. What is left of it is still to be written.
    pub fn end(&mut self)
        ensures current { self.new.backlog.current ≡ None }
        ensures over { is_kept self.old.backlog ≡ true → (self.new.newest ≡ self.old.newest) × (self.new.backlog.over.items
            ≡ self.old.backlog.over.items ++ option_to_list (ended (is_some (fault_of self.old.newest)) self.old.backlog.current)) }
        ensures forgotten { is_kept self.old.backlog ≡ false → self.new.newest
            ≡ known (Some (FileFault.Refused ErrorKind.OutOfMemory)) self.old.newest }
        ensures cut { self.new.cut ≡ counted (is_ok self.old.newest && not (is_kept self.old.backlog)) self.old.cut }
        ensures lost { self.new.lost.files.items ≡ self.old.lost.files.items }
    {
        let is_told = self.fault().is_some();
        if !self.backlog.end(is_told) {
            self.know(FileFault::Refused(ErrorKind::OutOfMemory));
        }
    }

    /// How the newest file ended, as far as is known. Of a file that isn't whole people are told once.
    pub fn take_end(&mut self) -> FileEnd
        ensures end { result ≡ end_of self.old.newest }
        ensures newest { self.new.newest ≡ told self.old.newest }
        ensures rest { self.new ≡ record self.old { newest = self.new.newest } }
    {
        match &mut self.newest {
            Some(newest) => newest.take_end(),
            None => FileEnd::Whole,
        }
    }

    /// Takes a file of which people are to be told.
    pub fn take_lost(&mut self) -> Option<LostFile>
        ensures lost { TakesLost self.old.lost.files.items self.old.newest result self.new.lost.files.items
            self.new.newest }
        ensures rest { (self.new.backlog ≡ self.old.backlog) × (self.new.cut ≡ self.old.cut) }
    {
        if let Some(lost) = self.lost.take() {
            return Some(lost);
        }
        match self.take_end() {
            FileEnd::Lost(lost) => Some(lost),
            FileEnd::Whole | FileEnd::Told => None,
        }
    }

    /// What is to be done next. The bytes are laid onto the page.
    pub fn next(&mut self, page: &mut [u8]) -> Option<FileTask>
        ensures next { TakesNext self.old.backlog.over.items self.old.backlog.current page.new result
            self.new.backlog.over.items self.new.backlog.current }
        ensures rest { (self.new.newest ≡ self.old.newest) × (self.new.lost ≡ self.old.lost)
            × (self.new.cut ≡ self.old.cut) }
        ensures at_hand { self.new.is_at_hand ≡ (self.old.is_at_hand || is_finish result) }
    {
        let task = self.backlog.next(page);
        self.is_at_hand = self.is_at_hand || matches!(task, Some(FileTask::Finish(_)));
        task
    }

    /// Notes how the file of that number stands, as long as it is written on: it was made, at this path, or it wasn't, or
    /// not all was written into it.
    pub fn note(&mut self, number: u64, path: FilePath, fault: Option<FileFault>)
        ensures newest { self.new.newest ≡ (if is_current number self.old.backlog.current
            then noted path fault self.old.newest else self.old.newest) }
        ensures cut { self.new.cut ≡ counted (is_current number self.old.backlog.current && (is_ok self.old.newest
            && is_some fault)) self.old.cut }
        ensures rest { (self.new.backlog ≡ self.old.backlog) × (self.new.lost ≡ self.old.lost) }
    {
        if !self.backlog.is_current(number) {
            return;
        }
        if let Some(newest) = &mut self.newest {
            newest.path = path;
            newest.is_made = true;
        }
        if let Some(fault) = fault {
            self.know(fault);
        }
    }

    /// Notes that the disk is done with a file that was over.
    pub fn finish(&mut self, draft: Draft, path: FilePath, fault: Option<FileFault>)
        ensures newest { self.new.newest ≡ (if is_of draft.number self.old.newest
            then finished path (news_of draft fault) self.old.newest else self.old.newest) }
        ensures lost { self.new.lost.files.items ≡ (if is_of draft.number self.old.newest
            then self.old.lost.files.items else with_lost (lost_of path (news_of draft fault)) self.old.lost.files.items) }
        ensures cut { self.new.cut ≡ counted (is_news (is_of draft.number self.old.newest) self.old.newest
            (news_of draft fault)) self.old.cut }
        ensures over { self.new.backlog.over.items ≡ self.old.backlog.over.items }
        ensures current { self.new.backlog.current ≡ self.old.backlog.current }
        ensures at_hand { self.new.is_at_hand ≡ false }
    {
        let (number, is_told) = (draft.number, draft.is_told);
        self.is_at_hand = false;
        self.backlog.give_back(draft.pending);
        let news = if is_told { None } else { fault };
        if self.finish_newest(number, path) {
            self.know_news(news);
        } else {
            self.lose(path, news);
        }
    }

    /// Notes that the disk is done with the newest file, if it is of that number, which is answered.
    fn finish_newest(&mut self, number: u64, path: FilePath) -> bool
        ensures is { result ≡ is_of number self.old.newest }
        ensures newest { self.new ≡ record self.old {
          newest = (if result then finished path None self.old.newest
              else self.old.newest);
        } }
    {
        match &mut self.newest {
            Some(newest) if newest.number == number => {
                newest.path = path;
                newest.is_finished = true;
                true
            }
            _ => false,
        }
    }

    /// The newest file isn't whole for this reason, if there is one.
    fn know_news(&mut self, news: Option<FileFault>)
        ensures { self.new ≡ record self.old {
          newest = known news self.old.newest;
          cut = counted (is_ok self.old.newest && is_some news) self.old.cut;
        } }
    {
        if let Some(fault) = news {
            self.know(fault);
        }
    }

    /// The newest file isn't whole for this reason. The first one counts.
    fn know(&mut self, fault: FileFault)
        ensures { self.new ≡ record self.old {
          newest = known (Some fault) self.old.newest;
          cut = counted (is_ok self.old.newest) self.old.cut;
        } }
    {
        let is_news = self.is_ok();
        if let Some(newest) = &mut self.newest {
            newest.fault = newest.fault.or(Some(fault));
        }
        if is_news {
            self.count();
        }
    }

    /// A file of an earlier life isn't whole for this reason, if there is one.
    fn lose(&mut self, path: FilePath, news: Option<FileFault>)
        ensures cut { self.new ≡ record self.old { lost = self.new.lost; cut = counted (is_some news) self.old.cut } }
        ensures lost { self.new.lost.files.items ≡ with_lost (lost_of path news) self.old.lost.files.items }
    {
        if let Some(fault) = news {
            self.lost.add(Some(LostFile { path, fault }));
            self.count();
        }
    }

    /// What people are yet to be told of the newest file.
    fn untold(&self) -> Option<LostFile>
        ensures { result ≡ untold_of self.now.newest }
    {
        match self.newest.as_ref()?.end() {
            FileEnd::Lost(lost) => Some(lost),
            FileEnd::Whole | FileEnd::Told => None,
        }
    }

    /// Counts a life without a whole file.
    fn count(&mut self)
        ensures { self.new ≡ record self.old { cut = counted true self.old.cut } }
    {
        self.cut = self.cut.saturating_add(1);
    }
}
