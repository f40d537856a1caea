//! Files that wait for a disk.

ghost use Rattle.std.specs.Prelude.{◌≡◌, ◌+◌, ◌++◌, ◌∷◌, ◌<◌, ◌≤◌, ◌↔◌, [], Some, None, false, true, drop, length, min, take};
ghost use Rattle.std.specs.Prelude.{IfNone, IfOk, IsTrue, MatchBool, MatchOption, if◌then◌else◌};
ghost use Rattle.std.specs.Option.{option_to_list};
ghost use Rattle.swim_disk.specs.Files.{is_current, is_kept};
ghost use Rattle.swim_disk.specs.Backlogs.{TakesNext, ended, made, to_make, waiting, with_left, written_on};

use crate::new_files::NewFile;
use crate::pending::{FILE_BYTES, Pending};
use circular_buffer::HeapCircularBuffer;
use std::alloc::{AllocError, Global};
use std::mem;

/// How many files may wait for a disk, the one that is still written on among them.
pub const MOST_FILES: usize = 4;

/// A file that waits for a disk.
#[derive(Drop)]
pub struct Draft {
    /// The number of the life whose file it is.
    pub number: u64,
    /// What is to be made. `None` once that was taken.
    pub unmade: Option<NewFile>,
    /// What is to be written into it.
    pub pending: Pending,
    /// Whether people were told why it isn't whole.
    pub is_told: bool,
}

/// Files that wait for a disk: those that are over, oldest first, and the one that is still written on. The memory of
/// all is taken once.
#[derive(Drop)]
pub struct Backlog {
    /// Those that are over.
    pub over: HeapCircularBuffer<Draft>,
    /// The one that is written on.
    pub current: Option<Draft>,
    /// Room for more files.
    pub spare: HeapCircularBuffer<Pending>,
}

/// What a disk has to do next.
#[derive(Drop)]
pub enum FileTask {
    /// To make the file that is written on.
    Make(NewFile),
    /// To write so many bytes of a page into it.
    Write(usize),
    /// To write what is left of a file that is over, and to have the system keep it.
    Finish(Draft),
}

impl Draft {
    /// What is to be made, once.
    pub fn take_new(&mut self) -> Option<NewFile>
        ensures unmade { result ≡ self.old.unmade }
        ensures rest { self.new ≡ record self.old { unmade = None } }
    {
        mem::replace(&mut self.unmade, None)
    }
}

impl Backlog {
    /// No files.
    pub fn new(alloc: Global) -> Result<Backlog, AllocError>
        ensures { IfOk result (λ backlog. (backlog.over.items ≡ []) × (backlog.current ≡ None)
            × (length backlog.spare.items ≡ 4) × (backlog.spare.capacity ≡ 4) × (backlog.over.capacity ≡ 4)) }
    {
        let mut spare = HeapCircularBuffer::with_capacity(alloc, MOST_FILES)?;
        for _file in 0..MOST_FILES {
            let _is_there = spare.try_push_back(Pending::new(alloc)?);
        }
        Ok(Backlog {
            over: HeapCircularBuffer::with_capacity(alloc, MOST_FILES)?,
            current: None,
            spare,
        })
    }

    /// Begins a file for the life of this number. `false` where one is written on, or as many wait as may.
    pub fn begin(&mut self, number: u64, new: NewFile) -> bool
        ensures over { self.new.over.items ≡ self.old.over.items }
        ensures current { MatchBool result
            ((self.old.current ≡ None)
            × (self.new.current ≡ Some (record { number = number; unmade = Some new; pending = []; is_told = false })))
            (self.new.current ≡ self.old.current) }
        ensures room { self.old.current ≡ None → 0 < length self.old.spare.items → result ≡ true }
        ensures spare { self.new.spare.items ≡ (if result then drop 1 self.old.spare.items else self.old.spare.items) }
    {
        if self.current.is_some() {
            return false;
        }
        let Some(mut pending) = self.spare.pop_front() else {
            return false;
        };
        pending.clear();
        self.current = Some(Draft {
            number,
            unmade: Some(new),
            pending,
            is_told: false,
        });
        true
    }

    /// Whether there is room for so many bytes more of the file that is written on.
    pub fn has_room(&self, count: usize) -> bool
        ensures { MatchOption self.now.current (result ≡ false)
            (λ draft. IsTrue result ↔ (length draft.pending + count ≤ FILE_BYTES)) }
    {
        match &self.current {
            Some(draft) => draft.pending.has_room(count),
            None => false,
        }
    }

    /// Adds a text to the file that is written on: all of it, or nothing.
    pub fn add(&mut self, text: &[u8]) -> bool
        ensures over { self.new.over.items ≡ self.old.over.items }
        ensures current { self.new.current
            ≡ (if result then written_on text.now self.old.current else self.old.current) }
        ensures room { MatchOption self.old.current (result ≡ false)
            (λ draft. IsTrue result ↔ (length draft.pending + length text.now ≤ FILE_BYTES)) }
    {
        match &mut self.current {
            Some(draft) => draft.pending.add(text),
            None => false,
        }
    }

    /// Takes what the disk has to do next. Bytes are laid onto the page.
    pub fn next(&mut self, page: &mut [u8]) -> Option<FileTask>
        ensures { TakesNext self.old.over.items self.old.current page.new result self.new.over.items self.new.current }
    {
        if let Some(draft) = self.take_over() {
            return Some(FileTask::Finish(draft));
        }
        if let Some(new) = self.take_new() {
            return Some(FileTask::Make(new));
        }
        match self.take_bytes(page) {
            0 => None,
            count => Some(FileTask::Write(count)),
        }
    }

    /// What is to be made of the file that is written on, once.
    fn take_new(&mut self) -> Option<NewFile>
        ensures new { result ≡ to_make self.old.current }
        ensures over { self.new.over.items ≡ self.old.over.items }
        ensures current { self.new.current ≡ made self.old.current }
    {
        match &mut self.current {
            Some(draft) => draft.take_new(),
            None => None,
        }
    }

    /// Takes the first bytes of the file that is written on, as many as the page holds, and answers how many these are.
    fn take_bytes(&mut self, page: &mut [u8]) -> usize
        ensures over { self.new.over.items ≡ self.old.over.items }
        ensures current { self.new.current ≡ with_left (waiting self.new.current) self.old.current }
        ensures count { result ≡ min (length page.old) (length (waiting self.old.current)) }
        ensures bytes { waiting self.old.current ≡ take result page.new ++ waiting self.new.current }
        ensures page { length page.new ≡ length page.old }
    {
        match &mut self.current {
            Some(draft) => draft.pending.take(page),
            None => 0,
        }
    }

    /// Whether the file of that number is written on.
    pub fn is_current(&self, number: u64) -> bool
        ensures { result ≡ is_current number self.now.current }
    {
        match &self.current {
            Some(draft) => draft.number == number,
            None => false,
        }
    }

    /// Ends the file that is written on: it is the last of those that are over. `false` where there is none, or no room
    /// for it, and then it is forgotten.
    pub fn end(&mut self, is_told: bool) -> bool
        ensures kept { result ≡ is_kept self.old }
        ensures current { self.new.current ≡ None }
        ensures over { self.new.over.items ≡ (if result then self.old.over.items
            ++ option_to_list (ended is_told self.old.current) else self.old.over.items) }
        ensures rest { (self.new.spare ≡ self.old.spare) × (self.new.over.capacity ≡ self.old.over.capacity) }
    {
        let Some(mut draft) = mem::replace(&mut self.current, None) else {
            return false;
        };
        draft.is_told = is_told;
        self.over.try_push_back(draft).is_ok()
    }

    /// Takes the oldest of the files that are over.
    fn take_over(&mut self) -> Option<Draft>
        ensures over { self.old.over.items ≡ option_to_list result ++ self.new.over.items }
        ensures none { IfNone result (self.old.over.items ≡ []) }
        ensures current { self.new.current ≡ self.old.current }
    {
        self.over.pop_front()
    }

    /// Has room for a file more, where this was the room of one.
    pub fn give_back(&mut self, pending: Pending)
        ensures spare { length self.old.spare.items < self.old.spare.capacity → self.new.spare.items
            ≡ self.old.spare.items ++ pending ∷ [] }
        ensures over { self.new.over.items ≡ self.old.over.items }
        ensures current { self.new.current ≡ self.old.current }
    {
        let _is_back = self.spare.try_push_back(pending);
    }
}
