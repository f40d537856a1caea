//! Journal files that aren't whole, of which people are to be told.

ghost use Rattle.std.specs.Prelude.{◌≡◌, ◌++◌, []};
ghost use Rattle.std.specs.Option.{option_to_list};
ghost use Rattle.swim_disk.specs.Files.{with_lost};

use crate::backlogs::MOST_FILES;
use crate::file_faults::FileFault;
use crate::old_files::FilePath;
use arrayvec::ArrayVec;

/// A file that isn't whole.
#[derive(Clone, Copy, Debug, PartialEq)]
pub struct LostFile {
    pub path: FilePath,
    pub fault: FileFault,
}

// What stands in a list where there is room for more.
impl Default for LostFile {
    fn default() -> LostFile {
        LostFile {
            path: FilePath::new(),
            fault: FileFault::Slow,
        }
    }
}

/// Files that aren't whole, of which people are to be told, oldest first.
#[derive(Drop)]
pub struct LostFiles {
    pub files: ArrayVec<LostFile, MOST_FILES>,
}

impl LostFiles {
    /// None.
    pub fn new() -> LostFiles
        ensures { result.files.items ≡ [] }
    {
        LostFiles {
            files: ArrayVec::new(),
        }
    }

    /// Adds one, if there is one. Where as many wait as may, people aren't told of it.
    pub fn add(&mut self, lost: Option<LostFile>)
        ensures { self.new.files.items ≡ with_lost lost self.old.files.items }
    {
        if let Some(lost) = lost {
            let _is_added = self.files.try_push(lost);
        }
    }

    /// Takes the oldest.
    pub fn take(&mut self) -> Option<LostFile>
        ensures files { self.old.files.items ≡ option_to_list result ++ self.new.files.items }
        ensures none { result ≡ None → self.old.files.items ≡ [] }
    {
        self.files.pop_at(0)
    }
}
