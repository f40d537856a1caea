//! Where verdicts are looked for: in files, each of which stands in a certain state.

ghost use Rattle.std.specs.Prelude.{◌≡◌, ◌↔◌, IfSome, IsSome, true};
ghost use Rattle.std.specs.Fs.{IsFile, file_type, metadata_len};
ghost use Rattle.std.specs.Io.Take.{take_limit};
ghost use Rattle.swim_pages.specs.Shelves.{AreSame};

use std::fs::{File, Metadata};
use std::io::{Read, Take};
use std::os::unix::fs::MetadataExt;
use std::rt::Files;
use swim_disk::FilePath;
use swim_wire::Id;

/// What a file's state is known by. Another file has another mark, and so has one that changed, unless it changed at
/// the same length within one step of the system's times, some milliseconds.
#[derive(Clone, Copy, PartialEq, Eq)]
pub struct FileMark {
    /// The device that it is on.
    pub device: u64,
    /// Its inode there.
    pub node: u64,
    /// Its length in bytes.
    pub length: u64,
    /// When it changed last, in seconds since 1970.
    pub changed: i64,
    /// The nanoseconds of that time.
    pub changed_ns: i64,
}

impl FileMark {
    /// Returns the mark of a file, and of nothing else: a folder, a pipe, a socket, a device and a link have none.
    pub fn of(found: &Metadata) -> Option<FileMark>
        ensures file { IsSome result ↔ IsFile (file_type found.now) }
        ensures length { IfSome result (λ mark. mark.length ≡ metadata_len found.now) }
    {
        if !found.is_file() {
            return None;
        }
        Some(FileMark {
            device: found.dev(),
            node: found.ino(),
            length: found.len(),
            changed: found.ctime(),
            changed_ns: found.ctime_nsec(),
        })
    }

    /// Returns how the file at a path stands, without opening it. A link to a file is none.
    pub fn at<R: Files>(rt: &R, path: &str) -> Option<FileMark> {
        let found = rt.symlink_metadata(path).ok()?;
        FileMark::of(&found)
    }
}

/// A verdict that is looked for in a file.
#[derive(Drop)]
pub struct Place {
    pub path: FilePath,
    /// How the file stood when it was opened.
    pub mark: FileMark,
    pub member: Id,
    /// The number of the period.
    pub number: u64,
}

impl Place {
    /// Returns whether it is the same verdict, of the same file in the same state.
    pub fn is(&self, other: &Place) -> bool
        ensures { result ≡ true → AreSame self.now other.now }
    {
        self.is_about(other) && self.mark == other.mark
    }

    /// Returns whether it is the same verdict of the same file, whatever state that is in.
    pub fn is_about(&self, other: &Place) -> bool
        ensures path { result ≡ true → self.now.path.bytes ≡ other.now.path.bytes }
        ensures member { result ≡ true → self.now.member ≡ other.now.member }
        ensures number { result ≡ true → self.now.number ≡ other.now.number }
    {
        self.member == other.member
            && self.number == other.number
            && self.path.as_str() == other.path.as_str()
    }

    /// Returns whether it is in this file, in this state.
    pub fn is_in(&self, path: &str, mark: &FileMark) -> bool
        ensures path { result ≡ true → path.now ≡ self.now.path.bytes }
        ensures mark { result ≡ true → mark.now ≡ self.now.mark }
    {
        *mark == self.mark && path == self.path.as_str()
    }
}

/// Opens a file that was seen at a path, to be read as far as it goes now, and tells how it stands. What is added to it
/// from now on isn't read. If a pipe took its place since it was seen, this waits for whoever writes into the pipe: the
/// owner of the folder alone can do that.
pub fn open<R: Files<File = File>>(rt: &R, path: &str) -> Option<(Take<File>, FileMark)>
    ensures { IfSome result (λ opened. take_limit opened.0 ≡ opened.1.length) }
{
    let file = File::open(rt, path).ok()?;
    let found = file.metadata().ok()?;
    let mark = FileMark::of(&found)?;
    Some((file.take(mark.length), mark))
}
