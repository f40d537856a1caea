//! A journal file that is to be made.

use crate::old_files::{FilePath, Stamp, judged_in, others_in, path_of, removed};
use crate::plain_files::make_file;
use arrayvec::ArrayString;
use std::alloc::Global;
use std::fs::File;
use std::io::{self, ErrorKind};
use std::rt::Files;
use swim_wire::Id;

/// How many bytes the path of a folder has at most.
const DIR_BYTES: usize = 100;

/// The path of a folder.
pub type DirPath = ArrayString<DIR_BYTES>;

/// The mode of a journal file: its owner alone may read and write it.
const OWNER_ALONE: u32 = 0o600;

/// The mode of the folder of judged ones.
const OWNERS_FOLDER: u32 = 0o700;

/// How many seconds are tried for a file's name. A daemon that is started again and again takes one each time.
const SECONDS_TRIED: u32 = 600;

/// A journal file that is to be made: in which folder, of which member and life, and how many of that member stay then,
/// the newest; 0 for all.
#[derive(Clone, Copy)]
pub struct NewFile {
    pub dir: DirPath,
    pub me: Id,
    pub stamp: Stamp,
    pub keep: u64,
}

impl NewFile {
    /// Its path.
    pub fn path(&self) -> FilePath {
        path_of(self.dir.as_str(), self.me, self.stamp)
    }

    /// Makes it. It is new, and its owner's alone. Where something lies at its path, or at that of its second name, the
    /// next second names it for which there is nothing: that of its stamp then. `AlreadyExists` where there is none in
    /// all that are tried, and then the stamp stays.
    pub fn make<R: Files<File = File>>(&mut self, rt: &R) -> io::Result<File> {
        let mut stamp = self.stamp;
        for _try in 0..SECONDS_TRIED {
            match self.make_as(rt, stamp) {
                Ok(file) => {
                    self.stamp = stamp;
                    return Ok(file);
                }
                Err(fault) if fault.kind() == ErrorKind::AlreadyExists => {
                    stamp.began = stamp.began.saturating_add(1);
                }
                Err(fault) => return Err(fault),
            }
        }
        Err(io::Error::from(ErrorKind::AlreadyExists))
    }

    /// Makes it with that stamp. `AlreadyExists` also where a file that is gone from here still has its second name.
    fn make_as<R: Files<File = File>>(&self, rt: &R, stamp: Stamp) -> io::Result<File> {
        let judged = path_of(judged_in(self.dir.as_str()).as_str(), self.me, stamp);
        if rt.symlink_metadata(judged.as_str()).is_ok() {
            return Err(io::Error::from(ErrorKind::AlreadyExists));
        }
        make_file(
            rt,
            path_of(self.dir.as_str(), self.me, stamp).as_str(),
            OWNER_ALONE,
        )
    }

    /// Removes the oldest files of this member beside it, where there are more than stay. What can't be removed stays.
    pub fn remove_old<R: Files<File = File>>(&self, rt: &R, alloc: Global) {
        if self.keep != 0 {
            self.remove_others(rt, alloc, self.dir.as_str());
        }
    }

    /// Gives it a second name, since a member was judged in its life: the same in the folder `judged` beside it, which
    /// is made where there is none, and where the newest stay as here, as many. Where all files stay, or the disk knows
    /// no second names, it has none.
    pub fn keep_judged<R: Files<File = File>>(&self, rt: &R, alloc: Global) {
        if self.keep == 0 {
            return;
        }
        let dir = judged_in(self.dir.as_str());
        let _is_made = rt.create_dir_with_mode(dir.as_str(), OWNERS_FOLDER);
        let path = path_of(dir.as_str(), self.me, self.stamp);
        if rt.hard_link(self.path().as_str(), path.as_str()).is_ok() {
            self.remove_others(rt, alloc, dir.as_str());
        }
    }

    /// Removes the oldest files of this member in a folder where it lies.
    fn remove_others<R: Files<File = File>>(&self, rt: &R, alloc: Global, dir: &str) {
        let Ok(others) = others_in(rt, alloc, dir, self.me, self.stamp) else {
            return;
        };
        for stamp in removed(others.as_slice(), self.keep) {
            let _is_removed = rt.remove_file(path_of(dir, self.me, *stamp).as_str());
        }
    }
}
