//! Journal files of earlier lives, by their names, and which of them go.

ghost use Rattle.std.specs.Prelude.{◌≡◌};
ghost use Rattle.swim_disk.specs.OldFiles.{removed};

use crate::plain_files::is_file;
use arrayvec::{ArrayString, ArrayVec};
use std::alloc::{AllocError, Global};
use std::fmt::Write;
use std::rt::Files;
use swim_text::{Byte, ReadSource, Source, cut, read_number};
use swim_wire::Id;

/// Room for a name of a journal file, which has at most 57 bytes; of a longer name a front is looked at.
const NAME_BYTES: usize = 64;

/// Room for the path of a file: that of its folder, three numbers, and what stands between them.
const PATH_BYTES: usize = 168;

/// The path of a file.
pub type FilePath = ArrayString<PATH_BYTES>;

/// How many bytes of the names of a folder are looked at, since no life begins before that is done.
const MOST_BYTES: u32 = 1_048_576;

/// How many files are removed at a time at most.
const REMOVALS: u64 = 64;

/// Which life a file is of: when its daemon began, in seconds since 1970, and its number there. An older one is less.
#[derive(Clone, Copy, PartialEq, Eq, PartialOrd, Ord)]
pub struct Stamp {
    pub began: u64,
    pub life: u64,
}

/// A journal file by its name: its life, and whose it is. An older one is less.
#[derive(Clone, Copy, PartialEq, Eq, PartialOrd, Ord)]
pub struct Journaled {
    pub stamp: Stamp,
    pub member: Id,
}

/// The folder beside a member's files where those of lives in which a member was judged have a second name.
pub fn judged_in(dir: &str) -> FilePath {
    let mut path = FilePath::new();
    let _is_whole = write!(path, "{dir}/judged");
    path
}

/// The path of a member's file in a folder.
pub fn path_of(dir: &str, me: Id, stamp: Stamp) -> FilePath {
    let mut path = FilePath::new();
    let _is_whole = write!(
        path,
        "{dir}/{}-{}-{}.swim",
        me.get(),
        stamp.began,
        stamp.life
    );
    path
}

/// Which of a member's other files go beside a new one, where so many files stay: the first of them, which are the
/// oldest, at most 64 at a time, since no life begins before they are gone. A `keep` of 0 lets all stay.
pub fn removed(others: &[Stamp], keep: u64) -> &[Stamp]
    ensures { result.now ≡ removed others.now keep }
{
    if keep == 0 {
        return &[];
    }
    let beyond = (others.len() as u64).saturating_sub(keep - 1);
    let count = beyond.min(REMOVALS).min(others.len() as u64);
    &others[..count as usize]
}

/// A member's files in a folder but the one that is new, the oldest first. What has such a name and is no file, as a
/// folder or a link, isn't one.
pub fn others_in<R: Files>(
    rt: &R,
    alloc: Global,
    dir: &str,
    me: Id,
    new: Stamp,
) -> Result<Vec<Stamp>, AllocError> {
    let mut others = Vec::new(alloc);
    for file in journals_in(rt, alloc, dir)? {
        let is_other = file.member == me && file.stamp != new;
        if is_other && is_file(rt, path_of(dir, me, file.stamp).as_str()) {
            others.push(file.stamp)?;
        }
    }
    Ok(others)
}

/// The journal files of all members in a folder, by their names, the oldest first. Without such a folder there are none.
pub fn journals_in<R: Files>(
    rt: &R,
    alloc: Global,
    dir: &str,
) -> Result<Vec<Journaled>, AllocError> {
    let mut files = Vec::new(alloc);
    let Ok(names) = rt.open_dir(dir) else {
        return Ok(files);
    };
    let mut names = ReadSource::new(names);
    let mut name = ArrayVec::<u8, NAME_BYTES>::new();
    for _byte in 0..MOST_BYTES {
        match names.byte() {
            Byte::One(0) => {
                if let Some(file) = named(name.as_slice()) {
                    files.push(file)?;
                }
                name.clear();
            }
            Byte::One(byte) => {
                let _is_added = name.try_push(byte);
            }
            Byte::End | Byte::Fault => break,
        }
    }
    files.sort()?;
    Ok(files)
}

/// The journal file of this name, if it is one: ID-SECONDS-LIFE.swim.
fn named(name: &[u8]) -> Option<Journaled> {
    let name = name.strip_suffix(b".swim")?;
    let (id, rest) = cut(name, b'-')?;
    let (began, life) = cut(rest, b'-')?;
    let stamp = Stamp {
        began: read_number(began, u64::MAX)?,
        life: read_number(life, u64::MAX)?,
    };
    let member = Id::read(id)?;
    Some(Journaled { stamp, member })
}
