//! What one search for a verdict may cost, and which files it has seen.

ghost use Rattle.std.specs.Prelude.{◌≡◌, ◌-◌, ◌++◌, ◌∷◌, ◌&&◌, ◌||◌, [], IfOk, OnErr, drop, false, if◌then◌else◌, length};
ghost use Rattle.std.specs.Prelude.{nat_le, nat_lt, not, true};
ghost use Rattle.std.specs.List.{list_any};
ghost use Rattle.swim_pages.specs.Searches.{is_node};

use crate::file_places::FileMark;
use std::alloc::{AllocError, Global};
use swim_disk::Journaled;

/// How many files of a folder are looked at, the newest.
const FOLDER_FILES: usize = 1_024;

/// How many bytes of files are replayed. A longer file is none that is read.
const REPLAYED_BYTES: u64 = 268_435_456;

/// A search for a verdict.
#[derive(Drop)]
pub struct Search {
    /// How each file that it has seen stood, whatever name that has.
    pub seen: Vec<FileMark>,
    /// How many bytes of files it may still replay.
    pub left: u64,
    /// Whether it left out files.
    pub is_cut: bool,
    /// Whether it ended at a file that another search can replay, unless newer files change meanwhile. Older files
    /// aren't looked at after that, since a newer one may tell the same verdict.
    pub is_over: bool,
}

impl Search {
    /// Returns a search that has seen nothing.
    pub fn new(alloc: Global) -> Search
        ensures seen { result.seen.items ≡ [] }
        ensures left { result.left ≡ 268435456 }
        ensures cut { result.is_cut ≡ false }
        ensures over { result.is_over ≡ false }
    {
        Search {
            seen: Vec::new(alloc),
            left: REPLAYED_BYTES,
            is_cut: false,
            is_over: false,
        }
    }

    /// Returns the newest of files, which are the last, and leaves out those before them.
    pub fn newest<'f>(&mut self, files: &'f [Journaled]) -> &'f [Journaled]
        ensures files { result.now ≡ drop (length files.now - 1024) files.now }
        ensures cut { self.new.is_cut ≡ (self.old.is_cut || nat_lt 1024 (length files.now)) }
        ensures seen { self.new.seen ≡ self.old.seen }
        ensures left { self.new.left ≡ self.old.left }
        ensures over { self.new.is_over ≡ self.old.is_over }
    {
        self.is_cut = self.is_cut || FOLDER_FILES < files.len();
        &files[files.len().saturating_sub(FOLDER_FILES)..]
    }

    /// Notes that a file was seen. Returns whether it is to be looked at: the search isn't over, and hasn't seen it
    /// yet, as by another name.
    pub fn see(&mut self, mark: FileMark) -> Result<bool, AllocError>
        ensures wanted { IfOk result (λ is_wanted. is_wanted
            ≡ not (self.old.is_over || list_any (is_node mark.device mark.node) self.old.seen.items)) }
        ensures seen { IfOk result (λ is_wanted. self.new.seen.items
            ≡ (if is_wanted then self.old.seen.items ++ mark ∷ [] else self.old.seen.items)) }
        ensures refused { OnErr result (self.new.seen.items ≡ self.old.seen.items) }
        ensures left { self.new.left ≡ self.old.left }
        ensures cut { self.new.is_cut ≡ self.old.is_cut }
        ensures over { self.new.is_over ≡ self.old.is_over }
    {
        if self.is_over || self.has_seen(mark.device, mark.node) {
            return Ok(false);
        }
        self.seen.push(mark)?;
        Ok(true)
    }

    /// Returns whether it has seen a file.
    fn has_seen(&self, device: u64, node: u64) -> bool
        ensures { result ≡ list_any (is_node device node) self.now.seen.items }
    {
        self.seen
            .iter()
            .any(|mark| mark.device == device && mark.node == node)
    }

    /// Takes the bytes of a file from those that may still be replayed. Returns whether there were as many; if not, the
    /// file is left out, and the search is over, unless the file is too long for any search.
    pub fn pay(&mut self, bytes: u64) -> bool
        ensures paid { result ≡ nat_le bytes self.old.left }
        ensures left { self.new.left ≡ (if result then self.old.left - bytes else self.old.left) }
        ensures cut { self.new.is_cut ≡ (self.old.is_cut || not result) }
        ensures over { self.new.is_over ≡ (self.old.is_over || (not result && nat_le bytes 268435456)) }
        ensures seen { self.new.seen ≡ self.old.seen }
    {
        if bytes <= self.left {
            self.left -= bytes;
            return true;
        }
        self.is_over = self.is_over || bytes <= REPLAYED_BYTES;
        self.leave_out();
        false
    }

    /// Notes that a file is left out.
    pub fn leave_out(&mut self)
        ensures { self.new ≡ record self.old { is_cut = true } }
    {
        self.is_cut = true;
    }
}
