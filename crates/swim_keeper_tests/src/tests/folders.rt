//! A shelf of files in memory.

ghost use Rattle.std.specs.Prelude.{◌≡◌, ◌∷◌, [], Some, None};

use std::alloc::Global;
use swim_recorder::Shelf;
use swim_text::{Page, Sink};

/// A shelf whose files are in memory, or that has none. It keeps a file that has the bytes which it expects.
#[derive(Drop)]
pub struct Folder {
    alloc: Global,
    has_files: bool,
    is_keeping: bool,
    expected: &'static [u8],
}

impl Folder {
    /// A shelf without files.
    pub fn none(alloc: Global) -> Folder {
        Folder {
            alloc,
            has_files: false,
            is_keeping: false,
            expected: b"",
        }
    }

    /// A shelf with files, which expects these bytes, and keeps them or doesn't.
    pub fn new(alloc: Global, is_keeping: bool, expected: &'static [u8]) -> Folder {
        Folder {
            alloc,
            has_files: true,
            is_keeping,
            expected,
        }
    }
}

impl Shelf<Page> for Folder {
    ghost fresh = { Some [] };

    ghost opened = { λ s. None };

    ghost filed = { λ s. None };

    #[tactic(auto, using(swim_telling::specs::Notices::no_notices))]
    fn open<F: Sink>(&mut self, _number: u64, _notices: &mut F) -> Option<Page> {
        if !self.has_files {
            return None;
        }
        Some(Page::new(self.alloc))
    }

    #[tactic(auto, using(swim_telling::specs::Notices::no_notices, swim_recorder::specs::Filed::unknown_back))]
    fn close<F: Sink>(&mut self, _number: u64, sink: Page, _notices: &mut F) -> bool {
        self.is_keeping && has_text(&sink, self.expected)
    }
}

// Whether this is what was written.
fn has_text(page: &Page, text: &[u8]) -> bool {
    page.text() == text
}
