//! Shelves with journal files, in which verdicts are looked up.

ghost use Rattle.std.specs.Prelude.{◌≡◌, ℕ, Bool, List};
ghost use Rattle.swim_web.specs.declared.shelves.Found.{Found};

use swim_text::Page as Text;
use swim_wire::Id;

/// What a shelf has of a verdict.
#[derive(Clone, Copy, Debug, PartialEq, Eq)]
pub enum Found {
    /// A page about it.
    Page,
    /// No file that tells it.
    Nothing,
    /// Memory to look for it was refused, or its page is too long.
    NoMemory,
}

/// Journal files, which are only read.
pub trait Shelf {
    // That this is what it found last of the verdict on a member at the end of a period, and that this is the text that
    // it wrote of that: a page about the verdict, or what speaks against the files that it looked at, and whether some
    // were left out.
    ghost tells: { Self → Found → ℕ → ℕ → List ℕ → Type 0 };

    // Whether it has a place in which files may be.
    ghost opened: { Self → Bool };

    /// Returns whether it has a place in which files may be: without one no verdict is found.
    fn is_open(&self) -> bool
        ensures { result ≡ opened self.now };

    /// Looks for the verdict on a member at the end of the period with this number, and writes a page about it. If no
    /// file tells it, a line for each file that isn't verified is written, and last one if files were left out.
    fn find(&mut self, member: Id, number: u64, text: &mut Text) -> Found
        ensures { tells self.new result member number text.new.text };
}
