//! The forms of a script.

ghost use Rattle.std.specs.Prelude.{◌≡◌, ◌≤◌};
ghost use Rattle.swim_script.specs.Forms.{is_mark, form_after, most_bytes};

/// The most bytes of a script that is no journal file.
pub const SCRIPT_BYTES: u32 = 16_777_216;

/// The most bytes of a journal file.
pub const JOURNAL_BYTES: u32 = 1_073_741_824;

/// The form of a script, which its first line tells.
#[derive(Clone, Copy, Debug, PartialEq, Eq)]
pub enum Form {
    /// A script as it is written by hand.
    Script,
    /// A journal file, version 1. Behind an event line it may tell what the newest entry was answered, and behind its
    /// seed the life that draws from it.
    Journal,
}

impl Form {
    /// The form after one more line, given without its line feed, behind so many others: a journal file begins with a
    /// line of its own.
    pub fn after(self, before: u32, line: &[u8]) -> Form
        ensures form { result ≡ form_after before line.now self }
        ensures grows { most_bytes self ≤ most_bytes result }
        ensures most { most_bytes result ≤ JOURNAL_BYTES }
    {
        if is_mark(before, line) {
            Form::Journal
        } else {
            self
        }
    }

    /// How many bytes a script of that form may have.
    pub fn bytes(self) -> u32
        ensures { result ≡ most_bytes self }
    {
        match self {
            Form::Script => SCRIPT_BYTES,
            Form::Journal => JOURNAL_BYTES,
        }
    }
}

/// Whether a line, given without its line feed, is the first of a journal file; so many lines stand before it.
pub fn is_mark(before: u32, line: &[u8]) -> bool
    ensures { result ≡ is_mark before line.now }
{
    before == 0 && line == b"journal 1".as_slice()
}
