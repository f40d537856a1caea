//! Who reads a file's text whole, by its path.

ghost use Rattle.std.specs.Prelude.{◌≡◌, ◌++◌, ◌∷◌, [], Some, MatchResult, map};
ghost use Rattle.swim_trail.specs.Growing.{Grows};
ghost use Rattle.swim_writer.specs.Documents.{document, document_in};

use arrayvec::ArrayVec;
use std::fs;
use std::io::ErrorKind;
use std::marker::Model;
use std::rt::Files;
use swim_config::{INPUT_BYTES, read_input};
use swim_outcomes::{words_of, words_why};
use swim_text::ReadSource;
use swim_trail::{Remembered, Trail};

/// Who reads files of text, each whole.
pub trait Documents {
    ghost use Rattle.std.specs.Prelude.{List, Option, ◌≡◌, ◌∷◌, [], MatchResult};
    ghost use Rattle.swim_trail.specs.Growing.{Grows};
    ghost use Rattle.swim_writer.specs.Documents.{Document, document};

    // the files that it read so far, oldest first, where those are known
    ghost read: { Self → Option (List Document) };

    /// Reads the file of a path to its end, as far as the text has room. `Err` says in words why it can't be read.
    fn read_text(
        &mut self,
        path: &str,
        text: &mut ArrayVec<u8, INPUT_BYTES>,
    ) -> Result<(), &'static str>
        requires { text.old.items ≡ [] }
        ensures { MatchResult result
            (λ done. Grows (read self.old) (read self.new) (document path.now text.new.items ∷ []))
            (λ why. read self.new ≡ read self.old) };
}

/// The text of a file, which the proofs alone know.
#[derive(Drop)]
struct ReadText {
    text: Remembered<ArrayVec<u8, INPUT_BYTES>>,
}

impl Model for ReadText {
    ghost use Rattle.std.specs.Prelude.{List, ℕ};

    ghost Value = { List ℕ };

    ghost view = { λ t. t.text.value.items };
}

/// Who reads the system's files. A contract sees what it read, as the reads answered it.
#[derive(Drop)]
pub struct SystemDocuments<'r, R> {
    rt: &'r R,
    read: Trail<ReadText>,
}

impl<'r, R: Files> SystemDocuments<'r, R> {
    /// It has read nothing yet.
    pub fn new(rt: &'r R) -> SystemDocuments<'r, R>
        ensures { result.read.items ≡ [] }
    {
        SystemDocuments {
            rt,
            read: Trail::new(),
        }
    }
}

impl<'r, R: Files> Documents for SystemDocuments<'r, R> {
    ghost read = { λ d. Some (map document_in d.read.items) };

    #[tactic(auto, using(swim_trail::specs::Noted::map_more))]
    fn read_text(
        &mut self,
        path: &str,
        text: &mut ArrayVec<u8, INPUT_BYTES>,
    ) -> Result<(), &'static str>
        requires { text.old.items ≡ [] }
        ensures { MatchResult result
            (λ done. Grows (Some (map document_in self.old.read.items)) (Some (map document_in self.new.read.items))
            (document path.now text.new.items ∷ []))
            (λ why. Some (map document_in self.new.read.items) ≡ Some (map document_in self.old.read.items)) }
    {
        let file = fs::open(self.rt, path).map_err(|fault| words_why(&fault))?;
        if !read_input(&mut ReadSource::new(file), text) {
            return Err(words_why_unread(self.rt, path));
        }
        let read = ReadText {
            text: Remembered::of(text),
        };
        self.read.note(&read, path.as_bytes());
        Ok(())
    }
}

/// Why what was opened at a path can't be read.
fn words_why_unread<R: Files>(rt: &R, path: &str) -> &'static str {
    match fs::metadata(rt, path) {
        Ok(metadata) if metadata.is_dir() => words_of(ErrorKind::IsADirectory),
        _ => "it can't be read",
    }
}
