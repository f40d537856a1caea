//! What a person needs below the line that tells how a command ended.

ghost use Rattle.std.specs.Prelude.{◌≡◌, ◌⊎◌, ◌++◌, [], true};
ghost use Rattle.std.specs.List.{list_all};
ghost use Rattle.swim_config.specs.Causes.{AreIndented};
ghost use Rattle.swim_config.specs.Configuration.{is_printing};
ghost use Rattle.swim_outcomes.specs.Details.{IsExplained};

use crate::printed::{TEXT_BYTES, add_printed};
use arrayvec::ArrayVec;
use std::alloc::Global;
use std::marker::Model;
use swim_config::{ConfigFault, put_cause};
use swim_text::Page;

/// How many bytes details have at most.
const DETAILS_BYTES: usize = 2048;

/// How many bytes a line of them has at most, with the spaces in front and its line feed.
const LINE_BYTES: usize = TEXT_BYTES + 3;

/// What a person needs below the line that tells how a command ended: whole lines, each of which begins with two
/// spaces and has only characters of ASCII that print. A contract sees their bytes.
#[derive(Drop)]
pub struct Details {
    lines: ArrayVec<u8, DETAILS_BYTES>,
}

impl Model for Details {
    ghost use Rattle.std.specs.Prelude.{List, ℕ};
    ghost use Rattle.swim_config.specs.Causes.{AreIndented};

    ghost Value = { List ℕ };

    ghost view = { λ d. d.lines.items };

    ghost invariant = { λ d. AreIndented d.lines.items };
}

impl Details {
    /// No details.
    #[tactic(auto, using(swim_config::specs::Indented::none_indented))]
    pub fn new() -> Details
        ensures { result ≡ [] }
    {
        Details {
            lines: ArrayVec::new(),
        }
    }

    /// Adds a line that says this. A `?` stands in it for what doesn't print, and what there is no room for is left
    /// out.
    pub fn add(&mut self, words: &str) {
        let mut text = ArrayVec::<u8, TEXT_BYTES>::new();
        add_printed(&mut text, words.as_bytes());
        self.add_line(text.as_slice());
    }

    /// Adds a line that says this of something, as a path, in the same way.
    pub fn add_of(&mut self, subject: &str, words: &str) {
        let mut text = ArrayVec::<u8, TEXT_BYTES>::new();
        add_printed(&mut text, subject.as_bytes());
        add_printed(&mut text, b": ");
        add_printed(&mut text, words.as_bytes());
        self.add_line(text.as_slice());
    }

    /// Adds the cause of the fault of a configuration of these bytes; nothing where memory is refused.
    #[tactic(auto, using(crate::proofs::Indented::cause_of, swim_config::specs::Indented::cause_indented))]
    pub fn explain(&mut self, alloc: Global, text: &[u8], fault: ConfigFault)
        requires { self.old ≡ [] }
        ensures { IsExplained fault self.new }
    {
        let mut page = Page::new(alloc);
        if put_cause(alloc, &mut page, text, fault) {
            self.take(page.text());
        }
    }

    /// The lines.
    pub fn as_slice(&self) -> &[u8]
        ensures lines { result.now ≡ self.now }
        ensures indented { AreIndented result.now }
    {
        self.lines.as_slice()
    }

    /// Adds lines, all of them or, where there is no room, none.
    #[tactic(auto, using(crate::proofs::Indented::grown_indented))]
    fn take(&mut self, lines: &[u8])
        requires { AreIndented lines.now }
        ensures { (self.new ≡ self.old ++ lines.now) ⊎ (self.new ≡ self.old) }
    {
        match self.lines.try_extend_from_slice(lines) {
            Ok(()) | Err(_) => {}
        }
    }

    /// Adds a line, if there is room for it.
    #[tactic(auto, using(swim_config::specs::Indented::made_indented))]
    fn add_line(&mut self, text: &[u8])
        requires { list_all is_printing text.now ≡ true }
    {
        let mut line = ArrayVec::<u8, LINE_BYTES>::new();
        if line.try_extend_from_slice(b"  ").is_err() {
            return;
        }
        if line.try_extend_from_slice(text).is_err() {
            return;
        }
        if line.try_extend_from_slice(b"\n").is_err() {
            return;
        }
        self.take(line.as_slice());
    }
}
