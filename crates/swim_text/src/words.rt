//! Words of a line.

ghost use Rattle.std.specs.Prelude.{◌≡◌, ◌==◌, ◌∷◌, [], length, MatchOption};
ghost use Rattle.swim_text.specs.Words.{words_by, words_of};

use crate::parts::cut;
use std::marker::Model;

/// The words of a line that are left to be taken. A contract sees the list of them.
#[derive(Drop)]
pub struct Words<'a> {
    left: Option<&'a [u8]>,
    separator: u8,
}

impl<'a> Model for Words<'a> {
    ghost use Rattle.std.specs.Prelude.{List, ℕ};
    ghost use Rattle.std.specs.Option.{option_copied};
    ghost use Rattle.swim_text.specs.Words.{words_left};

    ghost Value = { List (List ℕ) };

    ghost view = { λ w. words_left w.separator (option_copied w.left) };
}

impl<'a> Words<'a> {
    /// The words of a line: it is cut at each space. Two spaces in a row have an empty word between them, and the empty
    /// line has one empty word.
    pub fn new(line: &'a [u8]) -> Words<'a>
        ensures { result ≡ words_of line.now }
    {
        Words::split(line, b' ')
    }

    /// The parts of a text: it is cut at each separator.
    pub fn split(text: &'a [u8], separator: u8) -> Words<'a>
        ensures { result ≡ words_by separator text.now }
    {
        Words {
            left: Some(text),
            separator,
        }
    }

    /// Whether no word is left.
    pub fn is_empty(&self) -> bool
        ensures { result ≡ (length self.now == 0) }
    {
        self.left.is_none()
    }

    /// Takes the first word that is left, if any is.
    pub fn next(&mut self) -> Option<&'a [u8]>
        ensures { MatchOption result ((self.old ≡ []) × (self.new ≡ []))
            (λ word. self.old ≡ word.now ∷ self.new) }
    {
        let text = self.left?;
        match cut(text, self.separator) {
            Some((word, rest)) => {
                self.left = Some(rest);
                Some(word)
            }
            None => {
                self.left = None;
                Some(text)
            }
        }
    }
}
