//! What is held back of a journal file until it is handed on, with comments for people between its lines.

ghost use Rattle.std.specs.Prelude.{◌≡◌, true, false, [], OnOk};
ghost use Rattle.swim_journal.specs.Comments.{EndsLine, MayComment, without_comments};
ghost use Rattle.swim_writer.specs.HeldTexts.{Takes, all_of};

use crate::disk_desks::DiskDesk;
use arrayvec::ArrayVec;
use std::marker::Model;
use std::rt::Clock;
use std::sync::Wait;
use swim_disk::FileFault;
use swim_trail::Trail;

/// How many bytes of a file are held back at most.
const HELD_BYTES: usize = 16_384;

/// A text that is held back until a desk takes it, with comments behind its lines. A contract sees the texts that it
/// took, the bytes that a desk took of it so far, and those that it holds back. These bytes are the texts but for
/// comments.
#[derive(Drop)]
pub struct HeldText {
    held: ArrayVec<u8, HELD_BYTES>,
    taken: Trail<()>,
    handed: Trail<()>,
}

impl Model for HeldText {
    ghost use Rattle.std.specs.Prelude.{◌++◌, flat_map};
    ghost use Rattle.swim_journal.specs.Comments.{IsCommented};
    ghost use Rattle.swim_writer.specs.HeldTexts.{AtText, bytes_in};

    ghost Value = { AtText };

    ghost view = { λ t. record {
      taken = flat_map bytes_in t.taken.items;
      handed = flat_map bytes_in t.handed.items;
      held = t.held.items;
    } };

    ghost invariant = { λ t.
        IsCommented (flat_map bytes_in t.handed.items ++ t.held.items) (flat_map bytes_in t.taken.items) };
}

impl HeldText {
    /// Nothing was taken yet.
    #[tactic(auto, using(swim_journal::proofs::Commenting::none_yet))]
    pub(crate) fn new() -> HeldText
        ensures { result ≡ record { taken = []; handed = []; held = [] } }
    {
        HeldText {
            held: ArrayVec::new(),
            taken: Trail::new(),
            handed: Trail::new(),
        }
    }

    /// Takes a text, if there is room for it.
    #[tactic(auto, using(crate::proofs::HeldTexts::text_grows, crate::proofs::HeldTexts::taken_more))]
    pub(crate) fn put(&mut self, text: &[u8]) -> bool
        ensures { Takes self.old self.new text.now result }
    {
        match self.held.try_extend_from_slice(text) {
            Ok(()) => {
                self.taken.note(&(), text);
                true
            }
            Err(_) => false,
        }
    }

    /// Puts a comment behind a line, if there is room for it.
    #[tactic(auto, using(crate::proofs::HeldTexts::comment_behind))]
    pub(crate) fn put_comment(&mut self, comment: &[u8]) -> bool
        requires comment { MayComment comment.now }
        requires behind { EndsLine (all_of self.old) }
        ensures taken { self.new.taken ≡ self.old.taken }
        ensures none { result ≡ false → all_of self.new ≡ all_of self.old }
    {
        match self.held.try_extend_from_slice(comment) {
            Ok(()) => true,
            Err(_) => false,
        }
    }

    /// Whether what it holds back ends a line.
    #[tactic(auto, using(crate::proofs::HeldTexts::held_ends))]
    pub(crate) fn ends_line(&self) -> bool
        ensures { result ≡ true → EndsLine (all_of self.now) }
    {
        let Some((last, _front)) = self.held.as_slice().split_last() else {
            return false;
        };
        if *last != b'\n' {
            return false;
        }
        true
    }

    /// Has the desk take what is held back, and notes it. Nothing else hands anything on or notes it.
    #[tactic(auto, using(crate::proofs::HeldTexts::all_handed, crate::proofs::HeldTexts::still_commented, crate::proofs::HeldTexts::handed_same))]
    pub(crate) fn hand_on<R: Clock + Wait>(
        &mut self,
        rt: &R,
        desk: &DiskDesk,
    ) -> Result<(), FileFault>
        ensures taken { self.new.taken ≡ self.old.taken }
        ensures all { all_of self.new ≡ all_of self.old }
        ensures held { OnOk result (self.new.held ≡ []) }
        ensures same { OnOk result (without_comments self.new.handed ≡ without_comments self.new.taken) }
    {
        match desk.add(rt, self.held.as_slice()) {
            Ok(()) => {
                self.handed.note(&(), self.held.as_slice());
                self.held.clear();
                Ok(())
            }
            Err(fault) => Err(fault),
        }
    }
}
