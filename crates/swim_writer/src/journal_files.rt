//! Journal files as they are written.

ghost use Rattle.std.specs.Prelude.{◌≡◌, true, false, [], length, None, Some};
ghost use Rattle.swim_text.specs.Streams.{Puts, failures_if};
ghost use Rattle.swim_journal.specs.Comments.{EndsLine, MayComment, without_comments};
ghost use Rattle.swim_writer.specs.HeldTexts.{Takes, all_of};

use crate::comments::{comment_behind, own_join};
use crate::disk_desks::DiskDesk;
use crate::held_texts::HeldText;
use crate::remarks::Remarks;
use arrayvec::ArrayVec;
use std::alloc::Global;
use std::rt::Clock;
use std::sync::{Arc, Wait};
use swim_config::TimeUnit;
use swim_text::Sink;

/// How many bytes of a line are looked at: as many as there are in front of the word that says what was answered.
const FRONT_BYTES: usize = 32;

/// A journal file, as long as its desk takes what is to be written, from where another thread writes it. It holds back
/// what it is given until it is flushed. Once something was refused it takes nothing more. It adds comments for people:
/// after its first line the program with its version and the time, after each line of a started period the time since
/// 1970, and after the answer to a join that the daemon made by itself that it did. A contract sees the texts
/// that it took, and the bytes that its desk took.
#[derive(Drop)]
pub struct JournalFile<'r, R> {
    rt: &'r R,
    remarks: &'r Remarks,
    version: &'static str,
    unit: TimeUnit,
    // None once nothing more is taken.
    desk: Option<Arc<DiskDesk, Global>>,
    text: HeldText,
    // As much as is looked at of the line that isn't at its end yet.
    front: ArrayVec<u8, FRONT_BYTES>,
    failures: u64,
    is_begun: bool,
}

impl<'r, R: Clock + Wait> JournalFile<'r, R> {
    /// The file that the desk has begun; without a desk, it takes nothing. It has the remarks that are made from now
    /// on, and tells that the program has this version, and times to this unit.
    pub fn new(
        rt: &'r R,
        remarks: &'r Remarks,
        version: &'static str,
        unit: TimeUnit,
        desk: Option<Arc<DiskDesk, Global>>,
    ) -> JournalFile<'r, R>
        ensures { result.text.taken ≡ [] }
    {
        let is_begun = desk.is_some();
        let _earlier = remarks.take();
        JournalFile {
            rt,
            remarks,
            version,
            unit,
            desk,
            text: HeldText::new(),
            front: ArrayVec::new(),
            failures: 0,
            is_begun,
        }
    }

    /// Whether there was a file from the beginning on.
    pub fn is_begun(&self) -> bool {
        self.is_begun
    }

    /// Hands over what is held back, as the last of it, and answers whether the desk took all that there was.
    pub fn finish(&mut self) -> bool
        ensures taken { self.new.text.taken ≡ self.old.text.taken }
        ensures same { result ≡ true →
            without_comments self.new.text.handed ≡ without_comments self.new.text.taken }
    {
        self.hand_on_all()
    }

    /// What it took, and what its desk took of that.
    pub fn into_text(self) -> HeldText
        ensures { result ≡ self.entry.text }
    {
        let JournalFile {
            rt: _rt,
            remarks: _remarks,
            version: _version,
            unit: _unit,
            desk: _desk,
            text,
            front: _front,
            failures: _failures,
            is_begun: _is_begun,
        } = self;
        text
    }

    /// Hands over what is held back, with the remark on the last call, and answers whether the desk took it.
    fn hand_on_all(&mut self) -> bool
        ensures failures { self.new.failures ≡ self.old.failures }
        ensures taken { self.new.text.taken ≡ self.old.text.taken }
        ensures sent { result ≡ true → self.new.text.held ≡ [] }
        ensures same { result ≡ true →
            without_comments self.new.text.handed ≡ without_comments self.new.text.taken }
    {
        if !self.take_remark() {
            return false;
        }
        self.hand_on()
    }

    /// Hands over what is held back, and answers whether the desk took it. Where it didn't, the file is let go.
    fn hand_on(&mut self) -> bool
        ensures failures { self.new.failures ≡ self.old.failures }
        ensures taken { self.new.text.taken ≡ self.old.text.taken }
        ensures all { all_of self.new.text ≡ all_of self.old.text }
        ensures sent { result ≡ true → self.new.text.held ≡ [] }
        ensures same { result ≡ true →
            without_comments self.new.text.handed ≡ without_comments self.new.text.taken }
        ensures gone { result ≡ false → self.new.desk ≡ None }
        ensures none { self.old.desk ≡ None → result ≡ false }
    {
        let Some(desk) = &self.desk else {
            return false;
        };
        if self.text.hand_on(self.rt, &**desk).is_err() {
            self.desk = None;
            return false;
        }
        true
    }

    /// Counts a failure, where it is one.
    fn counted(&mut self, is_done: bool) -> bool
        ensures done { result ≡ is_done }
        ensures text { self.new.text ≡ self.old.text }
        ensures failures { self.new.failures ≡ failures_if self.old.failures is_done }
    {
        if !is_done {
            self.failures = self.failures.saturating_add(1);
        }
        is_done
    }

    /// Holds the remark on the call before back, if there is one, and then a text.
    #[tactic(auto, using(crate::proofs::HeldTexts::puts_next, crate::proofs::HeldTexts::puts_nothing))]
    fn take_next(&mut self, text: &[u8]) -> bool
        ensures failures { self.new.failures ≡ self.old.failures }
        ensures taken { Puts (Some self.old.text.taken) (Some self.new.text.taken) text.now result }
    {
        if !self.take_remark() {
            return false;
        }
        self.take_told(text)
    }

    /// Holds the remark on the last call back, if there is one. It is left out if the file ends within a line.
    fn take_remark(&mut self) -> bool
        ensures failures { self.new.failures ≡ self.old.failures }
        ensures taken { self.new.text.taken ≡ self.old.text.taken }
    {
        if !self.remarks.take() || !self.text.ends_line() {
            return true;
        }
        self.take_comment(own_join())
    }

    /// Holds a text back, and a comment behind it, where it ends a line that is to have one.
    #[tactic(auto, using(crate::proofs::HeldTexts::puts_none, crate::proofs::HeldTexts::puts_all, crate::proofs::HeldTexts::ends_taken))]
    fn take_told(&mut self, text: &[u8]) -> bool
        ensures failures { self.new.failures ≡ self.old.failures }
        ensures taken { Puts (Some self.old.text.taken) (Some self.new.text.taken) text.now result }
    {
        if !self.take(text) {
            return false;
        }
        add_front(&mut self.front, text);
        let Some((last, _line)) = text.split_last() else {
            return true;
        };
        if *last != b'\n' {
            return true;
        }
        let comment = comment_behind(self.rt, self.version, self.unit, self.front.as_slice());
        self.front.clear();
        self.take_comment(comment.as_str().as_bytes())
    }

    /// Holds a text back; where there is no room for it, behind what was written then.
    #[tactic(auto, using(crate::proofs::HeldTexts::then_takes))]
    fn take(&mut self, text: &[u8]) -> bool
        ensures failures { self.new.failures ≡ self.old.failures }
        ensures taken { Takes self.old.text self.new.text text.now result }
    {
        if self.text.put(text) {
            return true;
        }
        self.hand_on() && self.text.put(text)
    }

    /// Holds a comment back behind a line; where there is no room for it, behind what was written then.
    #[tactic(auto, using(crate::proofs::HeldTexts::ends_same))]
    fn take_comment(&mut self, comment: &[u8]) -> bool
        requires comment { MayComment comment.now }
        requires behind { EndsLine (all_of self.old.text) }
        ensures failures { self.new.failures ≡ self.old.failures }
        ensures taken { self.new.text.taken ≡ self.old.text.taken }
    {
        if self.text.put_comment(comment) {
            return true;
        }
        self.hand_on() && self.text.put_comment(comment)
    }
}

impl<'r, R: Clock + Wait> Sink for JournalFile<'r, R> {
    ghost written = { λ f. Some f.text.taken };

    ghost failures = { λ f. f.failures };

    ghost held = { λ f. length f.text.held };

    fn put(&mut self, text: &[u8]) -> bool {
        let is_taken = self.take_next(text);
        self.counted(is_taken)
    }

    fn flush(&mut self) -> bool {
        let is_sent = self.hand_on_all();
        self.counted(is_sent)
    }
}

/// Adds as much of a text as there is room for.
fn add_front(front: &mut ArrayVec<u8, FRONT_BYTES>, text: &[u8]) {
    let count = text.len().min(front.remaining_capacity());
    let _is_added = front.try_extend_from_slice(&text[..count]);
}
