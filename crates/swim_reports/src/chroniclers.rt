//! Who hears of each call of the journal, counts it, puts on the bulletin what is to be told, and has the journal file
//! tell which joins the daemon made by itself.

ghost use Rattle.std.specs.Prelude.{◌≡◌, ◌++◌, ◌∷◌, [], Some, IfOk, map};
ghost use Rattle.swim_recorder.specs.Reports.Report.{Began, Called};
ghost use Rattle.swim_reports.specs.Chronicled.{report_in};

use crate::books::{Book, acked, is_own_join, told_alone};
use crate::counters::Counters;
use std::alloc::{AllocError, Global};
use std::sync::Wait;
use swim_history::{Change, Opening};
use swim_node::Followed;
use swim_recorder::{Reporter, Standing};
use swim_trail::{Remembered, Trail};

/// What a chronicler heard, which the proofs alone know.
#[derive(Drop)]
enum Heard {
    /// That a life begins from this opening.
    Began(Remembered<Opening>),
    /// Of a call, and what it changed of the member table.
    Called(Remembered<Followed>, Remembered<Option<Change>>),
}

/// A chronicler over a bulletin. A contract sees all that it heard.
#[derive(Drop)]
pub struct Chronicler<'b> {
    counters: &'b Counters,
    // Whether changes aren't told.
    is_quiet: bool,
    // In a box, as it is handed from life to life and into a thread.
    book: Box<Book>,
    heard: Trail<Heard>,
}

impl<'b> Chronicler<'b> {
    /// It has heard of nothing yet. Where it is quiet, it counts, and tells no changes.
    pub fn new(
        alloc: Global,
        counters: &'b Counters,
        is_quiet: bool,
    ) -> Result<Chronicler<'b>, AllocError>
        ensures { IfOk result (λ chronicler. chronicler.heard.items ≡ []) }
    {
        let book = Box::new(alloc, Book::new())?;
        Ok(Chronicler {
            counters,
            is_quiet,
            book,
            heard: Trail::new(),
        })
    }
}

impl<'b> Reporter for Chronicler<'b> {
    ghost heard = { λ c. Some (map report_in c.heard.items) };

    #[tactic(auto, using(crate::specs::Chronicled::one_report_more))]
    fn begins(&mut self, opening: &Opening)
        ensures { map report_in self.new.heard.items ≡ map report_in self.old.heard.items ++ Began opening.now ∷ [] }
    {
        self.heard.note(&Heard::Began(Remembered::of(opening)), &[]);
        self.book.begins(opening);
    }

    #[tactic(auto, using(crate::specs::Chronicled::one_report_more))]
    fn hear<R: Wait>(&mut self, rt: &R, next: &Followed, change: &Option<Change>)
        ensures { map report_in self.new.heard.items ≡ map report_in self.old.heard.items
            ++ Called next.now change.now ∷ [] }
    {
        let heard = Heard::Called(Remembered::of(next), Remembered::of(change));
        self.heard.note(&heard, &[]);
        if let (Some(change), false) = (change, self.is_quiet) {
            let happening = self.book.happening(next.seat, change);
            self.counters.bulletin.add(rt, happening);
        }
        if is_own_join(next.seat, change) {
            self.counters.remarks.add();
        }
        let before = self.book.relayed(next);
        self.book.read(next, change);
        let alone = told_alone(acked(next), before, self.book.relayed(next));
        if let (Some(happening), false) = (alone, self.is_quiet) {
            self.counters.bulletin.add(rt, happening);
        }
    }

    fn rest<R: Wait>(&mut self, rt: &R, standing: Standing) {
        self.book.stands(standing);
        if let Some(counted) = self.book.counted() {
            self.counters.bulletin.show(rt, counted);
        }
    }
}
