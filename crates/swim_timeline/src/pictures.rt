//! What a picture shows of a run that may be too long for it.

ghost use Rattle.std.specs.Prelude.{◌≡◌, ◌<◌, ◌^◌, ◌∷◌, List, IfOk, OnOk};
ghost use Rattle.swim_history.specs.declared.entries.Choice.{Choice};
ghost use Rattle.swim_history.specs.declared.entries.Entry.{Entry};
ghost use Rattle.swim_history.specs.Called.{entry_of};
ghost use Rattle.swim_history.specs.Clock.{number_at};
ghost use Rattle.swim_timeline.specs.Shown.{Draws, Shows};

use crate::clock::{number_at, ticks_with};
use crate::earlier_runs::{EarlierRun, begin_at};
use crate::lanes::{Lanes, add_lane, lanes_of};
use crate::picture_marks::{PictureMark, add_marks};
use crate::spans::Span;
use std::alloc::{AllocError, Global};
use swim_history::{Called, Journal, Opening};

/// What a picture shows of a run: all that happened within some ticks.
#[derive(Drop)]
pub struct Picture {
    /// What lies before the first of these ticks.
    pub before: EarlierRun,
    /// How many ticks the whole run has.
    pub ticks: u32,
    /// How many of its entries are shown or lie before those that are, the oldest ones.
    pub entries: u32,
    /// What happened in those that are shown, oldest first.
    pub marks: Vec<PictureMark>,
    /// Each member that stood in the member table as they begin, or joined in them, with the address that it had last.
    pub lanes: Lanes,
}

/// What a picture of these ticks shows of a journal: the entries from the first tick on, up to the tick behind the
/// last. `Err` only where memory was refused.
pub fn show(alloc: Global, journal: &Journal, span: Span) -> Result<Picture, AllocError>
    ensures { IfOk result (λ shown. Shows journal.now.opening journal.now.past span.first span.until shown) }
{
    let opening = journal.opening();
    let before = begin_at(journal, span.first);
    let lanes = lanes_of(alloc, before.rows.as_slice())?;
    let mut shown = Picture {
        before,
        ticks: 0,
        entries: 0,
        marks: Vec::new(alloc),
        lanes,
    };
    for place in 0..journal.len() {
        if let Some(called) = journal.called(place) {
            shown.note(opening, span, &called)?;
        }
    }
    Ok(shown)
}

impl Picture {
    /// Takes one more entry of the run, by its call and its reply.
    fn note(&mut self, opening: &Opening, span: Span, called: &Called) -> Result<(), AllocError>
        requires ticks { self.old.ticks < u32.MAX }
        requires entries { self.old.entries < u32.MAX }
        requires number { number_at opening.now.last opening.now.period self.old.ticks < 2 ^ 64 }
        ensures before { OnOk result (self.new.before ≡ self.old.before) }
        ensures drawn { (h : List Entry) (choice : Choice) → Draws opening.now h span.first span.until self.old →
            OnOk result (Draws opening.now (entry_of called.now choice ∷ h) span.first span.until self.new) }
    {
        let ended = number_at(opening, self.ticks);
        self.ticks = ticks_with(self.ticks, called);
        if u64::from(self.ticks) > span.until {
            return Ok(());
        }
        self.entries += 1;
        if self.ticks < span.first {
            return Ok(());
        }
        add_lane(&mut self.lanes, called)?;
        add_marks(&mut self.marks, self.ticks, ended, called)?;
        Ok(())
    }
}
