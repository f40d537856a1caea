//! What a run came to.

ghost use Rattle.std.specs.Prelude.{◌≡◌, ◌-◌, IfOk, length};
ghost use Rattle.swim_history.specs.Clock.{period_number};
ghost use Rattle.swim_history.specs.Judgement.{judgements};

use crate::reasons::{MOST_NUMBER, dropped, refused, wire};
use crate::tallies::{AnswerTally, ReasonCounts};
use std::alloc::AllocError;
use std::fmt;
use swim_history::{Journal, Judged, Reply};

/// What a journal holds: its entries, the periods that began, the judgements in order, and why messages were dropped
/// and calls refused.
#[derive(Drop)]
pub struct JournalSummary {
    pub entries: u32,
    pub periods: u64,
    pub judged: Vec<Judged>,
    pub dropped: ReasonCounts,
    pub refused: ReasonCounts,
}

impl JournalSummary {
    /// The summary of a journal. `Err` only where memory was refused.
    pub fn of(journal: &Journal) -> Result<JournalSummary, AllocError>
        ensures entries { IfOk result (λ s. s.entries ≡ length journal.now.past) }
        ensures periods { IfOk result (λ s. s.periods
            ≡ period_number journal.now.opening journal.now.past - journal.now.opening.last) }
        ensures judged { IfOk result (λ s. s.judged.items ≡ judgements journal.now.opening journal.now.past) }
    {
        let judged = journal.judgements()?;
        let mut dropped = ReasonCounts::default();
        let mut refused = ReasonCounts::default();
        for place in 0..journal.len() {
            if let Some(called) = journal.called(place) {
                count(&called.reply, &mut dropped, &mut refused);
            }
        }
        Ok(JournalSummary {
            entries: journal.len(),
            periods: journal
                .last_number()
                .saturating_sub(journal.opening().last()),
            judged,
            dropped,
            refused,
        })
    }
}

/// Counts the reason of a reply that has one.
fn count(reply: &Reply, dropped: &mut ReasonCounts, refused: &mut ReasonCounts) {
    match reply {
        Reply::Dropped(why) => dropped.add(why.number()),
        Reply::Refused(why) => refused.add(why.number()),
        _ => {}
    }
}

/// A line for each thing that is told.
impl fmt::Display for JournalSummary {
    fn fmt<W: fmt::Write>(&self, f: &mut fmt::Formatter<W>) -> fmt::Result {
        let entries = self.entries;
        let periods = self.periods;
        write!(f, "entries {entries}\nperiods {periods}\n")?;
        for judged in self.judged.as_slice() {
            show_judged(judged, f)?;
        }
        show_dropped(&self.dropped, f)?;
        show_refused(&self.refused, f)
    }
}

fn show_judged<W: fmt::Write>(judged: &Judged, f: &mut fmt::Formatter<W>) -> fmt::Result {
    let member = judged.member.get();
    let number = judged.number;
    write!(f, "judged {member} in period {number}\n")
}

fn show_dropped<W: fmt::Write>(counts: &ReasonCounts, f: &mut fmt::Formatter<W>) -> fmt::Result {
    for number in 1..=MOST_NUMBER {
        if let Some(why) = dropped(u64::from(number)) {
            show_count(counts.of(number), format_args!("dropped {number} {why}"), f)?;
        }
    }
    Ok(())
}

fn show_refused<W: fmt::Write>(counts: &ReasonCounts, f: &mut fmt::Formatter<W>) -> fmt::Result {
    for number in 1..=MOST_NUMBER {
        if let Some(why) = refused(u64::from(number)) {
            show_count(counts.of(number), format_args!("refused {number} {why}"), f)?;
        }
    }
    Ok(())
}

/// The answers that no entry of a journal tells, a line for each kind.
impl fmt::Display for AnswerTally {
    fn fmt<W: fmt::Write>(&self, f: &mut fmt::Formatter<W>) -> fmt::Result {
        for number in 1..=MOST_NUMBER {
            if let Some(fault) = wire(u64::from(number)) {
                show_count(
                    self.wire.of(number),
                    format_args!("wire {number} {fault}"),
                    f,
                )?;
            }
        }
        show_count(self.full, "journal full", f)?;
        show_count(self.no_memory, "no memory", f)
    }
}

/// A line of a count that isn't 0.
fn show_count<W: fmt::Write, T: fmt::Display + Drop>(
    count: u32,
    what: T,
    f: &mut fmt::Formatter<W>,
) -> fmt::Result {
    if count == 0 {
        return Ok(());
    }
    write!(f, "{what}: {count}\n")
}
