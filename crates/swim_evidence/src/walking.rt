//! A journal, gone through from its oldest entry.

ghost use Rattle.std.specs.Prelude.{◌≡◌, IfOk, [], length, reverse, take};
ghost use Rattle.swim_evidence.specs.Evidence.{findings, judged_by_starts, judgements_told};
ghost use Rattle.swim_history.specs.Judgement.{judgements};

use crate::findings::Findings;
use crate::trails::Trail;
use std::alloc::{AllocError, Global};
use swim_history::Journal;

/// What the first entries of a journal tell of judgements, in order: so many, `confirmed`, or all that there are. What
/// later ones tell is left out. `Err` only where memory was refused.
pub fn findings_of(alloc: Global, journal: &Journal, confirmed: u32) -> Result<Findings, AllocError>
    ensures findings { IfOk result (λ found. found.findings.items
        ≡ findings journal.now.opening (reverse (take confirmed (reverse journal.now.past)))) }

    // These judgements are all that there are, each by the rule.
    ensures judgements { IfOk result (λ found. judgements_told found.findings.items
        ≡ judgements journal.now.opening (reverse (take confirmed (reverse journal.now.past)))) }
    ensures periods { IfOk result (λ found. found.periods
        ≡ length (judged_by_starts (reverse (take confirmed (reverse journal.now.past))))) }
{
    if confirmed >= journal.len() && journal.judged_count() == 0 {
        return Ok(nothing_found(alloc, journal));
    }
    walk(alloc, journal, confirmed)
}

/// What all entries of a journal tell that judge nobody.
fn nothing_found(alloc: Global, journal: &Journal) -> Findings
    requires { judgements journal.now.opening journal.now.past ≡ [] }
    ensures findings { result.findings.items ≡ findings journal.now.opening journal.now.past }
    ensures judgements { judgements_told result.findings.items ≡ judgements journal.now.opening journal.now.past }
    ensures periods { result.periods ≡ length (judged_by_starts journal.now.past) }
{
    let began = journal.last_number() - journal.opening().last();
    Findings {
        periods: began as usize,
        findings: Vec::new(alloc),
    }
}

/// What the first entries tell, gone through one by one.
fn walk(alloc: Global, journal: &Journal, confirmed: u32) -> Result<Findings, AllocError>
    ensures findings { IfOk result (λ found. found.findings.items
        ≡ findings journal.now.opening (reverse (take confirmed (reverse journal.now.past)))) }
    ensures judgements { IfOk result (λ found. judgements_told found.findings.items
        ≡ judgements journal.now.opening (reverse (take confirmed (reverse journal.now.past)))) }
    ensures periods { IfOk result (λ found. found.periods
        ≡ length (judged_by_starts (reverse (take confirmed (reverse journal.now.past))))) }
{
    let mut trail = Trail::new(alloc, journal.opening());
    for place in 0..confirmed.min(journal.len()) {
        if let Some(called) = journal.called(place) {
            trail.note(place, called)?;
        }
    }
    Ok(trail.into_findings())
}
