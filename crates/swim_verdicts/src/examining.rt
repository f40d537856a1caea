//! Journal files as they are played: their verdicts, and what is seen of them.

ghost use Rattle.std.specs.Prelude.{◌≡◌, ◌↔◌, ◌⊎◌, IfOk, IsSome};
ghost use Rattle.swim_evidence.specs.declared.verdicts.Standing.TheVariants as standings;
ghost use Rattle.swim_verdicts.specs.Verifying.{ends_in_midst, fault_met, header_end, is_want, wants_memory};
ghost use Rattle.swim_verdicts.specs.Examined.{FindsConfirmed, IsCutFile, IsStarvedFile, IsVerdictOn, IsWholeFile};
ghost use Rattle.swim_verdicts.specs.Examined.{header_of, is_starved, left_of, told_by};

use crate::unheard::play_unheard;
use crate::whole_lines::{LentLines, WholeLines};
use crate::witness::{FileEnd, Witness};
use std::alloc::{AllocError, Global};
use std::cell::RefCell;
use std::io::Read;
use swim_evidence::{
    Findings, Header, HeaderEnd, Heading, Left, Seen, Verdict, findings_of, verdict_on,
};
use swim_history::{Journal, Opening};
use swim_script::{FaultKind, LineFault, ScriptFault, Session};

/// A journal file that was played.
#[derive(Drop)]
pub struct Played {
    pub outcome: Result<(), ScriptFault>,
    pub journal: Option<Journal>,
    pub witness: Witness,
    /// What its confirmed entries tell; `Err` where memory for that was refused.
    pub found: Result<Findings, AllocError>,
}

/// Plays a file to its end, to its first fault, or to the first call that is refused memory.
pub fn play<R: Read + Drop>(alloc: Global, file: R) -> Played
    ensures { FindsConfirmed result }
{
    let lines = RefCell::new(WholeLines::new(alloc, file));
    let mut session = Session::new(alloc);
    let outcome = play_unheard(&mut session, LentLines::new(&lines));
    let witness = lines.into_inner().into_witness(outcome);
    let journal = session.into_journal();
    let found = find(alloc, &journal, witness.confirmations.confirmed);
    Played {
        outcome,
        journal,
        witness,
        found,
    }
}

/// What the confirmed entries of a journal tell.
fn find(alloc: Global, journal: &Option<Journal>, confirmed: u32) -> Result<Findings, AllocError>
    ensures { IfOk result (λ found. found.findings.items ≡ told_by journal.now confirmed) }
{
    match journal {
        Some(journal) => findings_of(alloc, journal, confirmed),
        None => Ok(Findings {
            periods: 0,
            findings: Vec::new(alloc),
        }),
    }
}

impl Played {
    /// What is seen of it.
    #[tactic(auto, using(crate::proofs::Starving::starved_where))]
    pub fn seen(&self) -> Seen
        // Nothing speaks against it exactly where it is whole or cut,
        ensures sound { (result.standing ≡ standings.Sound) ↔ (IsWholeFile self.now ⊎ IsCutFile self.now) }

        // want of memory is told apart from a fault,
        ensures starved { (result.standing ≡ standings.Starved) ↔ IsStarvedFile self.now }

        // and what its life left is known only where it is whole.
        ensures whole { IsWholeFile self.now → result.left ≡ left_of self.now }
        ensures left { IsSome result.left → IsWholeFile self.now }
        ensures header { result.header ≡ header_of self.now }
    {
        let verdict = self.verdict();
        Seen {
            standing: verdict.standing(),
            header: self.header(),
            left: match verdict {
                Verdict::Whole => self.left(),
                _ => None,
            },
        }
    }

    /// The verdict on it.
    pub fn verdict(&self) -> Verdict<ScriptFault>
        ensures { IsVerdictOn self.now result }
    {
        let fault = fault_met(self.outcome, self.witness.end, self.witness.lines);
        let is_cut = ends_in_midst(self.outcome, self.witness.end);
        verdict_on(
            fault,
            self.is_starved(),
            is_cut,
            &self.witness.confirmations,
        )
    }

    /// Whether memory was refused: to play it, to keep a time, or to find out what it tells.
    fn is_starved(&self) -> bool
        ensures { result ≡ is_starved self.now }
    {
        wants_memory(self.outcome) || self.witness.kept.is_err() || self.found.is_err()
    }

    /// Its header, where a line told an opening that isn't refused.
    fn header(&self) -> Option<Header>
        ensures { result ≡ header_of self.now }
    {
        match (&self.journal, &self.witness.heading) {
            (Some(journal), Some(heading)) => Some(Header {
                opening: journal.opening().copy(),
                heading: *heading,
                end: header_end(self.witness.has_calls(), heading, self.witness.end),
            }),
            _ => None,
        }
    }

    /// What its life left.
    fn left(&self) -> Option<Left>
        ensures { result ≡ left_of self.now }
    {
        match (&self.journal, &self.witness.heading) {
            (Some(journal), Some(heading)) => Some(Left {
                opening: Opening::after(journal),
                heading: *heading,
            }),
            _ => None,
        }
    }
}

/// How far a header is told: by a file with calls or without, which ends so.
fn header_end(has_calls: bool, heading: &Heading, end: FileEnd) -> HeaderEnd
    ensures { result ≡ header_end has_calls heading.now.draw end }
{
    if has_calls || heading.draw.is_some() {
        return HeaderEnd::Told;
    }
    match end {
        FileEnd::Whole => HeaderEnd::Open,
        FileEnd::Unmet | FileEnd::Cut | FileEnd::Long | FileEnd::Foreign | FileEnd::Failed => {
            HeaderEnd::Cut
        }
    }
}

/// The fault of a file that was played with that outcome, and ended so behind so many lines. That no line tells an
/// opening is none: such a file is cut. Nor is want of memory.
fn fault_met(outcome: Result<(), ScriptFault>, end: FileEnd, lines: u32) -> Option<ScriptFault>
    ensures { result ≡ fault_met outcome end lines }
{
    match (end, outcome) {
        (FileEnd::Foreign, _) => Some(ScriptFault {
            line: 1,
            kind: FaultKind::Words(LineFault::Word),
        }),
        (FileEnd::Long, _) => Some(ScriptFault {
            line: lines.saturating_add(1),
            kind: FaultKind::Long,
        }),
        (_, Err(fault)) if fault.line > 0 && !is_want(fault.kind) => Some(fault),
        _ => None,
    }
}

/// Whether the run ended for want of memory.
fn wants_memory(outcome: Result<(), ScriptFault>) -> bool
    ensures { result ≡ wants_memory outcome }
{
    match outcome {
        Ok(()) => false,
        Err(fault) => is_want(fault.kind),
    }
}

/// Whether a fault is want of memory, where a call that was refused memory is told as one whose answer can't be
/// written.
fn is_want(kind: FaultKind) -> bool
    ensures { result ≡ is_want kind }
{
    match kind {
        FaultKind::Memory | FaultKind::Write => true,
        FaultKind::Size
        | FaultKind::Long
        | FaultKind::Words(_)
        | FaultKind::Opening(_)
        | FaultKind::Unused
        | FaultKind::Differs
        | FaultKind::Read => false,
    }
}

/// Whether it ended in the midst of a line, or before a line told its opening.
fn ends_in_midst(outcome: Result<(), ScriptFault>, end: FileEnd) -> bool
    ensures { result ≡ ends_in_midst outcome end }
{
    match (end, outcome) {
        (FileEnd::Cut, _) => true,
        (_, Err(fault)) => fault.line == 0,
        (_, Ok(())) => false,
    }
}
