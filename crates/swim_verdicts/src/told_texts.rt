//! The words, the time and the picture of a page about a verdict. Contracts don't say their bytes, but of what each was
//! written: only this file can make such a text.

ghost use Rattle.std.specs.Prelude.{◌≡◌, ◌∷◌, [], IfOk, string_bytes};
ghost use Rattle.swim_verdicts.specs.ToldTexts.{Draws, IsOf, IsPicture};
ghost use Rattle.swim_verdicts.specs.declared.told_texts.TextKind.TheVariants.{Words, Time};

use crate::examining::Played;
use crate::probe_times::time_of;
use crate::reports::show_finding;
use std::alloc::{AllocError, Global};
use std::fmt;
use std::marker::Model;
use swim_evidence::{Evidence, Finding};
use swim_history::Journal;
use swim_text::Page as Text;
use swim_timeline::{Span, View, put_timeline};
use swim_trail::{Remembered, Trail};

/// What a text is to tell of a verdict.
#[derive(Clone, Copy)]
pub enum TextKind {
    /// The lines of the report that have to do with it.
    Words,
    /// When its probe was sent.
    Time,
}

/// Of what a text was written: a verdict of a file that was played.
#[derive(Drop)]
pub struct OfVerdict {
    kind: TextKind,
    played: Remembered<Played>,
    evidence: Remembered<Evidence>,
}

impl Model for OfVerdict {
    ghost use Rattle.std.specs.Coded.{codes};
    ghost use Rattle.swim_verdicts.specs.contracts.examining.Played as file;
    ghost use Rattle.swim_verdicts.specs.ToldTexts.{Subject};

    ghost Value = { Subject };

    ghost coded = { Prim.hlevel (codes, file.the_row.coded) };

    ghost view = { λ o. record { kind = o.kind; played = o.played.value; evidence = o.evidence.value } };
}

/// Of what a picture was drawn: some ticks of a file that was played.
#[derive(Drop)]
pub struct OfTicks {
    played: Remembered<Played>,
    span: Span,
}

impl Model for OfTicks {
    ghost use Rattle.std.specs.Coded.{codes};
    ghost use Rattle.swim_verdicts.specs.contracts.examining.Played as file;
    ghost use Rattle.swim_verdicts.specs.ToldTexts.{Ticks};

    ghost Value = { Ticks };

    ghost coded = { Prim.hlevel (codes, file.the_row.coded) };

    ghost view = { λ o. record { played = o.played.value; span = o.span } };
}

/// Writes the words on a verdict: the lines of the report that have to do with it.
pub(crate) fn tell_words(
    alloc: Global,
    played: &Played,
    evidence: &Evidence,
) -> Result<(String, Trail<OfVerdict>), AllocError>
    ensures { IfOk result (λ told. IsOf Words played.now evidence.now told.1.items (string_bytes told.0)) }
{
    let lines = VerdictLines { played, evidence };
    let words = format!(in alloc; "{lines}")?;
    let told = noted(TextKind::Words, played, evidence, words.as_str());
    Ok((words, told))
}

/// Writes when the probe of a verdict was sent, as RFC 3339 has it; nothing if the file tells no time.
pub(crate) fn tell_time(
    alloc: Global,
    played: &Played,
    evidence: &Evidence,
) -> Result<(String, Trail<OfVerdict>), AllocError>
    ensures { IfOk result (λ told. IsOf Time played.now evidence.now told.1.items (string_bytes told.0)) }
{
    let time = time_of(alloc, played, evidence)?;
    let told = noted(TextKind::Time, played, evidence, time.as_str());
    Ok((time, told))
}

/// Notes of what a text was written.
fn noted(kind: TextKind, played: &Played, evidence: &Evidence, text: &str) -> Trail<OfVerdict>
    ensures { IsOf kind played.now evidence.now result.items text.now }
{
    let of = OfVerdict {
        kind,
        played: Remembered::of(played),
        evidence: Remembered::of(evidence),
    };
    let mut told = Trail::new();
    told.note(&of, text.as_bytes());
    told
}

/// Draws the picture of the periods of a file round a verdict. Without a journal it is empty.
pub(crate) fn picture_round(
    alloc: Global,
    played: &Played,
    evidence: &Evidence,
) -> Result<(Text, Trail<OfTicks>), AllocError>
    ensures { IfOk result (λ drawn. IsPicture played.now evidence.now drawn.1.items drawn.0.text) }
{
    match &played.journal {
        Some(journal) => {
            let span = Span::of(journal, View::At(evidence.member, evidence.number))?;
            draw_if_any(alloc, played, journal, span)
        }
        None => Ok(no_picture(alloc)),
    }
}

/// Draws the picture of ticks of a file's journal, if there are any.
fn draw_if_any(
    alloc: Global,
    played: &Played,
    journal: &Journal,
    span: Option<Span>,
) -> Result<(Text, Trail<OfTicks>), AllocError>
    ensures { IfOk result (λ drawn. Draws played.now span drawn.1.items drawn.0.text) }
{
    match span {
        Some(span) => draw(alloc, played, journal, span),
        None => Ok(no_picture(alloc)),
    }
}

/// Draws the picture of these ticks of a file's journal, with the times that the file tells.
fn draw(
    alloc: Global,
    played: &Played,
    journal: &Journal,
    span: Span,
) -> Result<(Text, Trail<OfTicks>), AllocError>
    ensures { IfOk result (λ drawn. drawn.1.items ≡ (record { played = played.now; span = span }, drawn.0.text) ∷ []) }
{
    let mut picture = Text::new(alloc);
    let times = &played.witness.times;
    if !put_timeline(alloc, journal, span, times, &mut picture)? {
        return Err(AllocError);
    }
    let of = OfTicks {
        played: Remembered::of(played),
        span,
    };
    let mut drawn = Trail::new();
    drawn.note(&of, picture.text());
    Ok((picture, drawn))
}

fn no_picture(alloc: Global) -> (Text, Trail<OfTicks>)
    ensures text { result.0.text ≡ [] }
    ensures drawn { result.1.items ≡ [] }
{
    (Text::new(alloc), Trail::new())
}

/// The lines of a file's report that have to do with a verdict.
#[derive(Clone, Copy)]
struct VerdictLines<'a> {
    played: &'a Played,
    evidence: &'a Evidence,
}

impl<'a> fmt::Display for VerdictLines<'a> {
    fn fmt<W: fmt::Write>(&self, f: &mut fmt::Formatter<W>) -> fmt::Result {
        let Ok(found) = &self.played.found else {
            return Ok(());
        };
        for finding in found.findings.as_slice() {
            if concerns(self.evidence, finding) {
                show_finding(finding, &self.played.witness.times, f)?;
            }
        }
        Ok(())
    }
}

/// Whether a finding is the verdict, an ack that came in its period, or an ack of its probe that came too late.
fn concerns(evidence: &Evidence, finding: &Finding) -> bool {
    match finding {
        Finding::Judged(other) => other.judged == evidence.judged,
        Finding::Other(stray) => stray.place > evidence.probed && stray.place < evidence.judged,
        Finding::Late(stray) => stray.member == evidence.member && stray.number == evidence.number,
    }
}
