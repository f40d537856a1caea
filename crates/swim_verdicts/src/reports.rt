//! What is told of a journal file that was verified.

use crate::examining::Played;
use std::fmt;
use swim_evidence::{Ask, Evidence, Finding, Findings, Stray};
use swim_timeline::{StartTime, Times};

/// Why an ack doesn't count that came in the period at whose end its member was judged.
pub(crate) const OTHER_PERIOD: &str = "another period";

/// Why one doesn't that came behind the judgement.
pub(crate) const TOO_LATE: &str = "too late";

/// How much is told of a journal file.
#[derive(Clone, Copy, PartialEq, Eq)]
pub enum Extent {
    /// How many entries, periods and judgements it has.
    Counts,
    /// These, and the evidence of each judgement.
    Evidence,
}

/// What a journal file tells, as lines.
#[derive(Drop)]
pub struct Report<'a> {
    extent: Extent,
    pub(crate) path: &'a str,
    /// How many entries were played.
    pub(crate) entries: u32,
    /// How many of them are confirmed, from the first on.
    pub(crate) confirmed: u32,
    /// What these tell.
    pub(crate) found: &'a Findings,
    /// When periods began, by the places of their starts.
    pub(crate) times: &'a Times,
}

impl<'a> Report<'a> {
    /// What is told of a file that was played; `None` where memory to find it out was refused.
    pub fn of(path: &'a str, played: &'a Played, extent: Extent) -> Option<Report<'a>> {
        match &played.found {
            Ok(found) => Some(Report {
                extent,
                path,
                entries: played.journal.as_ref().map_or(0, |journal| journal.len()),
                confirmed: played.witness.confirmations.confirmed,
                found,
                times: &played.witness.times,
            }),
            Err(_) => None,
        }
    }

    /// How many judgements it tells.
    pub(crate) fn judged(&self) -> usize {
        let findings = self.found.findings.as_slice();
        findings
            .iter()
            .filter(|finding| is_judgement(finding))
            .count()
    }
}

impl<'a> fmt::Display for Report<'a> {
    fn fmt<W: fmt::Write>(&self, f: &mut fmt::Formatter<W>) -> fmt::Result {
        let path = self.path;
        let entries = self.entries;
        let confirmed = self.confirmed;
        let periods = self.found.periods;
        let judged = self.judged();
        write!(
            f,
            "{path}: entries {entries} confirmed {confirmed} periods {periods} judged {judged}\n"
        )?;
        if self.extent == Extent::Counts {
            return Ok(());
        }
        for finding in self.found.findings.as_slice() {
            show_finding(finding, self.times, f)?;
        }
        Ok(())
    }
}

fn is_judgement(finding: &Finding) -> bool {
    match finding {
        Finding::Judged(_) => true,
        Finding::Other(_) | Finding::Late(_) => false,
    }
}

/// The line of a finding, with the time of its probe if a comment of the file told it.
pub(crate) fn show_finding<W: fmt::Write>(
    finding: &Finding,
    times: &Times,
    f: &mut fmt::Formatter<W>,
) -> fmt::Result {
    match finding {
        Finding::Judged(evidence) => show_judgement(evidence, times.get(&evidence.probed), f),
        Finding::Other(stray) => show_stray(stray, OTHER_PERIOD, f),
        Finding::Late(stray) => show_stray(stray, TOO_LATE, f),
    }
}

fn show_judgement<W: fmt::Write>(
    evidence: &Evidence,
    time: Option<&StartTime>,
    f: &mut fmt::Formatter<W>,
) -> fmt::Result {
    let member = evidence.member.get();
    let number = evidence.number;
    let probed = evidence.probed;
    let judged = evidence.judged;
    write!(
        f,
        "judged {member} in period {number}: probed at entry {probed}"
    )?;
    if let Some(time) = time {
        write!(f, " ({time})")?;
    }
    if let Some(ask) = &evidence.ask {
        show_ask(ask, f)?;
    }
    write!(f, ", no ack of period {number} until entry {judged}\n")
}

fn show_ask<W: fmt::Write>(ask: &Ask, f: &mut fmt::Formatter<W>) -> fmt::Result {
    if ask.relays.is_empty() {
        f.write_str(", no relays")?;
    }
    let mut before = ", relays";
    for relay in ask.relays.as_slice() {
        let id = relay.id.get();
        write!(f, "{before} {id}")?;
        before = ",";
    }
    let place = ask.place;
    write!(f, " asked at entry {place}")
}

fn show_stray<W: fmt::Write>(stray: &Stray, what: &str, f: &mut fmt::Formatter<W>) -> fmt::Result {
    let member = stray.member.get();
    let number = stray.number;
    let place = stray.place;
    write!(
        f,
        "ack of {member} for period {number} at entry {place}: {what}\n"
    )
}
