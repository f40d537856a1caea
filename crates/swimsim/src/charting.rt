//! The picture of a probe that is traced, in a file.

use crate::drawing::open_picture;
use anyhow::{Result, anyhow};
use std::alloc::{AllocError, Global};
use swim_chart::{Arrow, Chart, Lane, Role, put_chart};
use swim_evidence::Evidence;
use swim_history::MOST_RELAYS;
use swim_text::{Sink, WriteSink};
use swim_trace::{Act, Case, Leg, Way, is_heard_on, is_passed_on};
use swim_verdicts::{Account, Choice, ConclusionText, TraceReport};

/// The judgement whose probe is drawn: the first of those that are written, with the file that tells it and the place
/// of that. If neither a member nor a period is named, there is one alone.
pub fn chosen<'r, 'p>(
    accounts: &'r [Account<'p>],
    choice: &Choice,
) -> Result<(u32, &'r Account<'p>, &'r Evidence)> {
    let count = count_judgements(accounts, choice);
    if choice.is_open() && count > 1 {
        return Err(anyhow!(
            "{count} judgements are traced: --judged or --period names one to be drawn"
        ));
    }
    let mut file = 0u32;
    for account in accounts {
        if let Some(evidence) = account.first_judgement(choice) {
            return Ok((file, account, evidence));
        }
        file = file.saturating_add(1);
    }
    Err(anyhow!("there is no judgement to be drawn"))
}

/// How many judgements are written.
fn count_judgements(accounts: &[Account<'_>], choice: &Choice) -> usize {
    let mut count = 0usize;
    for account in accounts {
        count = count.saturating_add(account.count_judgements(choice));
    }
    count
}

/// Draws a probe into the file of that path.
pub fn draw_probe(
    rt: &HostRuntime,
    path: &str,
    is_forced: bool,
    report: &TraceReport<'_, '_, '_>,
) -> Result<()> {
    let conclusion = ConclusionText(report);
    let conclusion = format!(in rt.alloc(); "{conclusion}")?;
    let lanes = lanes_of(rt.alloc(), &report.case)?;
    let arrows = arrows_of(rt.alloc(), report)?;
    let chart = Chart {
        probe: report.case.probe,
        judged: report.evidence.judged,
        relays: report.case.relays.len().min(MOST_RELAYS) as u32,
        conclusion: conclusion.as_str(),
        lanes: lanes.as_slice(),
        arrows: arrows.as_slice(),
    };
    let mut writer = WriteSink::new(open_picture(rt, path, is_forced)?);
    if put_chart(&mut writer, &chart) && writer.flush() {
        Ok(())
    } else {
        Err(anyhow!("the picture can't be written"))
    }
}

/// The lanes of a probe: the initiator's, the target's, and those of the relays as they were asked.
fn lanes_of(alloc: Global, case: &Case<'_>) -> Result<Vec<Lane>, AllocError> {
    let mut lanes = Vec::new(alloc);
    lanes.push(Lane {
        place: 0,
        member: case.probe.initiator,
    })?;
    lanes.push(Lane {
        place: 1,
        member: case.probe.target,
    })?;
    let mut place = 2u32;
    for relay in case.relays {
        lanes.push(Lane {
            place,
            member: relay.id,
        })?;
        place = place.saturating_add(1);
    }
    Ok(lanes)
}

/// The datagrams of a probe, each by its place among them.
fn arrows_of(alloc: Global, report: &TraceReport<'_, '_, '_>) -> Result<Vec<Arrow>, AllocError> {
    let mut arrows = Vec::new(alloc);
    let mut place = 0u32;
    for way in report.ways {
        arrows.push(arrow_of(report, place, way))?;
        place = place.saturating_add(1);
    }
    Ok(arrows)
}

/// A datagram: what it is there for, what became of it, and by which entries.
fn arrow_of(report: &TraceReport<'_, '_, '_>, place: u32, way: &Way) -> Arrow {
    let hearing = hearing_of(&report.case, &way.leg);
    Arrow {
        role: Role::at(place),
        way: *way,
        is_late: match hearing {
            Some(act) => report.is_late(act),
            None => false,
        },
        sent: sent_by(report, &way.leg),
        heard: place_of(hearing),
    }
}

/// The first entry that sent a datagram.
fn sent_by(report: &TraceReport<'_, '_, '_>, leg: &Leg) -> Option<u32> {
    match leg.cause(&report.case.probe) {
        None => Some(report.begun(leg).place),
        Some(cause) => place_of(passing_of(&report.case, &cause)),
    }
}

fn place_of(act: Option<&Act>) -> Option<u32> {
    match act {
        Some(act) => Some(act.spot.place),
        None => None,
    }
}

/// The first entry that heard a datagram and answered or counted it, or if there is none, the first that heard it.
fn hearing_of<'c>(case: &Case<'c>, leg: &Leg) -> Option<&'c Act> {
    let passing = passing_of(case, leg);
    if passing.is_some() {
        return passing;
    }
    for act in case.acts {
        if is_heard_on(&case.probe, leg, act) {
            return Some(act);
        }
    }
    None
}

/// The first entry that heard a datagram and answered or counted it.
fn passing_of<'c>(case: &Case<'c>, leg: &Leg) -> Option<&'c Act> {
    for act in case.acts {
        if is_passed_on(&case.probe, leg, act) {
            return Some(act);
        }
    }
    None
}
