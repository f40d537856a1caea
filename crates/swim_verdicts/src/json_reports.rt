//! What is told of a journal file that was verified, as JSON.

ghost use Rattle.std.specs.Prelude.{IfSome};
ghost use Rattle.swim_verdicts.specs.VerdictJson.{AreKeysOf};

use crate::examining::Played;
use crate::reports::{Extent, Report};
use crate::verdict_json::{FileObject, FindingObject, StandingKeys};
use arrayvec::ArrayString;
use std::fmt::{self, Write};
use swim_evidence::{Finding, Verdict};
use swim_timeline::{StartTime, Times};

/// Room for a time: a number of 64 bits, a point and three digits.
const TIME_BYTES: usize = 32;

/// What a journal file tells, as objects of JSON, each on a line: one of the file, and one of each finding.
#[derive(Drop)]
pub struct JsonReport<'a> {
    report: Report<'a>,
    standing: StandingKeys,
}

impl<'a> JsonReport<'a> {
    /// What is told of a file that was played, and that begins a new start of its daemon or doesn't; `None` where memory
    /// to find it out was refused.
    pub fn of(path: &'a str, played: &'a Played, is_new_start: bool) -> Option<JsonReport<'a>>
        ensures stands { IfSome result (λ report. AreKeysOf played.now is_new_start report.standing) }
    {
        let report = Report::of(path, played, Extent::Evidence)?;
        let standing = keys_of(played, is_new_start);
        Some(JsonReport { report, standing })
    }
}

/// How a file stands that was played, and that begins a new start or doesn't.
fn keys_of(played: &Played, is_new_start: bool) -> StandingKeys
    ensures { AreKeysOf played.now is_new_start result }
{
    match played.verdict() {
        Verdict::Whole => StandingKeys {
            is_sound: true,
            is_cut: false,
            is_new_start,
        },
        Verdict::Cut => StandingKeys {
            is_sound: true,
            is_cut: true,
            is_new_start,
        },
        _ => StandingKeys {
            is_sound: false,
            is_cut: false,
            is_new_start,
        },
    }
}

impl<'a> fmt::Display for JsonReport<'a> {
    fn fmt<W: fmt::Write>(&self, f: &mut fmt::Formatter<W>) -> fmt::Result {
        let report = &self.report;
        let file = FileObject {
            path: report.path,
            entries: report.entries,
            confirmed: report.confirmed,
            periods: report.found.periods,
            judged: report.judged(),
            standing: self.standing,
        };
        write!(f, "{file}")?;
        for finding in report.found.findings.as_slice() {
            show_finding(report.path, finding, report.times, f)?;
        }
        Ok(())
    }
}

/// The object of a finding.
fn show_finding<W: fmt::Write>(
    path: &str,
    finding: &Finding,
    times: &Times,
    f: &mut fmt::Formatter<W>,
) -> fmt::Result {
    let mut text: ArrayString<TIME_BYTES> = ArrayString::new();
    if let Some(time) = time_of(finding, times) {
        write!(text, "{time}")?;
    }
    let object = FindingObject {
        path,
        finding,
        time: text.as_str(),
    };
    write!(f, "{object}")
}

/// When the probe of a judgement was sent, if a comment of the file told it.
fn time_of(finding: &Finding, times: &Times) -> Option<StartTime> {
    match finding {
        Finding::Judged(evidence) => times.get(&evidence.probed).copied(),
        Finding::Other(_) | Finding::Late(_) => None,
    }
}
