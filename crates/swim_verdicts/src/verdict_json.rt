//! The objects of JSON that tell what a journal file comes to which was verified.

use crate::json_texts::JsonText;
use crate::reports::{OTHER_PERIOD, TOO_LATE};
use std::fmt;
use swim_evidence::{Ask, Evidence, Finding, Stray};
use swim_history::Relay;

/// The object of a file: what it tells in numbers, and how it stands.
#[derive(Clone, Copy)]
pub(crate) struct FileObject<'a> {
    pub path: &'a str,
    pub entries: u32,
    pub confirmed: u32,
    pub periods: usize,
    pub judged: usize,
    pub standing: StandingKeys,
}

impl<'a> fmt::Display for FileObject<'a> {
    ghost use Rattle.std.specs.Prelude.{Some};
    ghost use Rattle.swim_verdicts.specs.VerdictJson.{file_text};

    ghost output = { λ o. Some (file_text o.path.now o.entries o.confirmed o.periods o.judged o.standing) };

    fn fmt<W: fmt::Write>(&self, f: &mut fmt::Formatter<W>) -> fmt::Result {
        let path = JsonText(self.path);
        let entries = self.entries;
        let confirmed = self.confirmed;
        let periods = self.periods;
        let judged = self.judged;
        let standing = self.standing;
        write!(
            f,
            "{{\"file\":{path},\"entries\":{entries},\"confirmed\":{confirmed},\"periods\":{periods},\"judged\":{judged}{standing}}}\n"
        )
    }
}

/// How a file stands: whether nothing speaks against it, whether it ends in the midst, and whether it begins a new
/// start of its daemon.
#[derive(Clone, Copy)]
pub(crate) struct StandingKeys {
    pub is_sound: bool,
    pub is_cut: bool,
    pub is_new_start: bool,
}

impl fmt::Display for StandingKeys {
    ghost use Rattle.std.specs.Prelude.{Some};
    ghost use Rattle.swim_verdicts.specs.VerdictJson.{standing_keys};

    ghost output = { λ s. Some (standing_keys s) };

    fn fmt<W: fmt::Write>(&self, f: &mut fmt::Formatter<W>) -> fmt::Result {
        let is_sound = self.is_sound;
        let is_cut = self.is_cut;
        let is_new_start = self.is_new_start;
        write!(
            f,
            ",\"sound\":{is_sound},\"cut\":{is_cut},\"new_start\":{is_new_start}"
        )
    }
}

/// The object of a finding, with the time of a judgement's probe as the file has it, which is empty if the file tells
/// none.
#[derive(Clone, Copy)]
pub(crate) struct FindingObject<'a> {
    pub path: &'a str,
    pub finding: &'a Finding,
    pub time: &'a str,
}

impl<'a> fmt::Display for FindingObject<'a> {
    ghost use Rattle.std.specs.Prelude.{Some};
    ghost use Rattle.swim_verdicts.specs.VerdictJson.{finding_text};

    ghost output = { λ o. Some (finding_text o.path.now o.finding.now o.time.now) };

    fn fmt<W: fmt::Write>(&self, f: &mut fmt::Formatter<W>) -> fmt::Result {
        let path = self.path;
        let time = self.time;
        match self.finding {
            Finding::Judged(evidence) => {
                let object = JudgementObject {
                    path,
                    evidence,
                    time,
                };
                write!(f, "{object}")
            }
            Finding::Other(stray) => {
                let why = OTHER_PERIOD;
                let object = AckObject { path, stray, why };
                write!(f, "{object}")
            }
            Finding::Late(stray) => {
                let why = TOO_LATE;
                let object = AckObject { path, stray, why };
                write!(f, "{object}")
            }
        }
    }
}

/// The object of a judgement.
#[derive(Clone, Copy)]
struct JudgementObject<'a> {
    path: &'a str,
    evidence: &'a Evidence,
    time: &'a str,
}

impl<'a> fmt::Display for JudgementObject<'a> {
    ghost use Rattle.std.specs.Prelude.{Some};
    ghost use Rattle.swim_verdicts.specs.VerdictJson.{judgement_text};

    ghost output = { λ o. Some (judgement_text o.path.now o.evidence.now o.time.now) };

    fn fmt<W: fmt::Write>(&self, f: &mut fmt::Formatter<W>) -> fmt::Result {
        let path = self.path;
        let evidence = self.evidence;
        let member = evidence.member.get();
        let number = evidence.number;
        let probed = Spot {
            path,
            place: evidence.probed,
        };
        let time = TimeKey(self.time);
        let asked = AskKeys {
            path,
            ask: &evidence.ask,
        };
        let until = Spot {
            path,
            place: evidence.judged,
        };
        write!(
            f,
            "{{\"judged\":{member},\"period\":{number},\"probed\":{probed}{time}{asked},\"until\":{until}}}\n"
        )
    }
}

/// The object of an ack that didn't count, and why.
#[derive(Clone, Copy)]
struct AckObject<'a> {
    path: &'a str,
    stray: &'a Stray,
    why: &'a str,
}

impl<'a> fmt::Display for AckObject<'a> {
    ghost use Rattle.std.specs.Prelude.{Some};
    ghost use Rattle.swim_verdicts.specs.VerdictJson.{ack_text};

    ghost output = { λ o. Some (ack_text o.path.now o.stray.now o.why.now) };

    fn fmt<W: fmt::Write>(&self, f: &mut fmt::Formatter<W>) -> fmt::Result {
        let member = self.stray.member.get();
        let number = self.stray.number;
        let at = Spot {
            path: self.path,
            place: self.stray.place,
        };
        let why = self.why;
        write!(
            f,
            "{{\"ack\":{member},\"period\":{number},\"at\":{at},\"why\":\"{why}\"}}\n"
        )
    }
}

/// The object of an entry of a file.
#[derive(Clone, Copy)]
struct Spot<'a> {
    path: &'a str,
    place: u32,
}

impl<'a> fmt::Display for Spot<'a> {
    ghost use Rattle.std.specs.Prelude.{Some};
    ghost use Rattle.swim_verdicts.specs.VerdictJson.{spot_text};

    ghost output = { λ s. Some (spot_text s.path.now s.place) };

    fn fmt<W: fmt::Write>(&self, f: &mut fmt::Formatter<W>) -> fmt::Result {
        let path = JsonText(self.path);
        let place = self.place;
        write!(f, "{{\"file\":{path},\"entry\":{place}}}")
    }
}

/// The key of a time, if there is one.
#[derive(Clone, Copy)]
struct TimeKey<'a>(&'a str);

impl<'a> fmt::Display for TimeKey<'a> {
    ghost use Rattle.std.specs.Prelude.{Some};
    ghost use Rattle.swim_verdicts.specs.VerdictJson.{time_key};

    ghost output = { λ t. Some (time_key t.0.now) };

    fn fmt<W: fmt::Write>(&self, f: &mut fmt::Formatter<W>) -> fmt::Result {
        let time = self.0;
        match time.as_bytes() {
            [] => Ok(()),
            _ => write!(f, ",\"time\":{time}"),
        }
    }
}

/// The keys of who was asked and in which entry, if anybody was to be.
#[derive(Clone, Copy)]
struct AskKeys<'a> {
    path: &'a str,
    ask: &'a Option<Ask>,
}

impl<'a> fmt::Display for AskKeys<'a> {
    ghost use Rattle.std.specs.Prelude.{Some};
    ghost use Rattle.swim_verdicts.specs.VerdictJson.{ask_keys};

    ghost output = { λ a. Some (ask_keys a.path.now a.ask.now) };

    fn fmt<W: fmt::Write>(&self, f: &mut fmt::Formatter<W>) -> fmt::Result {
        let Some(ask) = self.ask else {
            return Ok(());
        };
        let relays = Ids(ask.relays.as_slice());
        let asked = Spot {
            path: self.path,
            place: ask.place,
        };
        write!(f, ",\"relays\":[{relays}],\"asked\":{asked}")
    }
}

/// The ids of relays, with commas between.
#[derive(Clone, Copy)]
struct Ids<'a>(&'a [Relay]);

impl<'a> fmt::Display for Ids<'a> {
    ghost use Rattle.std.specs.Prelude.{Some, []};
    ghost use Rattle.swim_verdicts.specs.VerdictJson.{ids_behind};

    ghost output = { λ ids. Some (ids_behind [] ids.0.now) };

    fn fmt<W: fmt::Write>(&self, f: &mut fmt::Formatter<W>) -> fmt::Result {
        let mut before = "";
        for relay in self.0 {
            let id = relay.id.get();
            write!(f, "{before}{id}")?;
            before = ",";
        }
        Ok(())
    }
}
