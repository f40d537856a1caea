//! What became of the datagrams of a probe, as JSON.

use crate::accounts::Account;
use crate::json_texts::JsonText;
use crate::meanings::kind_name;
use crate::presences::Clock;
use crate::trace_lines::TraceReport;
use std::fmt;
use swim_evidence::Standing;
use swim_trace::{
    Act, Answer, Conclusion, Deed, Fate, Leg, Pace, Presence, Spot, Way, is_heard_on, is_passed_on,
};

/// The object of a file that was played: whose it is, how many entries are confirmed, and whether something speaks
/// against it.
#[derive(Clone, Copy)]
pub struct JsonFile<'f, 'a> {
    pub account: &'f Account<'a>,
    pub standing: Standing,
}

impl<'f, 'a> fmt::Display for JsonFile<'f, 'a> {
    fn fmt<W: fmt::Write>(&self, f: &mut fmt::Formatter<W>) -> fmt::Result {
        let path = JsonText(self.account.path);
        let member = self.account.member.get();
        let confirmed = self.account.confirmed();
        let is_sound = self.standing == Standing::Sound;
        write!(
            f,
            "{{\"file\":{path},\"member\":{member},\"confirmed\":{confirmed},\"sound\":{is_sound}}}\n"
        )
    }
}

/// The object of a judgement.
#[derive(Clone, Copy)]
pub struct JsonTrace<'r, 't, 'a, 'p>(pub &'r TraceReport<'t, 'a, 'p>);

impl<'r, 't, 'a, 'p> fmt::Display for JsonTrace<'r, 't, 'a, 'p> {
    fn fmt<W: fmt::Write>(&self, f: &mut fmt::Formatter<W>) -> fmt::Result {
        self.0.show_object(f)
    }
}

impl<'t, 'a, 'p> TraceReport<'t, 'a, 'p> {
    /// The object of a judgement.
    fn show_object<W: fmt::Write>(&self, f: &mut fmt::Formatter<W>) -> fmt::Result {
        let initiator = self.case.probe.initiator.get();
        let target = self.case.probe.target.get();
        let number = self.case.probe.number;
        write!(
            f,
            "{{\"initiator\":{initiator},\"target\":{target},\"period\":{number},\"judged\":"
        )?;
        self.show_spot(
            Spot {
                file: self.file,
                place: self.evidence.judged,
            },
            f,
        )?;
        f.write_str("}")?;
        let mut before = ",\"datagrams\":[";
        for way in self.ways {
            f.write_str(before)?;
            self.show_way_object(way, f)?;
            before = ",";
        }
        f.write_str("]")?;
        if let Some(clock) = &self.clock {
            self.show_clock_object(clock, f)?;
        }
        show_conclusion(&self.conclusion, f)?;
        f.write_str("}\n")
    }

    /// The object of a datagram.
    fn show_way_object<W: fmt::Write>(&self, way: &Way, f: &mut fmt::Formatter<W>) -> fmt::Result {
        f.write_str("{")?;
        show_leg_keys(&way.leg, f)?;
        f.write_str(",\"fate\":\"")?;
        f.write_str(fate_name(way.fate))?;
        f.write_str("\",\"sent\":[")?;
        self.show_senders(&way.leg, f)?;
        f.write_str("],\"heard\":[")?;
        let mut before = "";
        for act in self.case.acts {
            if is_heard_on(&self.case.probe, &way.leg, act) {
                f.write_str(before)?;
                self.show_hearer(act, f)?;
                before = ",";
            }
        }
        f.write_str("]}")
    }

    /// The entries that sent a datagram.
    fn show_senders<W: fmt::Write>(&self, leg: &Leg, f: &mut fmt::Formatter<W>) -> fmt::Result {
        let Some(cause) = leg.cause(&self.case.probe) else {
            self.show_spot(self.begun(leg), f)?;
            return f.write_str("}");
        };
        let mut before = "";
        for act in self.case.acts {
            if is_passed_on(&self.case.probe, &cause, act) {
                f.write_str(before)?;
                self.show_spot(act.spot, f)?;
                f.write_str("}")?;
                before = ",";
            }
        }
        Ok(())
    }

    /// An entry that heard a datagram, with its answer.
    fn show_hearer<W: fmt::Write>(&self, act: &Act, f: &mut fmt::Formatter<W>) -> fmt::Result {
        self.show_spot(act.spot, f)?;
        match &act.deed {
            Deed::Heard(hearing) => match hearing.answer {
                Answer::Sent => f.write_str(",\"answer\":\"sent\"}"),
                Answer::Counted => f.write_str(",\"answer\":\"heard\"}"),
                Answer::Dropped(why) => {
                    let number = why.number();
                    write!(f, ",\"answer\":\"dropped {number}\"}}")
                }
            },
            Deed::Probed => f.write_str("}"),
        }
    }

    /// The object of an entry, without its end.
    fn show_spot<W: fmt::Write>(&self, spot: Spot, f: &mut fmt::Formatter<W>) -> fmt::Result {
        let path = match self.accounts.get(spot.file as usize) {
            Some(account) => JsonText(account.path),
            None => JsonText(""),
        };
        let place = spot.place;
        write!(f, "{{\"file\":{path},\"entry\":{place}")
    }

    /// How the target's clock went.
    fn show_clock_object<W: fmt::Write>(
        &self,
        clock: &Clock,
        f: &mut fmt::Formatter<W>,
    ) -> fmt::Result {
        match &clock.presence {
            Presence::Unknown => Ok(()),
            Presence::Ran(pace) => self.show_pace_object(clock.file, pace, "running", f),
            Presence::StoodStill(pace) => self.show_pace_object(clock.file, pace, "still", f),
            Presence::Ended(pace) => self.show_pace_object(clock.file, pace, "ended", f),
        }
    }

    fn show_pace_object<W: fmt::Write>(
        &self,
        file: u32,
        pace: &Pace,
        what: &str,
        f: &mut fmt::Formatter<W>,
    ) -> fmt::Result {
        let had = pace.had;
        let due = pace.due;
        let place = pace.before.place;
        write!(
            f,
            ",\"clock\":{{\"is\":\"{what}\",\"ticks\":{had},\"due\":{due},\"since\":"
        )?;
        self.show_spot(Spot { file, place }, f)?;
        f.write_str("}}")
    }
}

fn fate_name(fate: Fate) -> &'static str {
    match fate {
        Fate::Passed => "passed",
        Fate::Dropped => "dropped",
        Fate::Lost => "lost",
        Fate::Unsent => "unsent",
        Fate::Contradicted => "never sent",
        Fate::Untold => "unknown",
    }
}

/// What is concluded, with its number or its way.
fn show_conclusion<W: fmt::Write>(
    conclusion: &Conclusion,
    f: &mut fmt::Formatter<W>,
) -> fmt::Result {
    match conclusion {
        Conclusion::Twofold => f.write_str(",\"so\":\"ambiguous\""),
        Conclusion::Contradicted(leg) => {
            f.write_str(",\"so\":\"contradiction\",")?;
            show_leg_keys(leg, f)
        }
        Conclusion::Missing => f.write_str(",\"so\":\"no journal\""),
        Conclusion::Answered(count) => write!(f, ",\"so\":\"alive\",\"answers\":{count}"),
        Conclusion::Unreached(count) => write!(f, ",\"so\":\"not reached\",\"paths\":{count}"),
    }
}

/// The keys of a datagram's kind, and of who sent it to whom.
fn show_leg_keys<W: fmt::Write>(leg: &Leg, f: &mut fmt::Formatter<W>) -> fmt::Result {
    let kind = kind_name(leg.kind);
    let from = leg.from.get();
    let to = leg.to.get();
    write!(f, "\"kind\":\"{kind}\",\"from\":{from},\"to\":{to}")
}
