//! The lines that tell what became of the datagrams of a probe.

use crate::accounts::{Account, EntryName};
use crate::meanings::kind_name;
use crate::presences::Clock;
use std::fmt;
use swim_evidence::Evidence;
use swim_trace::{
    Act, Answer, Case, Conclusion, Deed, Fate, Leg, Pace, Presence, Spot, Way, is_heard_on,
    is_passed_on,
};
use swim_wire::Kind;

/// What is known of a probe after which its target was judged failed.
#[derive(Clone, Copy)]
pub struct TraceReport<'t, 'a, 'p> {
    pub accounts: &'a [Account<'p>],
    /// The place of the initiator's file among these.
    pub file: u32,
    /// What the judgement rests on.
    pub evidence: &'t Evidence,
    pub case: Case<'t>,
    /// What became of each datagram.
    pub ways: &'t [Way],
    pub conclusion: Conclusion,
    /// Whether the target's clock went on, where that is known.
    pub clock: Option<Clock>,
}

impl<'t, 'a, 'p> fmt::Display for TraceReport<'t, 'a, 'p> {
    fn fmt<W: fmt::Write>(&self, f: &mut fmt::Formatter<W>) -> fmt::Result {
        let initiator = self.case.probe.initiator.get();
        let target = self.case.probe.target.get();
        let number = self.case.probe.number;
        write!(f, "{initiator} judged {target} in period {number}\n")?;
        for way in self.ways {
            if way.fate != Fate::Unsent {
                self.show_way(way, f)?;
            }
        }
        if let Some(clock) = &self.clock {
            self.show_clock(clock, f)?;
        }
        f.write_str("  so ")?;
        self.show_conclusion(f)?;
        f.write_str("\n")
    }
}

/// What is concluded of a probe, alone.
#[derive(Clone, Copy)]
pub struct ConclusionText<'r, 't, 'a, 'p>(pub &'r TraceReport<'t, 'a, 'p>);

impl<'r, 't, 'a, 'p> fmt::Display for ConclusionText<'r, 't, 'a, 'p> {
    fn fmt<W: fmt::Write>(&self, f: &mut fmt::Formatter<W>) -> fmt::Result {
        self.0.show_conclusion(f)
    }
}

impl<'t, 'a, 'p> TraceReport<'t, 'a, 'p> {
    /// The line of a datagram that was sent or heard, or of which neither is known.
    fn show_way<W: fmt::Write>(&self, way: &Way, f: &mut fmt::Formatter<W>) -> fmt::Result {
        let leg = &way.leg;
        let from = leg.from.get();
        let to = leg.to.get();
        f.write_str("  ")?;
        show_leg(leg, f)?;
        f.write_str(": ")?;
        if self.case.is_sent(leg) {
            self.show_sent(leg, f)?;
        } else if way.fate == Fate::Contradicted {
            write!(f, "never sent by {from}")?;
        } else {
            write!(f, "no journal of {from} was given")?;
        }
        match way.fate {
            Fate::Lost => write!(f, "; lost: {to} never heard it")?,
            Fate::Untold if self.case.is_sent(leg) => {
                write!(f, "; no journal of {to} was given")?;
            }
            Fate::Untold | Fate::Unsent => {}
            Fate::Passed | Fate::Dropped | Fate::Contradicted => self.show_heard(leg, f)?,
        }
        f.write_str("\n")
    }

    /// Where a datagram was sent.
    fn show_sent<W: fmt::Write>(&self, leg: &Leg, f: &mut fmt::Formatter<W>) -> fmt::Result {
        let Some(cause) = leg.cause(&self.case.probe) else {
            return self.show_begun(leg, f);
        };
        let mut before = "sent at";
        for act in self.case.acts {
            if is_passed_on(&self.case.probe, &cause, act) {
                let entry = self.entry(act.spot);
                write!(f, "{before} {entry}")?;
                before = " and at";
            }
        }
        Ok(())
    }

    /// Where the initiator sent a datagram by itself.
    fn show_begun<W: fmt::Write>(&self, leg: &Leg, f: &mut fmt::Formatter<W>) -> fmt::Result {
        let spot = self.begun(leg);
        let entry = self.entry(spot);
        write!(f, "sent at {entry}")?;
        let account = self.accounts.get(spot.file as usize);
        match account.and_then(|account| account.time(spot.place)) {
            Some(time) => write!(f, " ({time})"),
            None => Ok(()),
        }
    }

    /// The entry by which the initiator sent a datagram by itself: the start of the period, or the one that asked.
    pub fn begun(&self, leg: &Leg) -> Spot {
        let place = match (leg.kind, &self.evidence.ask) {
            (Kind::PingReq, Some(ask)) => ask.place,
            _ => self.evidence.probed,
        };
        let file = self.file;
        Spot { file, place }
    }

    /// Where a datagram came, and what it was answered.
    fn show_heard<W: fmt::Write>(&self, leg: &Leg, f: &mut fmt::Formatter<W>) -> fmt::Result {
        let mut before = "; heard at";
        for act in self.case.acts {
            if is_heard_on(&self.case.probe, leg, act) {
                let entry = self.entry(act.spot);
                write!(f, "{before} {entry}")?;
                self.show_answer(act, f)?;
                before = ", and at";
            }
        }
        Ok(())
    }

    /// What a message was answered.
    fn show_answer<W: fmt::Write>(&self, act: &Act, f: &mut fmt::Formatter<W>) -> fmt::Result {
        let Deed::Heard(hearing) = &act.deed else {
            return Ok(());
        };
        match hearing.answer {
            Answer::Sent if hearing.kind == Kind::Ping => f.write_str(", answered"),
            Answer::Sent => f.write_str(", forwarded"),
            Answer::Counted => f.write_str(", counted"),
            Answer::Dropped(why) if self.is_late(act) => {
                let judged = self.evidence.judged;
                let number = why.number();
                write!(
                    f,
                    ", dropped {number} {why}, as the period ended at entry {judged}"
                )
            }
            Answer::Dropped(why) => {
                let number = why.number();
                write!(f, ", dropped {number} {why}")
            }
        }
    }

    /// Whether an entry stands behind the end of the period, in the file that tells the judgement.
    pub fn is_late(&self, act: &Act) -> bool {
        act.spot.file == self.file && act.spot.place > self.evidence.judged
    }

    /// What is concluded.
    fn show_conclusion<W: fmt::Write>(&self, f: &mut fmt::Formatter<W>) -> fmt::Result {
        let initiator = self.case.probe.initiator.get();
        let target = self.case.probe.target.get();
        let number = self.case.probe.number;
        match &self.conclusion {
            Conclusion::Twofold => write!(
                f,
                "{initiator} probed {target} more than once in a period {number}: it is unknown which datagram belongs to which probe"
            ),
            Conclusion::Contradicted(leg) => {
                let from = leg.from.get();
                f.write_str("the journals contradict each other: ")?;
                show_leg(leg, f)?;
                write!(f, " arrived, but {from} never sent it")
            }
            Conclusion::Missing => write!(
                f,
                "no journal of {target} was given: it is unknown whether a ping reached it"
            ),
            Conclusion::Answered(count) => {
                let pings = plural(*count, "ping", "pings");
                let how = self.how_it_lived();
                write!(
                    f,
                    "{target} was alive{how}: it answered {count} {pings} of this probe"
                )?;
                self.show_broken(f)
            }
            Conclusion::Unreached(count) => {
                let paths = plural(*count, "path", "paths");
                let how = self.how_it_was_missed();
                write!(f, "{target} {how}: no ping reached it on {count} {paths}")?;
                self.show_broken(f)
            }
        }
    }

    /// How the target's clock went, beside the initiator's.
    fn show_clock<W: fmt::Write>(&self, clock: &Clock, f: &mut fmt::Formatter<W>) -> fmt::Result {
        match &clock.presence {
            Presence::Unknown => Ok(()),
            Presence::Ran(pace) => self.show_pace(clock.file, pace, "it kept running", f),
            Presence::StoodStill(pace) => self.show_pace(clock.file, pace, "it stood still", f),
            Presence::Ended(pace) => self.show_pace(clock.file, pace, "its journal ends", f),
        }
    }

    fn show_pace<W: fmt::Write>(
        &self,
        file: u32,
        pace: &Pace,
        what: &str,
        f: &mut fmt::Formatter<W>,
    ) -> fmt::Result {
        let target = self.case.probe.target.get();
        let initiator = self.case.probe.initiator.get();
        let place = pace.before.place;
        let entry = self.entry(Spot { file, place });
        let had = pace.had;
        let due = pace.due;
        write!(
            f,
            "  clock of {target}: {had} ticks from {entry} on, where {initiator} had {due}: {what}\n"
        )
    }

    /// What is said of the time in which the target answered.
    fn how_it_lived(&self) -> &'static str {
        match self.presence() {
            Some(Presence::StoodStill(_)) => " but stood still",
            _ => "",
        }
    }

    /// What is said of the time in which nothing came to the target.
    fn how_it_was_missed(&self) -> &'static str {
        match self.presence() {
            Some(Presence::Ran(_)) => "was cut off",
            Some(Presence::StoodStill(_)) => "stood still",
            Some(Presence::Ended(_)) => "had ended",
            Some(Presence::Unknown) | None => "was not reached",
        }
    }

    fn presence(&self) -> Option<&Presence> {
        match &self.clock {
            Some(clock) => Some(&clock.presence),
            None => None,
        }
    }

    /// Where the ways broke.
    fn show_broken<W: fmt::Write>(&self, f: &mut fmt::Formatter<W>) -> fmt::Result {
        for way in self.ways {
            if let Some(what) = self.break_name(way) {
                write!(f, "; {what} ")?;
                show_leg(&way.leg, f)?;
            }
        }
        Ok(())
    }

    /// How a way broke, if it did.
    fn break_name(&self, way: &Way) -> Option<&'static str> {
        match way.fate {
            Fate::Lost => Some("lost"),
            Fate::Dropped if way.leg.to == self.case.probe.initiator => Some("late"),
            Fate::Dropped => Some("dropped"),
            Fate::Passed | Fate::Unsent | Fate::Contradicted | Fate::Untold => None,
        }
    }

    fn entry(&self, spot: Spot) -> EntryName<'a, 'p> {
        EntryName {
            spot,
            accounts: self.accounts,
        }
    }
}

/// A way, as in `ping 1 -> 3`.
fn show_leg<W: fmt::Write>(leg: &Leg, f: &mut fmt::Formatter<W>) -> fmt::Result {
    let kind = kind_name(leg.kind);
    let from = leg.from.get();
    let to = leg.to.get();
    write!(f, "{kind} {from} -> {to}")
}

fn plural(count: usize, one: &'static str, more: &'static str) -> &'static str {
    if count == 1 { one } else { more }
}
