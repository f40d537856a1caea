//! A journal as it is gone through, entry by entry.

ghost use Rattle.std.specs.Prelude.{◌≡◌, ◌∷◌, ◌++◌, [], ◌-◌, List, Option, Some, None, OnOk, length, map, slice_get};
ghost use Rattle.swim_history.specs.declared.entries.Choice.{Choice};
ghost use Rattle.swim_history.specs.declared.entries.Entry.{Entry};
ghost use Rattle.swim_history.specs.Called.{entry_of};
ghost use Rattle.swim_history.specs.Setting.{Setting};
ghost use Rattle.swim_evidence.specs.Evidence.{evidence, is_judged, is_probed, late, of_probed, probing_by, stray_in};
ghost use Rattle.swim_evidence.specs.Trail.{Follows};

use crate::findings::{Ask, Evidence, Finding, Findings, Stray};
use std::alloc::{AllocError, Global};
use swim_history::{Call, Called, DropReason, Opening, Probe, Reply};
use swim_wire::Id;

/// A start that probed, and its place.
#[derive(Clone, Copy)]
pub struct Probing {
    pub place: u32,
    pub probe: Probe,
}

/// What is known of the entries gone through: of the period that runs who was probed, who was asked, and which acks of
/// that member were strays; whom each start judged; and what was found.
#[derive(Drop)]
pub struct Trail {
    pub last: u64,
    pub probing: Option<Probing>,
    pub ask: Option<Ask>,
    pub strays: Vec<Stray>,
    pub judged: Vec<Option<Id>>,
    pub findings: Vec<Finding>,
}

impl Trail {
    /// The trail of no entry.
    pub fn new(alloc: Global, opening: &Opening) -> Trail
        ensures { Follows opening.now [] result }
    {
        Trail {
            last: opening.last(),
            probing: None,
            ask: None,
            strays: Vec::new(alloc),
            judged: Vec::new(alloc),
            findings: Vec::new(alloc),
        }
    }

    /// Goes one entry on, which stands at that place and has this call and this reply. `Err` only where memory was
    /// refused.
    pub fn note(&mut self, place: u32, called: Called) -> Result<(), AllocError>
        ensures { (o : Setting) (h : List Entry) (choice : Choice) → Follows o h self.old → place ≡ length h →
            OnOk result (Follows o (entry_of called choice ∷ h) self.new) }
    {
        match called.reply {
            Reply::Started { judged, probe } => self.start(place, judged, probe),
            Reply::Asked { relays, .. } => {
                self.ask = Some(Ask { place, relays });
                Ok(())
            }
            Reply::Dropped(DropReason::Stray) => self.note_stray(place, called.call),
            _ => Ok(()),
        }
    }

    /// What was found.
    pub fn into_findings(self) -> Findings
        ensures findings { result.findings.items ≡ self.findings.items }
        ensures periods { result.periods ≡ length self.judged.items }
    {
        Findings {
            periods: self.judged.len(),
            findings: self.findings,
        }
    }

    /// A period ends, and the next begins.
    fn start(
        &mut self,
        place: u32,
        judged: Option<Id>,
        probe: Option<Probe>,
    ) -> Result<(), AllocError>
        ensures last { OnOk result (self.new.last ≡ self.old.last) }
        ensures probing { OnOk result (self.new.probing ≡ probing_by place probe) }
        ensures ask { OnOk result (self.new.ask ≡ None) }
        ensures strays { OnOk result (self.new.strays.items ≡ []) }
        ensures judged { OnOk result (self.new.judged.items ≡ self.old.judged.items ++ judged ∷ []) }
        ensures findings { OnOk result (self.new.findings.items ≡ self.old.findings.items
            ++ evidence place self.old.ask self.old.strays.items judged self.old.probing) }
    {
        let ask = self.ask.take();
        if let (Some(member), Some(probing)) = (judged, self.probing) {
            self.findings.push(Finding::Judged(Evidence {
                member,
                number: probing.probe.number,
                probed: probing.place,
                ask,
                judged: place,
            }))?;
            add_others(&mut self.findings, self.strays.as_slice())?;
        }
        self.strays.clear();
        self.judged.push(judged)?;
        self.probing = probe.map(|probe| Probing { place, probe });
        Ok(())
    }

    /// An ack came that wasn't one of the aim for the period that runs.
    fn note_stray(&mut self, place: u32, call: Call) -> Result<(), AllocError>
        ensures last { OnOk result (self.new.last ≡ self.old.last) }
        ensures probing { OnOk result (self.new.probing ≡ self.old.probing) }
        ensures ask { OnOk result (self.new.ask ≡ self.old.ask) }
        ensures strays { OnOk result (self.new.strays.items ≡ self.old.strays.items
            ++ of_probed self.old.probing (stray_in place call (Reply.Dropped DropReason.Stray))) }
        ensures judged { OnOk result (self.new.judged.items ≡ self.old.judged.items) }
        ensures findings { OnOk result (self.new.findings.items ≡ self.old.findings.items
            ++ late self.old.judged.items self.old.last (stray_in place call (Reply.Dropped DropReason.Stray))) }
    {
        match stray_at(place, call) {
            Some(stray) => self.add_stray(&stray),
            None => Ok(()),
        }
    }

    fn add_stray(&mut self, stray: &Stray) -> Result<(), AllocError>
        ensures last { OnOk result (self.new.last ≡ self.old.last) }
        ensures probing { OnOk result (self.new.probing ≡ self.old.probing) }
        ensures ask { OnOk result (self.new.ask ≡ self.old.ask) }
        ensures strays { OnOk result (self.new.strays.items
            ≡ self.old.strays.items ++ of_probed self.old.probing (Some stray.now)) }
        ensures judged { OnOk result (self.new.judged.items ≡ self.old.judged.items) }
        ensures findings { OnOk result (self.new.findings.items
            ≡ self.old.findings.items ++ late self.old.judged.items self.old.last (Some stray.now)) }
    {
        if self.is_late(stray) {
            self.findings.push(Finding::Late(*stray))?;
        }
        if self.is_of_probed(stray) {
            self.strays.push(*stray)?;
        }
        Ok(())
    }

    /// Whether its member was judged failed at the end of the period that it is for.
    fn is_late(&self, stray: &Stray) -> bool
        ensures { result ≡ is_judged (slice_get self.now.judged.items (stray.now.number - self.now.last)) stray.now.member }
    {
        let ended = stray.number.saturating_sub(self.last);
        match self.judged.get(ended as usize) {
            Some(Some(judged)) => *judged == stray.member,
            _ => false,
        }
    }

    /// Whether it is one of the member that was probed when the period began.
    fn is_of_probed(&self, stray: &Stray) -> bool
        ensures { result ≡ is_probed self.now.probing stray.now.member }
    {
        match self.probing {
            Some(probing) => probing.probe.target == stray.member,
            None => false,
        }
    }
}

/// Adds the strays of a member that was judged.
fn add_others(findings: &mut Vec<Finding>, strays: &[Stray]) -> Result<(), AllocError>
    ensures { OnOk result (findings.new.items ≡ findings.old.items ++ map Finding.Other strays.now) }
{
    for stray in strays {
        findings.push(Finding::Other(*stray))?;
    }
    Ok(())
}

/// The stray that a call was, which was dropped as one.
fn stray_at(place: u32, call: Call) -> Option<Stray>
    ensures { result ≡ stray_in place call (Reply.Dropped DropReason.Stray) }
{
    match call {
        Call::Hear(_, message) => Some(Stray {
            place,
            member: message.target,
            number: message.number.get(),
        }),
        _ => None,
    }
}
