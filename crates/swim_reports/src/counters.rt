//! What a daemon counts, as it is told to whoever asks for it, and in the metrics' file.

ghost use Rattle.std.specs.Prelude.{◌≡◌, ◌≤◌, IfSome, length, map};
ghost use Rattle.swim_config.specs.Fingerprints.{fingerprint_of};
ghost use Rattle.swim_reports.specs.Figures.{IsOutside, IsStats};

use crate::bulletins::{Bulletin, Counted};
use crate::refusals::Refusals;
use crate::text_sinks::TextSink;
use std::sync::Wait;
use swim_config::{Config, fingerprint};
use swim_control::StatsText;
use swim_guard::{RingKeys, StrangerCounts, Strangers};
use swim_keys::{GroupKey, MOST_KEYS};
use swim_metrics::{FileFigures, Fingerprints, Measures, Outside, put_stats};
use swim_outcomes::VERSION;
use swim_wire::Id;
use swim_writer::Remarks;

/// What the metrics tell of a configuration.
#[derive(Clone, Copy)]
struct Facts {
    me: Id,
    tick_ms: u32,
    period: u32,
    journal: u32,
}

impl Facts {
    /// Those of this configuration.
    fn of(config: &Config) -> Facts
        ensures me { result.me ≡ config.now.opening.me }
        ensures tick_ms { result.tick_ms ≡ config.now.tick_ms }
        ensures period { result.period ≡ config.now.opening.period }
        ensures journal { result.journal ≡ config.now.journal }
    {
        Facts {
            me: config.opening.me(),
            tick_ms: config.tick_ms,
            period: config.opening.period(),
            journal: config.journal,
        }
    }
}

/// Where all counts of a daemon stand, and what its journal file is to remark. Its threads share it.
#[derive(Drop)]
pub struct Counters {
    /// What was counted of journals, and the changes that wait to be told.
    pub bulletin: Bulletin,
    /// What was thrown away.
    pub strangers: Strangers,
    /// The connections that were turned away.
    pub refusals: Refusals,
    pub(crate) remarks: Remarks,
    facts: Facts,
}

impl Counters {
    /// Nothing was counted yet.
    pub fn new(config: &Config) -> Counters {
        Counters {
            bulletin: Bulletin::new(),
            strangers: Strangers::new(),
            refusals: Refusals::new(),
            remarks: Remarks::new(),
            facts: Facts::of(config),
        }
    }

    /// What was counted by now, as it is told to an operator: lines, and a dot in the last one. Beside that, how journal
    /// files stand, where lives have some, and which keys are in force.
    pub fn stats<R: Wait>(&self, rt: &R, files: Option<FileFigures>, keys: &RingKeys) -> StatsText
        ensures { IsStats self.now.facts files keys.now.items result.items }
    {
        let mut sink = TextSink::new();
        if let Some(figures) = self.figures(rt, files, keys) {
            if put_stats(&mut sink, figures.measures(), &figures.outside()) {
                return sink.into_text();
            }
        }
        // In the sink's own room: a text is large, and one more may be too much for the stack.
        sink.restart_with(b".\n");
        sink.into_text()
    }

    /// What was counted by now, with how journal files stand and which keys are in force. `None` before the first life.
    pub fn figures<R: Wait>(
        &self,
        rt: &R,
        files: Option<FileFigures>,
        keys: &RingKeys,
    ) -> Option<Figures>
        ensures facts { IfSome result (λ figures. figures.facts ≡ self.now.facts) }
        ensures files { IfSome result (λ figures. figures.files ≡ files) }
        ensures keys { IfSome result (λ figures. figures.fingerprints.items ≡ map fingerprint_of keys.now.items) }
    {
        Some(Figures {
            counted: self.bulletin.counted(rt)?,
            strangers: self.strangers.counts(),
            unwritten: self.bulletin.unwritten(),
            files,
            fingerprints: fingerprints_of(keys.as_slice()),
            facts: self.facts,
        })
    }
}

/// What was counted at a moment, with what is told of the configuration. It borrows nothing, so that another thread may
/// be handed it.
#[derive(Drop)]
pub struct Figures {
    counted: Counted,
    strangers: StrangerCounts,
    unwritten: u64,
    fingerprints: Fingerprints,
    files: Option<FileFigures>,
    facts: Facts,
}

impl Figures {
    /// What is told of entries.
    pub fn measures(&self) -> &Measures
        ensures { result.now ≡ self.now.counted.measures }
    {
        &self.counted.measures
    }

    /// What is told beside them.
    pub fn outside(&self) -> Outside<'_>
        ensures { IsOutside self.now result }
    {
        let (facts, counted) = (&self.facts, &self.counted);
        let totals = &counted.totals;
        Outside {
            version: VERSION,
            me: facts.me,
            tick_ms: facts.tick_ms,
            period: facts.period,
            journal_limit: facts.journal,
            behind: counted.behind,
            unsent: totals.unsent,
            wire: totals.wire,
            refused: totals.refused,
            forged: self.strangers.forged,
            fenced: self.strangers.fenced,
            fingerprints: &self.fingerprints,
            watchers: counted.watchers,
            lost_watchers: totals.lost,
            knocks: totals.knocks,
            own_joins: counted.own_joins,
            unwritten: self.unwritten,
            files: self.files,
        }
    }
}

/// The fingerprints of these keys, in their order.
fn fingerprints_of(keys: &[GroupKey]) -> Fingerprints
    requires { length keys.now ≤ MOST_KEYS }
    ensures { result.items ≡ map fingerprint_of keys.now }
{
    let mut fingerprints = Fingerprints::new();
    for key in keys {
        fingerprints.push(fingerprint(key));
    }
    fingerprints
}
