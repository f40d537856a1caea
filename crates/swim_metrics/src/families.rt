//! The values of the metrics. With what stands in front of them, both texts follow.

ghost use Rattle.std.specs.Prelude.{◌≡◌, ◌*◌};
ghost use Rattle.swim_metrics.specs.Families.{family_of, samples_by};
ghost use Rattle.swim_metrics.specs.Told.{samples_of};

use crate::dropped::Dropped;
use crate::heads::{Metric, MetricKind};
use crate::measures::Measures;
use crate::member_figures::MemberFigures;
use crate::outside::{Fingerprints, Outside};
use crate::wait_histograms::Waits;

/// What is told of each member.
#[derive(Clone, Copy)]
pub(crate) enum Column {
    Up,
    Heard,
    Acks,
    Verdicts,
    Asked,
}

/// The values of a metric.
#[derive(Clone, Copy)]
pub(crate) enum Samples<'a> {
    One(u64),
    /// A time in milliseconds, which is told in seconds.
    Milliseconds(u64),
    Version(&'a str),
    States {
        up: u64,
        failed: u64,
    },
    Acks {
        directly: u64,
        by_relay: u64,
    },
    Dropped(&'a Dropped),
    /// The keys of the group.
    Keys(&'a Fingerprints),
    Waits(&'a Waits),
    Members(Column, &'a [MemberFigures]),
    OddSenders {
        unlisted: u64,
        own_id: u64,
        elsewhere: u64,
    },
}

/// What the table says of a metric.
#[derive(Clone, Copy)]
pub(crate) struct Family<'a> {
    pub(crate) name: &'static str,
    /// What it tells.
    pub(crate) help: &'static str,
    pub(crate) kind: MetricKind,
    pub(crate) samples: Samples<'a>,
}

impl Metric {
    /// What is told of it.
    pub(crate) fn family<'a>(self, measures: &'a Measures, outside: &Outside<'a>) -> Family<'a>
        ensures name { result.name.now ≡ (family_of measures.now outside.now self).name }
        ensures help { result.help.now ≡ (family_of measures.now outside.now self).help }
        ensures kind { result.kind ≡ (family_of measures.now outside.now self).kind }
        ensures samples { samples_of result.samples ≡ (family_of measures.now outside.now self).samples }
    {
        let head = self.head();
        Family {
            name: head.name,
            help: head.help,
            kind: head.kind,
            samples: self.samples(measures, outside),
        }
    }

    /// Its values.
    fn samples<'a>(self, measures: &'a Measures, outside: &Outside<'a>) -> Samples<'a>
        ensures { samples_of result ≡ samples_by measures.now outside.now self }
    {
        let (counts, members) = (&measures.counts, measures.members.as_slice());
        match self {
            Metric::Build => Samples::Version(outside.version),
            Metric::Member => Samples::One(u64::from(outside.me.get())),
            Metric::Members => Samples::States {
                up: measures.up,
                failed: measures.failed,
            },
            Metric::PeriodNumber => Samples::One(measures.number),
            Metric::PeriodSeconds => Samples::Milliseconds(length_of(
                outside.period,
                outside.tick_ms,
            )),
            Metric::TickSeconds => Samples::Milliseconds(u64::from(outside.tick_ms)),
            Metric::Ticks => Samples::One(counts.ticks),
            Metric::PingsSent => Samples::One(counts.pings_sent),
            Metric::PingsHeard => Samples::One(counts.pings_heard),
            Metric::AcksHeard => Samples::Acks {
                directly: counts.heard_directly,
                by_relay: counts.heard_by_relay,
            },
            Metric::LateAcks => Samples::One(counts.acks_late),
            Metric::AsksSent => Samples::One(counts.asks_sent),
            Metric::RequestsServed => Samples::One(counts.requests_served),
            Metric::Dropped => Samples::Dropped(&counts.dropped),
            Metric::OddSenders => Samples::OddSenders {
                unlisted: measures.odd.unlisted.count,
                own_id: measures.odd.own_id.count,
                elsewhere: measures.odd.elsewhere.count,
            },
            Metric::Verdicts => Samples::One(counts.verdicts),
            Metric::Joins => Samples::One(counts.joins),
            Metric::OwnJoins => Samples::One(outside.own_joins),
            Metric::Removals => Samples::One(counts.removals),
            Metric::Knocks => Samples::One(outside.knocks),
            Metric::Lives => Samples::One(counts.lives),
            Metric::Entries => Samples::One(counts.entries),
            Metric::EntriesLimit => Samples::One(u64::from(outside.journal_limit)),
            Metric::EntriesBehind => Samples::One(outside.behind),
            Metric::Unsent => Samples::One(outside.unsent),
            Metric::Wire => Samples::One(outside.wire),
            Metric::Refused => Samples::One(outside.refused),
            Metric::Forged => Samples::One(outside.forged),
            Metric::Fenced => Samples::One(outside.fenced),
            Metric::Key => Samples::Keys(outside.fingerprints),
            Metric::Watchers => Samples::One(outside.watchers),
            Metric::LostWatchers => Samples::One(outside.lost_watchers),
            Metric::Unwritten => Samples::One(outside.unwritten),
            Metric::MemberUp => Samples::Members(Column::Up, members),
            Metric::MemberHeard => Samples::Members(Column::Heard, members),
            Metric::MemberAcks => Samples::Members(Column::Acks, members),
            Metric::MemberVerdicts => Samples::Members(Column::Verdicts, members),
            Metric::MemberAsked => Samples::Members(Column::Asked, members),
            Metric::JournalFileOk => Samples::One(u64::from(outside.is_file_ok())),
            Metric::JournalFilesCut => Samples::One(outside.files_cut()),
            Metric::AckWait => Samples::Waits(&counts.waits),
        }
    }
}

/// How long so many ticks last, in milliseconds.
fn length_of(ticks: u32, tick_ms: u32) -> u64
    ensures { result ≡ tick_ms * ticks }
{
    u64::from(tick_ms) * u64::from(ticks)
}
