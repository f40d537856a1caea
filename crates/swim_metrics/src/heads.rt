//! What each metric is called, what it tells, and how it is to be read.

ghost use Rattle.std.specs.Prelude.{◌≡◌};
ghost use Rattle.swim_metrics.specs.Heads.{head_of};

/// A metric: what is told of a daemon.
#[derive(Clone, Copy, Debug, PartialEq, Eq)]
pub enum Metric {
    /// The version of the daemon.
    Build,
    /// This member's id.
    Member,
    /// How many members are up, and how many failed.
    Members,
    /// The number of the period that runs.
    PeriodNumber,
    /// How long a period lasts.
    PeriodSeconds,
    /// How long a tick lasts.
    TickSeconds,
    /// Ticks that were accepted.
    Ticks,
    /// Pings that were sent.
    PingsSent,
    /// Pings that came.
    PingsHeard,
    /// Acks of own probes that came in time.
    AcksHeard,
    /// Acks of own probes that came too late.
    LateAcks,
    /// Relays that were asked.
    AsksSent,
    /// Requests of others that were served.
    RequestsServed,
    /// Messages that were dropped.
    Dropped,
    /// Messages whose senders aren't as the table has them.
    OddSenders,
    /// How long acks were waited for.
    AckWait,
    /// Members that were judged failed.
    Verdicts,
    /// Members that joined.
    Joins,
    /// Joins that the daemon made by itself.
    OwnJoins,
    /// Members that were removed.
    Removals,
    /// Pings to failed members beside the probes.
    Knocks,
    /// Lives that began.
    Lives,
    /// Entries of this life.
    Entries,
    /// The most entries of a life.
    EntriesLimit,
    /// Entries that weren't read yet.
    EntriesBehind,
    /// Datagrams that couldn't be sent.
    Unsent,
    /// Datagrams that are no message.
    Wire,
    /// Calls that were refused for want of memory.
    Refused,
    /// Datagrams without a tag by a key of the group.
    Forged,
    /// Datagrams above the rate.
    Fenced,
    /// The keys of the group.
    Key,
    /// Who watches now.
    Watchers,
    /// Watchers that didn't keep up.
    LostWatchers,
    /// Times that the metrics couldn't be written to their file.
    Unwritten,
    /// Whether each member is up.
    MemberUp,
    /// When each was last heard.
    MemberHeard,
    /// Acks of each that came in time.
    MemberAcks,
    /// How often each was judged failed.
    MemberVerdicts,
    /// How often each was asked as a relay.
    MemberAsked,
    /// Whether the newest life's file is whole so far.
    JournalFileOk,
    /// Lives without a whole file.
    JournalFilesCut,
}

/// How a metric is to be read.
#[derive(Clone, Copy, Debug, PartialEq, Eq)]
pub enum MetricKind {
    /// It only grows.
    Counter,
    /// It grows and falls.
    Gauge,
    /// It counts by size.
    Histogram,
}

/// What stands in front of the values of a metric.
#[derive(Clone, Copy)]
pub struct Head {
    /// Its name.
    pub name: &'static str,
    /// What it tells, in a line.
    pub help: &'static str,
    /// How it is to be read.
    pub kind: MetricKind,
}

/// All metrics, in the order in which they are told.
pub const ALL_METRICS: [Metric; 41] = [
    Metric::Build,
    Metric::Member,
    Metric::Members,
    Metric::PeriodNumber,
    Metric::PeriodSeconds,
    Metric::TickSeconds,
    Metric::Ticks,
    Metric::PingsSent,
    Metric::PingsHeard,
    Metric::AcksHeard,
    Metric::LateAcks,
    Metric::AsksSent,
    Metric::RequestsServed,
    Metric::Dropped,
    Metric::OddSenders,
    Metric::AckWait,
    Metric::Verdicts,
    Metric::Joins,
    Metric::OwnJoins,
    Metric::Removals,
    Metric::Knocks,
    Metric::Lives,
    Metric::Entries,
    Metric::EntriesLimit,
    Metric::EntriesBehind,
    Metric::Unsent,
    Metric::Wire,
    Metric::Refused,
    Metric::Forged,
    Metric::Fenced,
    Metric::Key,
    Metric::Watchers,
    Metric::LostWatchers,
    Metric::Unwritten,
    Metric::MemberUp,
    Metric::MemberHeard,
    Metric::MemberAcks,
    Metric::MemberVerdicts,
    Metric::MemberAsked,
    Metric::JournalFileOk,
    Metric::JournalFilesCut,
];

impl Head {
    fn of(name: &'static str, help: &'static str, kind: MetricKind) -> Head
        ensures name { result.name.now ≡ name.now }
        ensures help { result.help.now ≡ help.now }
        ensures kind { result.kind ≡ kind }
    {
        Head { name, help, kind }
    }
}

impl Metric {
    /// What stands in front of its values.
    pub fn head(self) -> Head
        ensures name { result.name.now ≡ (head_of self).name }
        ensures help { result.help.now ≡ (head_of self).help }
        ensures kind { result.kind ≡ (head_of self).kind }
    {
        match self {
            Metric::Build => Head::of(
                "swimd_build_info",
                "The version of the daemon.",
                MetricKind::Gauge,
            ),
            Metric::Member => Head::of("swimd_member_id", "This member's id.", MetricKind::Gauge),
            Metric::Members => Head::of(
                "swimd_members",
                "Other members that are known, by state.",
                MetricKind::Gauge,
            ),
            Metric::PeriodNumber => Head::of(
                "swimd_period_number",
                "The number of the period that runs.",
                MetricKind::Gauge,
            ),
            Metric::PeriodSeconds => Head::of(
                "swimd_period_seconds",
                "How long a period lasts.",
                MetricKind::Gauge,
            ),
            Metric::TickSeconds => Head::of(
                "swimd_tick_seconds",
                "How long a tick lasts.",
                MetricKind::Gauge,
            ),
            Metric::Ticks => Head::of(
                "swimd_ticks_total",
                "Ticks of time that were taken.",
                MetricKind::Counter,
            ),
            Metric::PingsSent => Head::of(
                "swimd_pings_sent_total",
                "Pings sent, those for other members among them.",
                MetricKind::Counter,
            ),
            Metric::PingsHeard => Head::of(
                "swimd_pings_heard_total",
                "Pings that came.",
                MetricKind::Counter,
            ),
            Metric::AcksHeard => Head::of(
                "swimd_acks_heard_total",
                "Acks of own probes that came in time, by who sent them.",
                MetricKind::Counter,
            ),
            Metric::LateAcks => Head::of(
                "swimd_acks_late_total",
                "Acks of own probes that came after the end of their periods.",
                MetricKind::Counter,
            ),
            Metric::AsksSent => Head::of(
                "swimd_asks_sent_total",
                "Relays that were asked to ping a member.",
                MetricKind::Counter,
            ),
            Metric::RequestsServed => Head::of(
                "swimd_requests_served_total",
                "Requests of others for which a member was pinged.",
                MetricKind::Counter,
            ),
            Metric::Dropped => Head::of(
                "swimd_dropped_total",
                "Messages that were dropped, by reason.",
                MetricKind::Counter,
            ),
            Metric::Verdicts => Head::of(
                "swimd_verdicts_total",
                "Members that were judged failed.",
                MetricKind::Counter,
            ),
            Metric::Joins => Head::of(
                "swimd_joins_total",
                "Members that joined, or joined again.",
                MetricKind::Counter,
            ),
            Metric::OwnJoins => Head::of(
                "swimd_own_joins_total",
                "Joins that the daemon made by itself.",
                MetricKind::Counter,
            ),
            Metric::Removals => Head::of(
                "swimd_removals_total",
                "Members that were removed.",
                MetricKind::Counter,
            ),
            Metric::Knocks => Head::of(
                "swimd_knocks_total",
                "Pings sent to failed members beside the probes.",
                MetricKind::Counter,
            ),
            Metric::Lives => Head::of(
                "swimd_lives_total",
                "Lives that began, each with a journal of its own.",
                MetricKind::Counter,
            ),
            Metric::Entries => Head::of(
                "swimd_journal_entries",
                "Entries of this life's journal.",
                MetricKind::Gauge,
            ),
            Metric::EntriesLimit => Head::of(
                "swimd_journal_entries_limit",
                "The most entries of a journal.",
                MetricKind::Gauge,
            ),
            Metric::EntriesBehind => Head::of(
                "swimd_journal_entries_behind",
                "Entries that are in none of these counts yet.",
                MetricKind::Gauge,
            ),
            Metric::Unsent => Head::of(
                "swimd_unsent_total",
                "Datagrams that could not be sent.",
                MetricKind::Counter,
            ),
            Metric::Wire => Head::of(
                "swimd_wire_total",
                "Datagrams that came and are no message.",
                MetricKind::Counter,
            ),
            Metric::Refused => Head::of(
                "swimd_refused_total",
                "Calls that were refused for want of memory.",
                MetricKind::Counter,
            ),
            Metric::Forged => Head::of(
                "swimd_forged_total",
                "Datagrams that came without a tag by a key of the group.",
                MetricKind::Counter,
            ),
            Metric::Fenced => Head::of(
                "swimd_fenced_total",
                "Datagrams that came above the rate and were thrown away.",
                MetricKind::Counter,
            ),
            Metric::Key => Head::of(
                "swimd_key",
                "A key of the group, by its fingerprint. The one at place 1 signs.",
                MetricKind::Gauge,
            ),
            Metric::Watchers => Head::of(
                "swimd_watchers",
                "Watchers of the member table now.",
                MetricKind::Gauge,
            ),
            Metric::LostWatchers => Head::of(
                "swimd_lost_watchers_total",
                "Watchers that did not keep up.",
                MetricKind::Counter,
            ),
            Metric::Unwritten => Head::of(
                "swimd_metrics_unwritten_total",
                "Times that the metrics could not be written to their file.",
                MetricKind::Counter,
            ),
            Metric::MemberUp => Head::of(
                "swimd_member_up",
                "Whether a member is up.",
                MetricKind::Gauge,
            ),
            Metric::MemberHeard => Head::of(
                "swimd_member_heard_period",
                "The number of the last period in which an ack of a member came in time.",
                MetricKind::Gauge,
            ),
            Metric::MemberAcks => Head::of(
                "swimd_member_acks_total",
                "Acks of own probes of a member that came in time, by who sent them.",
                MetricKind::Counter,
            ),
            Metric::MemberVerdicts => Head::of(
                "swimd_member_verdicts_total",
                "How often a member was judged failed.",
                MetricKind::Counter,
            ),
            Metric::MemberAsked => Head::of(
                "swimd_member_asked_total",
                "How often a member was asked to ping another one.",
                MetricKind::Counter,
            ),
            Metric::JournalFileOk => Head::of(
                "swimd_journal_file_ok",
                "Whether this life's journal file is whole so far.",
                MetricKind::Gauge,
            ),
            Metric::JournalFilesCut => Head::of(
                "swimd_journal_files_cut_total",
                "Lives without a whole journal file.",
                MetricKind::Counter,
            ),
            Metric::OddSenders => Head::of(
                "swimd_odd_senders_total",
                "Messages whose senders are not as the member table has them, by why.",
                MetricKind::Counter,
            ),
            Metric::AckWait => Head::of(
                "swimd_ack_wait_ticks",
                "Ticks from a probe to the first ack of it that came in time.",
                MetricKind::Histogram,
            ),
        }
    }
}
