//! The texts that are to be written. A function gives each, as a proof that sees them computes with them.

// What two small lives come to, worked out by hand from what the format says of each metric.
const EXPOSITION: &str = "# HELP swimd_build_info The version of the daemon.
# TYPE swimd_build_info gauge
swimd_build_info{member=\"1\",version=\"0.9.1\"} 1
# HELP swimd_member_id This member's id.
# TYPE swimd_member_id gauge
swimd_member_id{member=\"1\"} 1
# HELP swimd_members Other members that are known, by state.
# TYPE swimd_members gauge
swimd_members{member=\"1\",state=\"up\"} 3
swimd_members{member=\"1\",state=\"failed\"} 1
# HELP swimd_period_number The number of the period that runs.
# TYPE swimd_period_number gauge
swimd_period_number{member=\"1\"} 12
# HELP swimd_period_seconds How long a period lasts.
# TYPE swimd_period_seconds gauge
swimd_period_seconds{member=\"1\"} 0.600
# HELP swimd_tick_seconds How long a tick lasts.
# TYPE swimd_tick_seconds gauge
swimd_tick_seconds{member=\"1\"} 0.200
# HELP swimd_ticks_total Ticks of time that were taken.
# TYPE swimd_ticks_total counter
swimd_ticks_total{member=\"1\"} 11
# HELP swimd_pings_sent_total Pings sent, those for other members among them.
# TYPE swimd_pings_sent_total counter
swimd_pings_sent_total{member=\"1\"} 6
# HELP swimd_pings_heard_total Pings that came.
# TYPE swimd_pings_heard_total counter
swimd_pings_heard_total{member=\"1\"} 2
# HELP swimd_acks_heard_total Acks of own probes that came in time, by who sent them.
# TYPE swimd_acks_heard_total counter
swimd_acks_heard_total{member=\"1\",from=\"target\"} 1
swimd_acks_heard_total{member=\"1\",from=\"relay\"} 2
# HELP swimd_acks_late_total Acks of own probes that came after the end of their periods.
# TYPE swimd_acks_late_total counter
swimd_acks_late_total{member=\"1\"} 1
# HELP swimd_asks_sent_total Relays that were asked to ping a member.
# TYPE swimd_asks_sent_total counter
swimd_asks_sent_total{member=\"1\"} 3
# HELP swimd_requests_served_total Requests of others for which a member was pinged.
# TYPE swimd_requests_served_total counter
swimd_requests_served_total{member=\"1\"} 1
# HELP swimd_dropped_total Messages that were dropped, by reason.
# TYPE swimd_dropped_total counter
swimd_dropped_total{member=\"1\",reason=\"not_for_me\"} 1
swimd_dropped_total{member=\"1\",reason=\"borrowed\"} 0
swimd_dropped_total{member=\"1\",reason=\"about_me\"} 0
swimd_dropped_total{member=\"1\",reason=\"unlisted\"} 1
swimd_dropped_total{member=\"1\",reason=\"table_full\"} 0
swimd_dropped_total{member=\"1\",reason=\"stray\"} 1
swimd_dropped_total{member=\"1\",reason=\"no_request\"} 0
# HELP swimd_odd_senders_total Messages whose senders are not as the member table has them, by why.
# TYPE swimd_odd_senders_total counter
swimd_odd_senders_total{member=\"1\",why=\"unlisted\"} 0
swimd_odd_senders_total{member=\"1\",why=\"own_id\"} 0
swimd_odd_senders_total{member=\"1\",why=\"elsewhere\"} 0
# HELP swimd_ack_wait_ticks Ticks from a probe to the first ack of it that came in time.
# TYPE swimd_ack_wait_ticks histogram
swimd_ack_wait_ticks_bucket{member=\"1\",le=\"1\"} 1
swimd_ack_wait_ticks_bucket{member=\"1\",le=\"2\"} 2
swimd_ack_wait_ticks_bucket{member=\"1\",le=\"4\"} 2
swimd_ack_wait_ticks_bucket{member=\"1\",le=\"8\"} 2
swimd_ack_wait_ticks_bucket{member=\"1\",le=\"16\"} 2
swimd_ack_wait_ticks_bucket{member=\"1\",le=\"32\"} 2
swimd_ack_wait_ticks_bucket{member=\"1\",le=\"64\"} 2
swimd_ack_wait_ticks_bucket{member=\"1\",le=\"128\"} 2
swimd_ack_wait_ticks_bucket{member=\"1\",le=\"256\"} 2
swimd_ack_wait_ticks_bucket{member=\"1\",le=\"512\"} 2
swimd_ack_wait_ticks_bucket{member=\"1\",le=\"1024\"} 2
swimd_ack_wait_ticks_bucket{member=\"1\",le=\"2048\"} 2
swimd_ack_wait_ticks_bucket{member=\"1\",le=\"4096\"} 2
swimd_ack_wait_ticks_bucket{member=\"1\",le=\"8192\"} 2
swimd_ack_wait_ticks_bucket{member=\"1\",le=\"16384\"} 2
swimd_ack_wait_ticks_bucket{member=\"1\",le=\"32768\"} 2
swimd_ack_wait_ticks_bucket{member=\"1\",le=\"+Inf\"} 2
swimd_ack_wait_ticks_sum{member=\"1\"} 2
swimd_ack_wait_ticks_count{member=\"1\"} 2
# HELP swimd_verdicts_total Members that were judged failed.
# TYPE swimd_verdicts_total counter
swimd_verdicts_total{member=\"1\"} 1
# HELP swimd_joins_total Members that joined, or joined again.
# TYPE swimd_joins_total counter
swimd_joins_total{member=\"1\"} 2
# HELP swimd_own_joins_total Joins that the daemon made by itself.
# TYPE swimd_own_joins_total counter
swimd_own_joins_total{member=\"1\"} 13
# HELP swimd_removals_total Members that were removed.
# TYPE swimd_removals_total counter
swimd_removals_total{member=\"1\"} 1
# HELP swimd_knocks_total Pings sent to failed members beside the probes.
# TYPE swimd_knocks_total counter
swimd_knocks_total{member=\"1\"} 12
# HELP swimd_lives_total Lives that began, each with a journal of its own.
# TYPE swimd_lives_total counter
swimd_lives_total{member=\"1\"} 2
# HELP swimd_journal_entries Entries of this life's journal.
# TYPE swimd_journal_entries gauge
swimd_journal_entries{member=\"1\"} 3
# HELP swimd_journal_entries_limit The most entries of a journal.
# TYPE swimd_journal_entries_limit gauge
swimd_journal_entries_limit{member=\"1\"} 1000
# HELP swimd_journal_entries_behind Entries that are in none of these counts yet.
# TYPE swimd_journal_entries_behind gauge
swimd_journal_entries_behind{member=\"1\"} 4
# HELP swimd_unsent_total Datagrams that could not be sent.
# TYPE swimd_unsent_total counter
swimd_unsent_total{member=\"1\"} 5
# HELP swimd_wire_total Datagrams that came and are no message.
# TYPE swimd_wire_total counter
swimd_wire_total{member=\"1\"} 6
# HELP swimd_refused_total Calls that were refused for want of memory.
# TYPE swimd_refused_total counter
swimd_refused_total{member=\"1\"} 7
# HELP swimd_forged_total Datagrams that came without a tag by a key of the group.
# TYPE swimd_forged_total counter
swimd_forged_total{member=\"1\"} 8
# HELP swimd_fenced_total Datagrams that came above the rate and were thrown away.
# TYPE swimd_fenced_total counter
swimd_fenced_total{member=\"1\"} 9
";

const EXPOSITION_BEHIND: &str = "# HELP swimd_watchers Watchers of the member table now.
# TYPE swimd_watchers gauge
swimd_watchers{member=\"1\"} 10
# HELP swimd_lost_watchers_total Watchers that did not keep up.
# TYPE swimd_lost_watchers_total counter
swimd_lost_watchers_total{member=\"1\"} 11
# HELP swimd_metrics_unwritten_total Times that the metrics could not be written to their file.
# TYPE swimd_metrics_unwritten_total counter
swimd_metrics_unwritten_total{member=\"1\"} 14
# HELP swimd_member_up Whether a member is up.
# TYPE swimd_member_up gauge
swimd_member_up{member=\"1\",id=\"2\"} 0
swimd_member_up{member=\"1\",id=\"3\"} 1
swimd_member_up{member=\"1\",id=\"5\"} 1
swimd_member_up{member=\"1\",id=\"6\"} 1
# HELP swimd_member_heard_period The number of the last period in which an ack of a member came in time.
# TYPE swimd_member_heard_period gauge
swimd_member_heard_period{member=\"1\",id=\"2\"} 8
swimd_member_heard_period{member=\"1\",id=\"3\"} 9
# HELP swimd_member_acks_total Acks of own probes of a member that came in time, by who sent them.
# TYPE swimd_member_acks_total counter
swimd_member_acks_total{member=\"1\",id=\"2\",from=\"target\"} 1
swimd_member_acks_total{member=\"1\",id=\"2\",from=\"relay\"} 1
swimd_member_acks_total{member=\"1\",id=\"3\",from=\"target\"} 0
swimd_member_acks_total{member=\"1\",id=\"3\",from=\"relay\"} 1
swimd_member_acks_total{member=\"1\",id=\"5\",from=\"target\"} 0
swimd_member_acks_total{member=\"1\",id=\"5\",from=\"relay\"} 0
swimd_member_acks_total{member=\"1\",id=\"6\",from=\"target\"} 0
swimd_member_acks_total{member=\"1\",id=\"6\",from=\"relay\"} 0
# HELP swimd_member_verdicts_total How often a member was judged failed.
# TYPE swimd_member_verdicts_total counter
swimd_member_verdicts_total{member=\"1\",id=\"2\"} 1
swimd_member_verdicts_total{member=\"1\",id=\"3\"} 0
swimd_member_verdicts_total{member=\"1\",id=\"5\"} 0
swimd_member_verdicts_total{member=\"1\",id=\"6\"} 0
# HELP swimd_member_asked_total How often a member was asked to ping another one.
# TYPE swimd_member_asked_total counter
swimd_member_asked_total{member=\"1\",id=\"2\"} 1
swimd_member_asked_total{member=\"1\",id=\"3\"} 1
swimd_member_asked_total{member=\"1\",id=\"5\"} 0
swimd_member_asked_total{member=\"1\",id=\"6\"} 0
# HELP swimd_journal_file_ok Whether this life's journal file is whole so far.
# TYPE swimd_journal_file_ok gauge
swimd_journal_file_ok{member=\"1\"} 1
# HELP swimd_journal_files_cut_total Lives without a whole journal file.
# TYPE swimd_journal_files_cut_total counter
swimd_journal_files_cut_total{member=\"1\"} 15
";

// Of a daemon that was just started.
const STATS: &str = "swimd_build_info{member=\"1\",version=\"a\\\"b\\\\c\\nd\"} 1
swimd_member_id{member=\"1\"} 1
swimd_members{member=\"1\",state=\"up\"} 2
swimd_members{member=\"1\",state=\"failed\"} 1
swimd_period_number{member=\"1\"} 7
swimd_period_seconds{member=\"1\"} 0.600
swimd_tick_seconds{member=\"1\"} 0.200
swimd_ticks_total{member=\"1\"} 0
swimd_pings_sent_total{member=\"1\"} 0
swimd_pings_heard_total{member=\"1\"} 0
swimd_acks_heard_total{member=\"1\",from=\"target\"} 0
swimd_acks_heard_total{member=\"1\",from=\"relay\"} 0
swimd_acks_late_total{member=\"1\"} 0
swimd_asks_sent_total{member=\"1\"} 0
swimd_requests_served_total{member=\"1\"} 0
swimd_dropped_total{member=\"1\",reason=\"not_for_me\"} 0
swimd_dropped_total{member=\"1\",reason=\"borrowed\"} 0
swimd_dropped_total{member=\"1\",reason=\"about_me\"} 0
swimd_dropped_total{member=\"1\",reason=\"unlisted\"} 0
swimd_dropped_total{member=\"1\",reason=\"table_full\"} 0
swimd_dropped_total{member=\"1\",reason=\"stray\"} 0
swimd_dropped_total{member=\"1\",reason=\"no_request\"} 0
swimd_odd_senders_total{member=\"1\",why=\"unlisted\"} 0
swimd_odd_senders_total{member=\"1\",why=\"own_id\"} 0
swimd_odd_senders_total{member=\"1\",why=\"elsewhere\"} 0
swimd_ack_wait_ticks_bucket{member=\"1\",le=\"1\"} 0
swimd_ack_wait_ticks_bucket{member=\"1\",le=\"2\"} 0
swimd_ack_wait_ticks_bucket{member=\"1\",le=\"4\"} 0
swimd_ack_wait_ticks_bucket{member=\"1\",le=\"8\"} 0
swimd_ack_wait_ticks_bucket{member=\"1\",le=\"16\"} 0
swimd_ack_wait_ticks_bucket{member=\"1\",le=\"32\"} 0
swimd_ack_wait_ticks_bucket{member=\"1\",le=\"64\"} 0
swimd_ack_wait_ticks_bucket{member=\"1\",le=\"128\"} 0
swimd_ack_wait_ticks_bucket{member=\"1\",le=\"256\"} 0
swimd_ack_wait_ticks_bucket{member=\"1\",le=\"512\"} 0
swimd_ack_wait_ticks_bucket{member=\"1\",le=\"1024\"} 0
swimd_ack_wait_ticks_bucket{member=\"1\",le=\"2048\"} 0
swimd_ack_wait_ticks_bucket{member=\"1\",le=\"4096\"} 0
swimd_ack_wait_ticks_bucket{member=\"1\",le=\"8192\"} 0
swimd_ack_wait_ticks_bucket{member=\"1\",le=\"16384\"} 0
swimd_ack_wait_ticks_bucket{member=\"1\",le=\"32768\"} 0
swimd_ack_wait_ticks_bucket{member=\"1\",le=\"+Inf\"} 0
swimd_ack_wait_ticks_sum{member=\"1\"} 0
swimd_ack_wait_ticks_count{member=\"1\"} 0
swimd_verdicts_total{member=\"1\"} 0
swimd_joins_total{member=\"1\"} 0
swimd_own_joins_total{member=\"1\"} 13
swimd_removals_total{member=\"1\"} 0
swimd_knocks_total{member=\"1\"} 12
swimd_lives_total{member=\"1\"} 1
swimd_journal_entries{member=\"1\"} 0
swimd_journal_entries_limit{member=\"1\"} 1000
swimd_journal_entries_behind{member=\"1\"} 4
swimd_unsent_total{member=\"1\"} 5
swimd_wire_total{member=\"1\"} 6
swimd_refused_total{member=\"1\"} 7
swimd_forged_total{member=\"1\"} 8
swimd_fenced_total{member=\"1\"} 9
";

const STATS_BEHIND: &str = "swimd_watchers{member=\"1\"} 10
swimd_lost_watchers_total{member=\"1\"} 11
swimd_metrics_unwritten_total{member=\"1\"} 14
swimd_member_up{member=\"1\",id=\"2\"} 1
swimd_member_up{member=\"1\",id=\"3\"} 1
swimd_member_up{member=\"1\",id=\"4\"} 0
swimd_member_acks_total{member=\"1\",id=\"2\",from=\"target\"} 0
swimd_member_acks_total{member=\"1\",id=\"2\",from=\"relay\"} 0
swimd_member_acks_total{member=\"1\",id=\"3\",from=\"target\"} 0
swimd_member_acks_total{member=\"1\",id=\"3\",from=\"relay\"} 0
swimd_member_acks_total{member=\"1\",id=\"4\",from=\"target\"} 0
swimd_member_acks_total{member=\"1\",id=\"4\",from=\"relay\"} 0
swimd_member_verdicts_total{member=\"1\",id=\"2\"} 0
swimd_member_verdicts_total{member=\"1\",id=\"3\"} 0
swimd_member_verdicts_total{member=\"1\",id=\"4\"} 0
swimd_member_asked_total{member=\"1\",id=\"2\"} 0
swimd_member_asked_total{member=\"1\",id=\"3\"} 0
swimd_member_asked_total{member=\"1\",id=\"4\"} 0
swimd_journal_file_ok{member=\"1\"} 1
swimd_journal_files_cut_total{member=\"1\"} 15
.
";

// What two keys come to, in the exposition format.
const KEYS: &str =
    "# HELP swimd_key A key of the group, by its fingerprint. The one at place 1 signs.
# TYPE swimd_key gauge
swimd_key{member=\"1\",place=\"1\",fingerprint=\"66687aad\"} 1
swimd_key{member=\"1\",place=\"2\",fingerprint=\"0a1b2c3d\"} 1
";

// The same in `stats`.
const KEY_LINES: &str = "swimd_key{member=\"1\",place=\"1\",fingerprint=\"66687aad\"} 1
swimd_key{member=\"1\",place=\"2\",fingerprint=\"0a1b2c3d\"} 1
";

// The text in front of what is told of keys, and behind it.
pub(crate) fn exposition() -> [&'static str; 2] {
    [EXPOSITION, EXPOSITION_BEHIND]
}

pub(crate) fn stats() -> [&'static str; 2] {
    [STATS, STATS_BEHIND]
}

pub(crate) fn keys() -> &'static str {
    KEYS
}

pub(crate) fn key_lines() -> &'static str {
    KEY_LINES
}
