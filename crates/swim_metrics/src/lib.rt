//! What is counted of a node: of the entries of its journals, over all its lives, and the texts that tell it.
#![tactic(auto)]

mod counting;
mod dropped;
mod entry_counts;
mod families;
mod headed;
mod heads;
mod hearings;
mod key_samples;
pub mod laws;
mod measures;
mod member_figures;
mod member_samples;
mod member_tallies;
mod metric_texts;
mod metrics;
mod odd_senders;
mod outside;
mod periods;
mod samples;
mod tests_of_entries;
mod wait_histograms;

pub use dropped::Dropped;
pub use entry_counts::EntryCounts;
pub use headed::put_headed;
pub use heads::{ALL_METRICS, Head, Metric, MetricKind};
pub use hearings::{Hearings, LastHearing};
pub use measures::Measures;
pub use member_figures::{MemberFigures, MemberRows};
pub use member_tallies::MemberTally;
pub use metric_texts::{put_exposition, put_stats};
pub use metrics::Metrics;
pub use odd_senders::{OddCount, OddMessage, OddSenders};
pub use outside::{FileFigures, Fingerprint, Fingerprints, MOST_FINGERPRINTS, Outside};
pub use wait_histograms::{HistogramBucket, Waits};
