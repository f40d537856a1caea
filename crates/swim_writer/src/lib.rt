//! Files that a daemon has written by threads of their own, so that nobody else waits for a disk: the journal of each
//! life, and the metrics.
#![tactic(auto)]

mod comments;
mod disk_desks;
mod disk_sheets;
mod disk_workers;
mod held_texts;
mod journal_files;
mod metrics_files;
mod metrics_times;
mod new_files;
mod remarks;

pub use disk_desks::{Begun, DiskDesk};
pub use disk_workers::serve_disk;
pub use held_texts::HeldText;
pub use journal_files::JournalFile;
pub use metrics_files::{MetricsFiles, Unwritten};
pub use metrics_times::MetricsTimes;
pub use remarks::Remarks;
