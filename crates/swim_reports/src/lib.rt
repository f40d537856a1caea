//! What a daemon counts of its lives, and reports while it runs: the changes of the member table, the figures of its
//! metrics, and the folder of its journal files.
#![tactic(auto)]

mod announcers;
mod books;
mod bulletins;
mod chroniclers;
mod clerks;
mod counters;
mod file_faults;
mod folders;
mod happenings;
mod metrics_desks;
mod refusals;
mod text_sinks;
mod totals;

pub use announcers::Announcer;
pub use bulletins::Bulletin;
pub use chroniclers::Chronicler;
pub use clerks::{Clerk, Desks, Log};
pub use counters::{Counters, Figures};
pub use file_faults::{words_for, words_unwritten};
pub use folders::Folder;
pub use happenings::tell_changes;
pub use metrics_desks::MetricsDesk;
pub use refusals::{Refusals, refused};
pub use swim_notices::Notice;
pub use text_sinks::TextSink;
