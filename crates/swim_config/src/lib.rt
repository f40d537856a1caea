//! Configurations of a daemon: what their bytes say, their faults and their summary.
#![tactic(auto)]

mod beginnings;
mod causes;
mod config;
mod config_fault;
mod config_summary;
mod detail_lines;
mod expected;
mod fault_places;
mod fault_texts;
mod fingerprints;
mod found;
mod group_keys;
mod guesses;
mod hiding;
mod inputs;
mod journal_files;
mod keys;
mod line_ends;
mod members;
mod modes;
mod paths;
mod reading;
mod socket_path;
mod statements;
mod unknown_keys;
mod values;
mod verdicts;
mod waits;
mod warnings;

pub use causes::put_cause;
pub use config::Config;
pub use config_fault::ConfigFault;
pub use config_summary::summary;
pub use detail_lines::{DETAIL_BYTES, DetailLine};
pub use fault_texts::put_fault;
pub use fingerprints::{FINGERPRINT_DIGITS, fingerprint};
pub use group_keys::GroupKeys;
pub use inputs::{INPUT_BYTES, read_input};
pub use journal_files::{JournalFiles, TimeUnit};
pub use keys::{ConfigKey, ValueForm};
pub use modes::SocketModes;
pub use reading::{CONFIG_BYTES, read_config};
pub use socket_path::{PATH_BYTES, SocketPath};
pub use warnings::put_warnings;
