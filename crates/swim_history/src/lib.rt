//! What a detector was called with and what it answered: openings, calls, replies, and the journal, which
//! is a run of the sequential detector.
#![tactic(auto)]

mod calls;
mod changing;
mod copies;
pub mod drawn_laws;
mod entries;
mod gaps;
mod journals;
pub mod laws;
mod openings;
mod probing;
mod replies;
mod rows;
mod seats;
mod sending;
mod storage;
mod stored_replies;
mod summaries;
mod tables;
mod texts;

pub use calls::Call;
pub use changing::{change_table, copy_table, replace_rows};
pub use entries::{Called, Choice, Entry, SEATS};
pub use gaps::Gap;
pub use journals::{Journal, Judged};
pub use openings::{LONGEST_PERIOD, Opening, OpeningFault};
pub use probing::Probed;
pub use replies::{DropReason, MOST_RELAYS, Probe, Refusal, Relay, Reply};
pub use rows::{Change, Row, RowState, Table};
pub use seats::Kept;
pub use sending::{own_message, sends};
pub use swim_wire::{KNOWN_MEMBERS, Order};
pub use tables::{change_by, find_row, table_of};
pub use texts::{put_gap, put_table};
