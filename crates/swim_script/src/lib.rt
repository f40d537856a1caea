//! Scripts of the simulator: what their lines say, and the run of the detector that a script tells.
#![tactic(auto)]

mod answers;
mod arguments;
mod choosers;
mod commands;
mod datagrams;
mod events;
mod faults;
mod forms;
mod headers;
mod openings;
mod outcomes;
mod playing;
mod session;
mod simulator;
mod tellers;

pub use answers::{put_placed, put_reply, put_send};
pub use arguments::{
    OpenArguments, OrderText, SEED_BYTES, take_datagram, take_life, take_long_number, take_number,
    take_order, take_seed, take_version,
};
pub use commands::{Command, LINE_BYTES, LineFault, Word, first_word, read_command};
pub use datagrams::{LONGEST_DATAGRAM_LINE, datagram_line};
pub use faults::{FaultKind, ScriptFault};
pub use forms::{Form, JOURNAL_BYTES, SCRIPT_BYTES};
pub use outcomes::LineOutcome;
pub use session::Session;
pub use simulator::{play, run};
pub use tellers::Teller;
