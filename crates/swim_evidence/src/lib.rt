//! What a journal file proves of a daemon's run: which of its entries are confirmed, what it comes to, what it tells of
//! judgements, and whether it is the life that followed another; and files of a daemon one after the other.
#![tactic(auto)]

mod confirming;
mod findings;
mod following;
mod sequences;
mod trails;
mod verdicts;
mod walking;

pub use confirming::{Confirmations, Missed};
pub use findings::{Ask, Evidence, Finding, Findings, Stray};
pub use following::{Break, Draw, Heading, first_break};
pub use sequences::{Header, HeaderEnd, Left, Link, Seen, Sequence};
pub use verdicts::{Standing, Verdict, verdict_on};
pub use walking::findings_of;
