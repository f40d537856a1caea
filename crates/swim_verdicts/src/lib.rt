//! What journal files tell of verdicts: a file that is replayed, the verdict on it, the evidence of its judgements in
//! words, and what became of the datagrams of judged probes, as lines and as JSON.
#![tactic(auto)]

mod accounts;
mod comment_times;
mod evidence;
mod examining;
mod html;
mod json_reports;
mod json_texts;
mod laws;
mod meanings;
mod page_frame;
mod piece_texts;
mod presences;
mod probe_times;
mod reports;
mod shell_words;
mod time_takers;
mod told_texts;
mod trace_json;
mod trace_lines;
mod unheard;
mod verdict_json;
mod verdict_lines;
mod verdict_pages;
mod verdict_tables;
mod whole_lines;
mod witness;

pub use accounts::{Account, Choice, index_of};
pub use evidence::evidence_of;
pub use examining::{Played, play};
pub use json_reports::JsonReport;
pub use laws::a_shell_reads_the_path;
pub use meanings::{kind_name, message_words};
pub use presences::{Clock, Rhythms};
pub use reports::{Extent, Report};
pub use time_takers::TimeTaker;
pub use told_texts::{OfTicks, OfVerdict, TextKind};
pub use trace_json::{JsonFile, JsonTrace};
pub use trace_lines::{ConclusionText, TraceReport};
pub use verdict_lines::{Closing, Objection};
pub use verdict_pages::{VerdictPage, WrittenPage};
pub use witness::{FileEnd, Witness};
