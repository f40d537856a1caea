//! Journal files: a node's journal, written down while the node runs, as a script that the simulator replays.
#![tactic(auto)]

mod headings;
pub mod laws;
mod lines;
mod writing;

pub use headings::put_header;
pub use lines::put_call;
pub use writing::put_kept;
