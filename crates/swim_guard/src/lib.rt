//! Who is heard: lines and a post over others, for a group whose members sign what they send, and against floods; and
//! how much was thrown away.
#![tactic(auto)]

mod fenced_lines;
pub mod laws;
mod rule_books;
mod rule_lookups;
mod sealed_lines;
mod sealed_posts;
mod strangers;
mod thrown;
mod timepieces;

pub use fenced_lines::FencedLine;
pub use rule_books::{RingKeys, RuleBook};
pub use sealed_lines::SealedLine;
pub use sealed_posts::SealedPost;
pub use strangers::{NotingLine, SharedThrown, StrangerCounts, Strangers};
pub use thrown::{Sieve, Thrown};
pub use timepieces::{ClockTimepiece, Timepiece};
