//! The standard streams of a program that waits for nobody: what a terminal gets of a text, whether a stream takes
//! something at once, and files that threads of their own write.
#![tactic(auto)]

mod readiness;
mod screens;
mod stream_desks;
mod timely_sinks;

pub use readiness::{STANDARD_ERROR, STANDARD_OUTPUT, is_taken};
pub use screens::ScreenSink;
pub use stream_desks::{DeskStream, StreamDesk, StreamDesks, StreamDoor, TEXT_BYTES, shared};
pub use timely_sinks::{Timely, TimelySink};
