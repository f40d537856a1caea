//! Byte streams that programs read and write, and the lines, words and numbers in them.
#![tactic(auto)]

mod buffers;
mod lines;
mod memory;
mod numbers;
mod parts;
mod polled;
mod short_lines;
mod std_streams;
mod streams;
mod texts;
mod words;

pub use lines::{Taken, next_line};
pub use memory::Page;
pub use numbers::read_number;
pub use parts::cut;
pub use polled::{Look, Met, Polled, read_on};
pub use short_lines::{LineEnd, next_short_line};
pub use std_streams::{ReadSource, WriteSink};
pub use streams::{Byte, Sink, Source};
pub use texts::{put_number, put_numbered};
pub use words::Words;
