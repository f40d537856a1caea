//! Control lines: what a person at the other end of a connection asks of a desk, over any reader and any writer.
#![tactic(auto)]

mod commands;
mod connections;
mod desks;
mod faults;
mod queues;
mod serving;
mod texts;
mod turns;

pub use connections::{Close, MOST_SILENT_MS, MOST_UNTAKEN_MS, Stand};
pub use desks::{Answer, Desk, DeskCommand, RELOAD_BYTES, ReloadText, STATS_BYTES, StatsText};
pub use queues::{Connections, MOST_CONNECTIONS};
pub use serving::{Served, serve};
