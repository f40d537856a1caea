//! The ticker, a worker of a life: it gives a node its ticks, and knocks at members that were judged failed.
#![tactic(auto)]

mod knocking;
mod laws;
mod tickers;

pub use laws::{
    each_reply_is_posted, each_tick_is_a_call, knocks_are_at_starts, with_0_nobody_is_knocked_at,
};
pub use tickers::Ticker;
