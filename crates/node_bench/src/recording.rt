//! A detector without a node.

use crate::nodes::{SOMEWHERE, no_script, opening, ping};
use std::alloc::Global;
use swim_detector::Recorder;
use swim_history::Call;

/// Hears so many pings, and says how many were answered.
pub(crate) fn record(alloc: Global, calls: u32) -> Option<u32> {
    let mut recorder = Recorder::open(alloc, opening()?, no_script(alloc), calls);
    let mut answered = 0_u32;
    for _turn in 0..calls {
        recorder.record(0, Call::Hear(SOMEWHERE, ping())).ok()?;
        answered = answered.saturating_add(1);
    }
    Some(answered)
}
