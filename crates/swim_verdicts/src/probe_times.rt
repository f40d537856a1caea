//! When probes were sent.

use crate::examining::Played;
use std::alloc::{AllocError, Global};
use swim_evidence::Evidence;

/// Returns when the probe of a verdict was sent, as RFC 3339 has it; an empty text if the file tells no time that there
/// is.
pub(crate) fn time_of(
    alloc: Global,
    played: &Played,
    evidence: &Evidence,
) -> Result<String, AllocError> {
    let time = played.witness.times.get(&evidence.probed);
    match time.and_then(|time| time.utc()) {
        Some(text) => format!(in alloc; "{text}"),
        None => Ok(String::new(alloc)),
    }
}
