//! Counts of answers.

use crate::reasons::MOST_NUMBER;
use swim_script::LineOutcome;

/// More than the greatest number of a reason.
const NUMBERS: usize = MOST_NUMBER as usize + 1;

/// How often each reason was told, by its number. The counts stop at 4294967295.
#[derive(Clone, Copy, Default)]
pub struct ReasonCounts {
    by_number: [u32; NUMBERS],
}

impl ReasonCounts {
    /// Counts a reason of that number once more.
    pub fn add(&mut self, number: u8) {
        if let Some(count) = self.by_number.get_mut(usize::from(number)) {
            *count = count.saturating_add(1);
        }
    }

    /// How often a reason of that number was counted.
    pub fn of(&self, number: u8) -> u32 {
        self.by_number
            .get(usize::from(number))
            .copied()
            .unwrap_or(0)
    }
}

/// How often an answer was given that no entry of a journal tells. The counts stop at 4294967295.
#[derive(Clone, Copy, Default)]
pub struct AnswerTally {
    /// Bytes that are no datagram, by their fault.
    pub wire: ReasonCounts,
    /// Calls that met a full journal.
    pub full: u32,
    /// Calls for which memory was refused.
    pub no_memory: u32,
}

impl AnswerTally {
    /// Counts the answer of a line of which this came.
    pub fn add(&mut self, outcome: &LineOutcome) {
        match outcome {
            LineOutcome::Unread(fault) => self.wire.add(fault.number()),
            LineOutcome::Full(_) => self.full = self.full.saturating_add(1),
            LineOutcome::NoMemory(_) => self.no_memory = self.no_memory.saturating_add(1),
            LineOutcome::Made(_) | LineOutcome::Table | LineOutcome::Gap(_) => {}
        }
    }
}
