//! The times that a journal file tells, as it is read.

use crate::whole_lines::MARK;
use crate::witness::Witness;
use arrayvec::ArrayVec;
use std::alloc::Global;
use swim_script::LINE_BYTES;
use swim_timeline::Times;

/// Which line of a script is being read.
#[derive(Clone, Copy)]
enum Stage {
    /// The first, which says whether it is a journal file.
    First,
    /// A later one of a journal file.
    Journal,
    /// One of another script.
    Other,
}

/// Notes when periods began, as the comments of a journal file tell it, while the file is read. It notes nothing of
/// another script, in which a comment behind the answer of a start is nobody's time.
#[derive(Drop)]
pub struct TimeTaker {
    stage: Stage,
    /// What was read of a line that isn't at its end yet.
    line: ArrayVec<u8, LINE_BYTES>,
    witness: Witness,
}

impl TimeTaker {
    /// Nothing was read yet.
    pub fn new(alloc: Global) -> TimeTaker {
        TimeTaker {
            stage: Stage::First,
            line: ArrayVec::new(),
            witness: Witness::new(alloc),
        }
    }

    /// These bytes were read next.
    pub fn note(&mut self, bytes: &[u8]) {
        for byte in bytes {
            if *byte == b'\n' {
                self.end_line();
            } else {
                // A longer line is a fault, behind which nothing is played.
                let _is_added = self.line.try_push(*byte);
            }
        }
    }

    /// Returns what was noted, of as many starts as memory was had for.
    pub fn into_times(self) -> Times {
        self.witness.times
    }

    /// The line is at its end.
    fn end_line(&mut self) {
        let line = self.line.as_slice();
        match self.stage {
            Stage::First if line == MARK.as_slice() => self.stage = Stage::Journal,
            Stage::First => self.stage = Stage::Other,
            Stage::Journal => self.witness.note(line),
            Stage::Other => {}
        }
        self.line.clear();
    }
}
