//! Why a file isn't written, in words.

use swim_disk::FileFault;
use swim_outcomes::words_of;
use swim_writer::Unwritten;

/// What people are told of a journal file that isn't whole for this reason.
pub fn words_for(fault: FileFault) -> &'static str {
    match fault {
        FileFault::Refused(kind) => words_of(kind),
        FileFault::Slow => "the disk is too slow",
    }
}

/// What people are told of a metrics file that isn't written for this reason.
pub fn words_unwritten(why: Unwritten) -> &'static str {
    match why {
        Unwritten::Kept => "what lies there is no metrics file; it is kept",
        Unwritten::Refused(kind) => words_of(kind),
    }
}
