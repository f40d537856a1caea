//! Why a journal file isn't whole.

use std::io::ErrorKind;

/// Why a journal file isn't whole.
#[derive(Clone, Copy, Debug, PartialEq, Eq)]
pub enum FileFault {
    /// The system refused to make it, or to take what was to be written.
    Refused(ErrorKind),
    /// Its disk took less than there was to write.
    Slow,
}
