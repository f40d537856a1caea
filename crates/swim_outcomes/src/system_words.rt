//! What the system says by its errors.

use std::io;
use std::io::ErrorKind;

/// An error of the system that has no kind of its own: all programs together have as many files open as they may.
const ENFILE: i32 = 23;

/// Another: this program has as many files open as it may.
const EMFILE: i32 = 24;

/// What the system says by this error.
pub fn words_why(fault: &io::Error) -> &'static str {
    match fault.raw_os_error() {
        Some(EMFILE) => "too many open files",
        Some(ENFILE) => "too many open files in the system",
        _ => words_of(fault.kind()),
    }
}

/// What the system says by an error of that kind.
pub fn words_of(kind: ErrorKind) -> &'static str {
    match kind {
        ErrorKind::NotFound => "no such file or folder",
        ErrorKind::PermissionDenied => "permission denied",
        ErrorKind::ConnectionRefused => "nobody serves this socket; remove it",
        ErrorKind::AddrInUse => "address in use",
        ErrorKind::AddrNotAvailable => "no address of this machine",
        ErrorKind::AlreadyExists => "it exists already",
        ErrorKind::NotADirectory => "a part of the path is no folder",
        ErrorKind::IsADirectory => "it is a folder",
        ErrorKind::ReadOnlyFilesystem => "the file system is read-only",
        ErrorKind::InvalidInput | ErrorKind::InvalidFilename => "no path of a socket",
        ErrorKind::WouldBlock | ErrorKind::TimedOut => "too many wait there already",
        ErrorKind::StorageFull => "no space is left",
        ErrorKind::QuotaExceeded => "the quota is used up",
        ErrorKind::FileTooLarge => "the file would be too large",
        ErrorKind::OutOfMemory => "no memory",
        _ => "the system refuses it",
    }
}
