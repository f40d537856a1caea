//! The version of the daemon's program.

/// The version of the program.
pub const VERSION: &str = "1.0";

/// The line that tells it.
pub const VERSION_LINE: &[u8] = b"swimd 1.0\n";
