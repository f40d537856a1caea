//! Bytes of a line as a person can see them.

use std::fmt;

/// Bytes as they are shown: those that can be printed stand for themselves, a carriage return is `\r`, a tab `\t`, and
/// any other `\x` with two digits.
#[derive(Clone, Copy)]
pub struct Shown<'a> {
    pub bytes: &'a [u8],
}

impl<'a> Shown<'a> {
    /// How many columns they take.
    pub fn width(&self) -> usize {
        let mut width: usize = 0;
        for byte in self.bytes {
            width = width.saturating_add(width_of(*byte));
        }
        width
    }
}

impl<'a> fmt::Display for Shown<'a> {
    fn fmt<W: fmt::Write>(&self, f: &mut fmt::Formatter<W>) -> fmt::Result {
        for byte in self.bytes {
            show(*byte, f)?;
        }
        Ok(())
    }
}

fn show<W: fmt::Write>(byte: u8, f: &mut fmt::Formatter<W>) -> fmt::Result {
    match byte {
        b' '..=b'~' => f.write_char(char::from(byte)),
        b'\r' => f.write_str("\\r"),
        b'\t' => f.write_str("\\t"),
        _ => write!(f, "\\x{byte:02x}"),
    }
}

fn width_of(byte: u8) -> usize {
    match byte {
        b' '..=b'~' => 1,
        b'\r' | b'\t' => 2,
        _ => 4,
    }
}
