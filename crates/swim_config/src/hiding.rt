//! Which parts of a line aren't shown: whoever reads a fault is to learn no key, and no seed.

ghost use Rattle.std.specs.Prelude.{◌≡◌};
ghost use Rattle.swim_config.specs.GroupKeys.{may_be_key};

use crate::detail_lines::DetailLine;

/// From how many hexadecimal digits on a part of a line isn't shown. A key has 64 of them.
const HIDDEN_DIGITS: usize = 32;

/// Adds a line of a document, or a part of one, with `..` for each part that may be a key: between marks, with many
/// hexadecimal digits, whatever stands among these. Digits in a row are hidden in each line (`DetailLine`).
pub fn add_without_keys(line: &mut DetailLine, text: &[u8]) {
    for part in text.split_inclusive(|byte| is_mark(*byte)) {
        add_part(line, part);
    }
}

/// Adds a part of a line and the mark behind it.
fn add_part(line: &mut DetailLine, part: &[u8]) {
    if !may_be_key(part) {
        return line.add(part);
    }
    line.add(b"..");
    if let [.., last] = part {
        if is_mark(*last) {
            line.add(&[*last]);
        }
    }
}

/// Whether a byte parts the words of a line.
fn is_mark(byte: u8) -> bool {
    matches!(
        byte,
        b'"' | b'\'' | b'[' | b']' | b'{' | b'}' | b',' | b'=' | b'#'
    )
}

/// Whether a part of a line has as many hexadecimal digits that it may be a key, or a good piece of one.
fn may_be_key(part: &[u8]) -> bool
    ensures { result ≡ may_be_key part.now }
{
    let digits = part.iter().filter(|byte| byte.is_ascii_hexdigit()).count();
    HIDDEN_DIGITS <= digits
}
