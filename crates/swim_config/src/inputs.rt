//! The text of a configuration, read to its end.

ghost use Rattle.std.specs.Prelude.{◌≡◌, ◌≤◌, [], length};
ghost use Rattle.swim_text.specs.Streams.{failures_if};
ghost use Rattle.swim_config.specs.Inputs.{IsRead, IsReading};

use crate::reading::CONFIG_BYTES;
use arrayvec::ArrayVec;
use swim_text::{Byte, Source};

/// How many bytes are read at the most: one more than a configuration may have, so that it shows where there are too
/// many.
pub const INPUT_BYTES: usize = CONFIG_BYTES + 1;

/// Reads all bytes, as far as they are looked at, and no other, and answers whether no read failed.
pub fn read_input<S: Source>(reader: &mut S, text: &mut ArrayVec<u8, INPUT_BYTES>) -> bool
    requires { text.old.items ≡ [] }
    ensures bytes { IsRead (S.left reader.old) text.new.items result }
    ensures taken { IsReading (S.left reader.old) (S.left reader.new) text.new.items }
    ensures within { length text.new.items ≤ INPUT_BYTES }
    ensures failures { S.failures reader.new ≡ failures_if (S.failures reader.old) result }
{
    while !text.is_full() {
        match reader.byte() {
            Byte::One(byte) => text.push(byte),
            Byte::End => return true,
            Byte::Fault => return false,
        }
    }
    true
}
