//! Texts cut in two.

ghost use Rattle.std.specs.Prelude.{◌≡◌};
ghost use Rattle.std.specs.Option.{option_map};
ghost use Rattle.swim_text.specs.Parts.{cut as parts_of};

use memchr::memchr;

/// What stands before the first such byte and what stands after it, and `None` where the text has none.
pub fn cut(text: &[u8], byte: u8) -> Option<(&[u8], &[u8])>
    ensures { parts_of byte text.now ≡ option_map (λ parts. (parts.0.now, parts.1.now)) result }
{
    let i = memchr(byte, text)?;
    Some((&text[..i], &text[i + 1..]))
}
