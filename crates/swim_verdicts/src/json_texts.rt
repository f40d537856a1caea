//! Texts in JSON.

ghost use Rattle.std.specs.Fmt.{WritesOnOk, digit_glyph};
ghost use Rattle.std.specs.Prelude.{◌≡◌, ◌<◌, false, flat_map};
ghost use Rattle.std.specs.Str.{chars};
ghost use Rattle.swim_verdicts.specs.JsonTexts.{json_letter};

use std::fmt;

/// A text as a JSON string.
#[derive(Clone, Copy)]
pub(crate) struct JsonText<'a>(pub &'a str);

impl<'a> fmt::Display for JsonText<'a> {
    ghost use Rattle.std.specs.Prelude.{Some};
    ghost use Rattle.swim_verdicts.specs.JsonTexts.{json_text};

    ghost output = { λ t. Some (json_text t.0.now) };

    fn fmt<W: fmt::Write>(&self, f: &mut fmt::Formatter<W>) -> fmt::Result {
        f.write_str("\"")?;
        show_letters(self.0, f)?;
        f.write_str("\"")
    }
}

/// Writes the letters of a text as they stand in a JSON string.
fn show_letters<W: fmt::Write>(text: &str, f: &mut fmt::Formatter<W>) -> fmt::Result
    ensures { WritesOnOk W.write_str_gives f.old result (flat_map json_letter (chars text.now)) f.new }
{
    for letter in text.chars() {
        show_letter(letter, f)?;
    }
    Ok(())
}

/// Writes a letter as it stands in a JSON string.
fn show_letter<W: fmt::Write>(letter: char, f: &mut fmt::Formatter<W>) -> fmt::Result
    ensures { WritesOnOk W.write_str_gives f.old result (json_letter letter) f.new }
{
    if letter == '"' {
        return f.write_str("\\\"");
    }
    if letter == '\\' {
        return f.write_str("\\\\");
    }
    if letter as u32 >= 0x20 {
        return f.write_char(letter);
    }
    let code = letter as u32 as u8;
    f.write_str("\\u00")?;
    f.write_char(digit_of(code / 16))?;
    f.write_char(digit_of(code % 16))
}

/// Returns a hexadecimal digit.
fn digit_of(number: u8) -> char
    requires { number < 16 }
    ensures value { result ≡ digit_glyph false number }
    ensures ascii { result < 128 }
{
    char::from(if number < 10 {
        b'0' + number
    } else {
        b'a' - 10 + number
    })
}
