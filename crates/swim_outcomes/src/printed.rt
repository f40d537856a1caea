//! Texts of characters that print.

ghost use Rattle.std.specs.Prelude.{◌≡◌, true};
ghost use Rattle.std.specs.List.{list_all};
ghost use Rattle.swim_config.specs.Configuration.{is_printing};

use arrayvec::ArrayVec;

/// How many bytes such a text has at most.
pub const TEXT_BYTES: usize = 480;

/// Adds the bytes of a text, as far as there is room for them, with `?` in the place of each that doesn't print.
#[tactic(auto, using(swim_config::specs::Indented::one_more_prints))]
pub fn add_printed(text: &mut ArrayVec<u8, TEXT_BYTES>, part: &[u8])
    requires { list_all is_printing text.old.items ≡ true }
    ensures { list_all is_printing text.new.items ≡ true }
{
    for byte in part {
        let _is_added = text.try_push(printed(*byte));
    }
}

/// The byte that stands for one in a line: itself, or `?` where it is no character of ASCII that prints.
fn printed(byte: u8) -> u8
    ensures { is_printing result ≡ true }
{
    if b' ' <= byte && byte <= b'~' {
        byte
    } else {
        b'?'
    }
}
