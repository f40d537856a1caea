//! The path of a socket or a folder.

ghost use Rattle.std.specs.Prelude.{◌≡◌};
ghost use Rattle.std.specs.List.{list_all};
ghost use Rattle.swim_config.specs.Configuration.{is_printing, is_path, path_of};

use arrayvec::ArrayString;
use std::marker::Model;

/// The longest path, in bytes.
pub const PATH_BYTES: usize = 100;

/// The path of a socket or a folder: 1 to 100 bytes, each a character of ASCII that prints, or a space. A contract sees
/// the bytes.
#[derive(Debug, Drop)]
pub struct SocketPath {
    text: ArrayString<PATH_BYTES>,
}

impl Model for SocketPath {
    ghost use Rattle.std.specs.Prelude.{ℕ, List};

    ghost Value = { List ℕ };

    ghost view = { λ path. path.text.bytes };
}

impl SocketPath {
    /// The path that the text is. `None` for any other text.
    pub fn read(text: &str) -> Option<SocketPath>
        ensures { result ≡ path_of text.now }
    {
        if !is_path(text.as_bytes()) {
            return None;
        }
        let text = ArrayString::from(text).ok()?;
        Some(SocketPath { text })
    }

    /// The text.
    pub fn as_str(&self) -> &str
        ensures { result.now ≡ self.now }
    {
        self.text.as_str()
    }
}

/// Whether a text is such a path.
fn is_path(text: &[u8]) -> bool
    ensures { result ≡ is_path text.now }
{
    !text.is_empty() && text.len() <= PATH_BYTES && is_printable(text)
}

/// Whether each byte is a character of ASCII that prints, or a space.
fn is_printable(text: &[u8]) -> bool
    ensures { result ≡ list_all is_printing text.now }
{
    text.iter().all(|byte| b' ' <= *byte && *byte <= b'~')
}
