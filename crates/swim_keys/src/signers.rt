//! One key with its HMAC: the tags of texts.

ghost use Rattle.std.specs.Prelude.{◌≡◌, length};
ghost use Rattle.std.specs.Str.{bytes_eq};
ghost use Rattle.swim_keys.specs.Sealing.{tag_of, fits};

use crate::hmacs::Hmac;
use crate::key_texts::{GroupKey, KEY_BYTES};
use std::marker::Model;

/// The bytes of a tag: the first of an HMAC.
pub const TAG_BYTES: usize = 16;

/// A key, and the HMAC by it.
#[derive(Drop)]
pub(crate) struct Signer {
    key: GroupKey,
    hmac: Hmac,
}

impl Model for Signer {
    ghost use Rattle.std.specs.Prelude.{◌≡◌, ℕ, List};
    ghost use Rattle.swim_keys.specs.Hmac.{block_of};

    ghost Value = { List ℕ };

    ghost view = { λ signer. signer.key };

    ghost invariant = { λ signer. signer.hmac ≡ block_of signer.key };
}

impl Signer {
    pub(crate) fn new(key: &GroupKey) -> Signer
        ensures { result ≡ key.now }
    {
        Signer {
            key: *key,
            hmac: Hmac::new(key.as_bytes()),
        }
    }

    /// The tag of a text.
    pub(crate) fn tag(&self, text: &[u8]) -> [u8; TAG_BYTES]
        ensures { result ≡ tag_of self.now text.now }
    {
        let digest = self.hmac.digest(text);
        let mut tag = [0; TAG_BYTES];
        tag.copy_from_slice(&digest[..TAG_BYTES]);
        tag
    }

    /// Whether this is the tag of the text.
    pub(crate) fn fits(&self, text: &[u8], tag: &[u8]) -> bool
        requires { length tag.now ≡ TAG_BYTES }
        ensures { result ≡ fits text.now tag.now self.now }
    {
        is_same(&self.tag(text), tag)
    }
}

/// Some key, so that signers can stand in an array of a fixed capacity. Nothing rests on which one.
impl Default for Signer {
    fn default() -> Signer {
        Signer::new(&GroupKey::new([0; KEY_BYTES]))
    }
}

/// Whether two tags are the same. Each byte is looked at, so that the time tells nothing of where they differ.
fn is_same(first: &[u8; TAG_BYTES], second: &[u8]) -> bool
    requires { length second.now ≡ TAG_BYTES }
    ensures { result ≡ bytes_eq first.now second.now }
{
    let mut difference = 0;
    for i in 0..TAG_BYTES {
        difference |= first[i] ^ second[i];
    }
    difference == 0
}
