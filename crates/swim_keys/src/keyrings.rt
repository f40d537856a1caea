//! The keys of a group, and what is signed and taken by them.

ghost use Rattle.std.specs.Prelude.{◌≡◌, ◌≤◌, ◌↔◌, [], ◌∷◌, ◌++◌, ℕ, List, length};
ghost use Rattle.std.specs.Prelude.{Some, IfSome, IsErr, OnOk, OnErr};
ghost use Rattle.std.specs.List.{list_any};
ghost use Rattle.std.specs.Option.{option_map};
ghost use Rattle.swim_keys.specs.Sealing.{keys_of, ring_of, sealed, fits, opened, IsSealed};

use crate::key_texts::GroupKey;
use crate::signers::{Signer, TAG_BYTES};
use arrayvec::ArrayVec;
use std::marker::Model;
use swim_wire::LONGEST_DATAGRAM_BYTES;
use thiserror::Error;

/// How many keys a group may have.
pub const MOST_KEYS: usize = 4;

/// The keys beside the one by which texts are signed.
const MOST_OTHERS: usize = 3;

/// The bytes of the longest datagram with its tag.
pub const LONGEST_SEALED_BYTES: usize = 46;

const _: () = prove!(MOST_OTHERS + 1 == MOST_KEYS);

const _: () = prove!(LONGEST_SEALED_BYTES == LONGEST_DATAGRAM_BYTES + TAG_BYTES);

/// The group has 4 keys.
#[derive(Clone, Copy, Debug, PartialEq, Eq, Error)]
#[error("a group has at most 4 keys")]
pub struct KeysFull;

/// The keys of a group, 1 to 4. Texts are signed by the first, and taken where their tag is by any of them. What
/// each key gives to every tag is digested once.
#[derive(Drop)]
pub struct Keys {
    signing: Signer,
    others: ArrayVec<Signer, MOST_OTHERS>,
}

impl Model for Keys {
    ghost use Rattle.swim_keys.specs.Sealing.{Keyring};

    ghost Value = { Keyring };

    ghost view = { λ keys. record { signing = keys.signing; others = keys.others.items } };
}

impl Keys {
    /// One key, by which texts are signed.
    pub fn new(signing: &GroupKey) -> Keys
        ensures { result ≡ record { signing = signing.now; others = [] } }
    {
        Keys {
            signing: Signer::new(signing),
            others: ArrayVec::new(),
        }
    }

    /// These keys, of which the first signs; `None` where there are none.
    pub fn of(keys: &[GroupKey]) -> Option<Keys>
        requires { length keys.now ≤ MOST_KEYS }
        ensures { result ≡ ring_of keys.now }
    {
        let (signing, others) = keys.split_first()?;
        Some(Keys {
            others: signers_of(others),
            ..Keys::new(signing)
        })
    }

    /// One more key, by which texts are taken, too. An `Err` changes nothing.
    pub fn add(&mut self, key: &GroupKey) -> Result<(), KeysFull>
        ensures ok { OnOk result (self.new ≡ record self.old { others = self.old.others ++ key.now ∷ [] }) }
        ensures full { IsErr result ↔ (length (keys_of self.old) ≡ MOST_KEYS) }
        ensures err { OnErr result (self.new ≡ self.old) }
    {
        if self.others.is_full() {
            return Err(KeysFull);
        }
        self.others.push(Signer::new(key));
        Ok(())
    }

    /// A text, which is no longer than a datagram, and behind it its tag by the first key.
    pub fn seal(&self, text: &[u8]) -> ArrayVec<u8, LONGEST_SEALED_BYTES>
        requires { length text.now ≤ LONGEST_DATAGRAM_BYTES }
        ensures { result.items ≡ sealed self.now.signing text.now }
    {
        let mut bytes = ArrayVec::new();
        let _ = bytes.try_extend_from_slice(text);
        let _ = bytes.try_extend_from_slice(&self.signing.tag(text));
        bytes
    }

    /// The text that the bytes are, with its tag by one of the keys behind it. `None` for any other bytes. How long
    /// a text is to be is not looked at.
    pub fn unseal<'b>(&self, bytes: &'b [u8]) -> Option<&'b [u8]>
        // What is answered was sealed,
        ensures found { IfSome result (λ text. IsSealed self.now bytes.now text.now) }

        // and what was sealed is answered.
        ensures only { (text : List ℕ) → IsSealed self.now bytes.now text
            → option_map (λ it. it.now) result ≡ Some text }

        // All of it as one value.
        ensures exact { option_map (λ it. it.now) result ≡ opened self.now bytes.now }
    {
        self.open(bytes)
    }

    /// The text in front, where behind it stands its tag by one of the keys.
    fn open<'b>(&self, bytes: &'b [u8]) -> Option<&'b [u8]>
        ensures { option_map (λ it. it.now) result ≡ opened self.now bytes.now }
    {
        let end = bytes.len().checked_sub(TAG_BYTES)?;
        let (text, tag) = bytes.split_at(end);
        if self.fits(text, tag) {
            Some(text)
        } else {
            None
        }
    }

    /// Whether this is the tag of the text by one of the keys.
    fn fits(&self, text: &[u8], tag: &[u8]) -> bool
        requires { length tag.now ≡ TAG_BYTES }
        ensures { result ≡ list_any (fits text.now tag.now) (keys_of self.now) }
    {
        self.signing.fits(text, tag) || any_fits(self.others.as_slice(), text, tag)
    }
}

/// The signers of these keys.
fn signers_of(keys: &[GroupKey]) -> ArrayVec<Signer, MOST_OTHERS>
    requires { length keys.now ≤ MOST_OTHERS }
    ensures { result.items ≡ keys.now }
{
    let mut signers = ArrayVec::new();
    for key in keys {
        signers.push(Signer::new(key));
    }
    signers
}

/// Whether this is the tag of the text by one of these keys.
fn any_fits(signers: &[Signer], text: &[u8], tag: &[u8]) -> bool
    requires { length tag.now ≡ TAG_BYTES }
    ensures { result ≡ list_any (fits text.now tag.now) signers.now }
{
    signers.iter().any(|signer| signer.fits(text, tag))
}
