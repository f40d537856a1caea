//! Keys, and the texts that they are read from.

ghost use Rattle.std.specs.Prelude.{◌≡◌};
ghost use Rattle.swim_keys.specs.KeyTexts.{key_of, told};

use hex::FromHexError;
use std::fmt;
use std::marker::Model;
use thiserror::Error;

/// The bytes of a key.
pub const KEY_BYTES: usize = 32;

/// Why a text is no key.
#[derive(Clone, Copy, Debug, PartialEq, Eq, Error)]
pub enum KeyFault {
    /// Not 64 characters.
    #[error("not 64 characters")]
    Length,
    /// The character at this place, from 0 on, is no hex digit. The first such character is told.
    #[error("character {0} is no hex digit")]
    Digit(usize),
}

/// What is told of a fault in hex digits.
fn told(fault: FromHexError) -> KeyFault
    ensures { result ≡ told fault }
{
    match fault {
        FromHexError::InvalidHexCharacter { c: _, index } => KeyFault::Digit(index),
        FromHexError::OddLength | FromHexError::InvalidStringLength | FromHexError::OutOfMemory => {
            KeyFault::Length
        }
    }
}

/// A key of a group: 32 bytes, which only its members know.
#[derive(Clone, Copy)]
pub struct GroupKey {
    bytes: [u8; KEY_BYTES],
}

impl Model for GroupKey {
    ghost use Rattle.std.specs.Prelude.{ℕ, List};

    ghost Value = { List ℕ };

    ghost view = { λ key. key.bytes };

    ghost inverse = { λ bytes. record { bytes = bytes } };
}

impl GroupKey {
    /// The key of these bytes.
    pub fn new(bytes: [u8; KEY_BYTES]) -> GroupKey
        ensures { result ≡ bytes }
    {
        GroupKey { bytes }
    }

    /// The key that 64 hex digits spell, of either case.
    pub fn read(text: &[u8]) -> Result<GroupKey, KeyFault>
        ensures { result ≡ key_of text.now }
    {
        let mut bytes = [0; KEY_BYTES];
        match hex::decode_to_slice(text, &mut bytes) {
            Ok(()) => Ok(GroupKey { bytes }),
            Err(fault) => Err(told(fault)),
        }
    }

    /// The bytes of the key.
    pub fn as_bytes(&self) -> &[u8; KEY_BYTES]
        ensures { result.now ≡ self.now }
    {
        &self.bytes
    }
}

/// Some key, so that keys can stand in an array of a fixed capacity. Everybody knows it: no group is to have it.
impl Default for GroupKey {
    fn default() -> GroupKey {
        GroupKey::new([0; KEY_BYTES])
    }
}

/// A key isn't shown.
impl fmt::Debug for GroupKey {
    fn fmt<W: fmt::Write>(&self, f: &mut fmt::Formatter<W>) -> fmt::Result {
        f.write_str("GroupKey { .. }")
    }
}
