//! The fingerprint of a key of the group, by which people tell keys apart without showing one.

ghost use Rattle.std.specs.Prelude.{◌≡◌};
ghost use Rattle.swim_config.specs.Fingerprints.{fingerprint_of};

use sha2::{Digest, Sha256};
use swim_keys::GroupKey;

/// The digits of a fingerprint.
pub const FINGERPRINT_DIGITS: usize = 8;

/// The first 8 hexadecimal digits of the SHA-256 of a key's 32 bytes, in lower case: they tell which key it is, and not
/// the key.
pub fn fingerprint(key: &GroupKey) -> [u8; FINGERPRINT_DIGITS]
    ensures { result ≡ fingerprint_of key.now }
{
    let digest = Sha256::digest(key.as_bytes().as_slice());
    let mut digits = [0; FINGERPRINT_DIGITS];
    hex::encode_to_slice(&digest[..4], &mut digits).unwrap();
    digits
}
