//! HMAC with SHA-256 (RFC 2104).

ghost use Rattle.std.specs.Prelude.{◌≡◌, ◌≤◌, length};
ghost use Rattle.sha2.specs.Hashers.{Holds256};
ghost use Rattle.swim_keys.specs.Hmac.{block_of, filled, masked, hmac_by};

use sha2::{Digest, Sha256};
use std::marker::Model;

/// The bytes of a block of SHA-256.
const BLOCK_BYTES: usize = 64;

/// What each byte of the key's block is masked by inside.
const INNER_MASK: u8 = 0x36;

/// What each byte of the key's block is masked by outside.
const OUTER_MASK: u8 = 0x5c;

/// HMAC-SHA-256 by one key. The masked blocks of the key are digested once, when it is made.
#[derive(Drop)]
pub struct Hmac {
    block: [u8; BLOCK_BYTES],
    inner: Sha256,
    outer: Sha256,
}

impl Model for Hmac {
    ghost use Rattle.std.specs.Prelude.{ℕ, List};
    ghost use Rattle.sha2.specs.Hashers.{Holds256};
    ghost use Rattle.swim_keys.specs.Hmac.{inner_mask, outer_mask, masked};

    ghost Value = { List ℕ };

    ghost view = { λ hmac. hmac.block };

    ghost invariant = { λ hmac. Holds256 hmac.inner (masked inner_mask hmac.block)
        × Holds256 hmac.outer (masked outer_mask hmac.block) };
}

impl Hmac {
    /// The HMAC by a key of any length. What contracts see of it is the key filled up to a block.
    pub fn new(key: &[u8]) -> Hmac
        ensures { result ≡ block_of key.now }
    {
        Hmac::of_block(block_of(key))
    }

    /// The HMAC by a key that was filled up to a block.
    fn of_block(block: [u8; BLOCK_BYTES]) -> Hmac
        ensures { result ≡ block }
    {
        Hmac {
            inner: begun(&block, INNER_MASK),
            outer: begun(&block, OUTER_MASK),
            block,
        }
    }

    /// The HMAC of a text.
    pub fn digest(&self, text: &[u8]) -> [u8; 32]
        ensures { result ≡ hmac_by self.now text.now }
    {
        let mut inner = self.inner.clone().unwrap();
        inner.update(text);
        let mut outer = self.outer.clone().unwrap();
        outer.update(inner.finalize());
        outer.finalize()
    }
}

/// The key, filled up to a block.
fn block_of(key: &[u8]) -> [u8; BLOCK_BYTES]
    ensures { result ≡ block_of key.now }
{
    if key.len() > BLOCK_BYTES {
        filled(&Sha256::digest(key))
    } else {
        filled(key)
    }
}

/// Bytes with zeros behind them up to a block.
fn filled(bytes: &[u8]) -> [u8; BLOCK_BYTES]
    requires { length bytes.now ≤ BLOCK_BYTES }
    ensures { result ≡ filled bytes.now }
{
    let mut block = [0; BLOCK_BYTES];
    block[..bytes.len()].copy_from_slice(bytes);
    block
}

/// A digest that holds the masked block.
fn begun(block: &[u8; BLOCK_BYTES], mask: u8) -> Sha256
    ensures { Holds256 result (masked mask block.now) }
{
    let mut bytes = *block;
    for byte in bytes.iter_mut() {
        *byte ^= mask;
    }
    Sha256::new_with_prefix(bytes)
}
