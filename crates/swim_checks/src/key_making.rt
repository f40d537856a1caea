//! The command that makes a key of a group.

ghost use Rattle.std.specs.Prelude.{◌≡◌, ◌∷◌, ◌++◌, [], IfSome};
ghost use Rattle.std.specs.Io.KnownBytes.{Consumes};
ghost use Rattle.hex.specs.Hex.{encode_lower};
ghost use Rattle.swim_checks.specs.Keys.{IsKeyOf, MakesKey, MakesKeyOf};

use crate::texts::help;
use std::fs;
use std::fs::File;
use std::io::Read;
use std::rt::Files;
use swim_keys::KEY_BYTES;
use swim_outcomes::Outcome;
use swim_text::Sink;

/// Where the system gives random bytes that no stranger can foretell.
const RANDOM_SOURCE: &str = "/dev/urandom";

/// The hexadecimal digits of a key.
const DIGITS: usize = 64;

const _: () = prove!(DIGITS == 2 * KEY_BYTES);

/// Writes a new key: 64 hexadecimal digits of the system's random source, and a line feed.
#[tactic(auto, using(crate::proofs::Keys::key_made))]
pub fn make_key<R: Files<File = File>, W: Sink>(rt: &R, writer: &mut W) -> Outcome
    ensures { MakesKey (W.written writer.old) (W.written writer.new) result }
{
    match fs::open(rt, RANDOM_SOURCE) {
        Ok(mut source) => write_key(&mut source, writer),
        Err(_) => Outcome::NoRandom,
    }
}

/// Writes the key that the next 32 bytes of a source are, all of them and in their order; nothing where the source has
/// no more as many.
fn write_key<S: Read, W: Sink>(source: &mut S, writer: &mut W) -> Outcome
    ensures { MakesKeyOf (S.remaining source.old) (S.remaining source.new)
        (W.written writer.old) (W.written writer.new) result }
{
    match next_line(source) {
        Some(line) => help(&line, writer),
        None => Outcome::NoRandom,
    }
}

/// The line of the key that the next 32 bytes of a source are. `None` where it has no more as many.
fn next_line<S: Read>(source: &mut S) -> Option<[u8; DIGITS + 1]>
    ensures { IfSome result (IsKeyOf (S.remaining source.old) (S.remaining source.new)) }
{
    match next_key(source) {
        Some(key) => Some(key_line(&key)),
        None => None,
    }
}

/// The next 32 bytes of a source. `None` where it has no more as many.
fn next_key<S: Read>(source: &mut S) -> Option<[u8; KEY_BYTES]>
    ensures { IfSome result (λ key. Consumes (S.remaining source.old) (S.remaining source.new) key) }
{
    let mut key = [0; KEY_BYTES];
    match source.read_exact(&mut key) {
        Ok(()) => Some(key),
        Err(_) => None,
    }
}

/// A key as it is written.
fn key_line(key: &[u8; KEY_BYTES]) -> [u8; DIGITS + 1]
    ensures { result ≡ encode_lower key.now ++ 10 ∷ [] }
{
    let mut line = [b'\n'; DIGITS + 1];
    let _is_written = hex::encode_to_slice(*key, &mut line[..DIGITS]);
    line
}
