//! The test vectors of RFC 4231 for HMAC-SHA-256.

use super::assert_same;
use swim_keys::Hmac;

// The HMAC of a text by a key, in hex digits.
fn digits_of(key: &[u8], text: &[u8]) -> [u8; 64] {
    let mut digits = [0; 64];
    let _ = hex::encode_to_slice(Hmac::new(key).digest(text), &mut digits);
    digits
}

#[test]
fn a_key_shorter_than_a_block(rt: HostRuntime) {
    let digits = digits_of(&[0x0b; 20], b"Hi There");
    assert_same(
        &rt,
        &digits.as_slice(),
        &b"b0344c61d8db38535ca8afceaf0bf12b881dc200c9833da726e9376c2e32cff7".as_slice(),
    );
}

#[test]
fn a_key_shorter_than_the_digest(rt: HostRuntime) {
    let digits = digits_of(b"Jefe", b"what do ya want for nothing?");
    assert_same(
        &rt,
        &digits.as_slice(),
        &b"5bdcc146bf60754e6a042426089575c75a003f089d2739839dec58b964ec3843".as_slice(),
    );
}

#[test]
fn key_and_text_longer_than_a_block_together(rt: HostRuntime) {
    let digits = digits_of(&[0xaa; 20], &[0xdd; 50]);
    assert_same(
        &rt,
        &digits.as_slice(),
        &b"773ea91e36800e46854db8ebd09181a72959098b3ef8c122d9635514ced565fe".as_slice(),
    );
}

#[test]
fn bytes_that_differ_in_a_key(rt: HostRuntime) {
    let key =
        b"\x01\x02\x03\x04\x05\x06\x07\x08\x09\x0a\x0b\x0c\x0d\x0e\x0f\x10\x11\x12\x13\x14\x15\x16\x17\x18\x19";
    let digits = digits_of(key, &[0xcd; 50]);
    assert_same(
        &rt,
        &digits.as_slice(),
        &b"82558a389a443c0ea4cc819899f2083a85f0faa3e578f8077a2e3ff46729665b".as_slice(),
    );
}

#[test]
fn a_digest_that_is_cut(rt: HostRuntime) {
    let digits = digits_of(&[0x0c; 20], b"Test With Truncation");
    assert!(rt;
        digits
            .as_slice()
            .starts_with(b"a3b6167473100ee06e0c796c2955552b")
    );
}

#[test]
fn a_key_longer_than_a_block(rt: HostRuntime) {
    let digits = digits_of(
        &[0xaa; 131],
        b"Test Using Larger Than Block-Size Key - Hash Key First",
    );
    assert_same(
        &rt,
        &digits.as_slice(),
        &b"60e431591ee0b67f0d8a26aacbf5b77f8e0bc6213728c5140546040f0ee37f54".as_slice(),
    );
}

#[test]
fn key_and_text_longer_than_a_block(rt: HostRuntime) {
    let text =
        b"This is a test using a larger than block-size key and a larger than block-size data. \
          The key needs to be hashed before being used by the HMAC algorithm.";
    let digits = digits_of(&[0xaa; 131], text);
    assert_same(
        &rt,
        &digits.as_slice(),
        &b"9b09ffa71b942fcb27635fbcd5b0e944bfdc63644f0713938a7f51535c3a35e2".as_slice(),
    );
}

// Not of the RFC: the longest key that isn't digested first. What is expected is Python's.
#[test]
fn a_key_of_a_block(rt: HostRuntime) {
    let digits = digits_of(&[0xaa; 64], &[b'x'; 64]);
    assert_same(
        &rt,
        &digits.as_slice(),
        &b"122e7eaced7e8fb316e6acda9182a7b2eb351435d72f3b22e51589eeb5d47dac".as_slice(),
    );
}
