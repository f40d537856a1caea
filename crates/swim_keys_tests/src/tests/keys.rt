//! Keys that are read, and datagrams that are sealed and unsealed. What is expected is Python's.

use super::assert_same;
use std::test::Fail;
use swim_keys::{GroupKey, KeyFault, Keys, KeysFull};

const FIRST: &[u8; 64] = b"000102030405060708090a0b0c0d0e0f101112131415161718191a1b1c1d1e1f";

const SECOND: &[u8; 64] = b"6465666768696a6b6c6d6e6f707172737475767778797A7B7C7D7E7F80818283";

// A ping of member 1 to itself in its period 7.
const PING: &[u8; 24] =
    b"SW\x01\x01\x00\x00\x00\x01\x00\x00\x00\x01\x00\x00\x00\x01\x00\x00\x00\x00\x00\x00\x00\x07";

// Its tags by the two keys.
const FIRST_TAG: &[u8; 16] = b"\xaf\xdb\x5c\x69\xf2\x28\xe0\x47\x0e\x84\x38\x74\xec\x12\xa0\x18";

const SECOND_TAG: &[u8; 16] = b"\x8f\x54\x8e\x6f\x03\x74\x3a\xea\x7e\x10\xec\xa2\xb7\x1b\x6a\x2c";

fn keys_of_two(signing: &[u8], other: &[u8]) -> Result<Keys, Fail> {
    let mut keys = Keys::new(&GroupKey::read(signing)?);
    keys.add(&GroupKey::read(other)?)?;
    Ok(keys)
}

// The ping with a tag behind it.
fn with_tag(tag: &[u8; 16]) -> [u8; 40] {
    let mut bytes = [0; 40];
    bytes[..24].copy_from_slice(PING);
    bytes[24..].copy_from_slice(tag);
    bytes
}

#[test]
fn a_datagram_is_signed_by_the_first_key(rt: HostRuntime) -> Result<(), Fail> {
    let keys = keys_of_two(FIRST, SECOND)?;
    assert_same(
        &rt,
        &keys.seal(PING).as_slice(),
        &with_tag(FIRST_TAG).as_slice(),
    );
    let keys = keys_of_two(SECOND, FIRST)?;
    assert_same(
        &rt,
        &keys.seal(PING).as_slice(),
        &with_tag(SECOND_TAG).as_slice(),
    );
    Ok(())
}

#[test]
fn a_datagram_is_taken_by_each_key(rt: HostRuntime) -> Result<(), Fail> {
    let keys = keys_of_two(FIRST, SECOND)?;
    for tag in [FIRST_TAG, SECOND_TAG] {
        let bytes = with_tag(tag);
        let text = keys.unseal(&bytes).ok_or("a key fits")?;
        assert_same(&rt, &text, &PING.as_slice());
    }
    Ok(())
}

#[test]
fn other_datagrams_are_not_taken(rt: HostRuntime) -> Result<(), Fail> {
    let keys = Keys::new(&GroupKey::read(FIRST)?);
    let bytes = with_tag(FIRST_TAG);
    for place in 0..bytes.len() {
        let mut forged = bytes;
        forged[place] ^= 1;
        assert!(rt; keys.unseal(&forged).is_none(), "byte {place}");
    }
    Ok(())
}

#[test]
fn parts_of_a_datagram_are_not_taken(rt: HostRuntime) -> Result<(), Fail> {
    let keys = Keys::new(&GroupKey::read(FIRST)?);
    let bytes = with_tag(FIRST_TAG);
    for len in 0..bytes.len() {
        assert!(rt; keys.unseal(&bytes[..len]).is_none(), "{len} bytes");
    }
    Ok(())
}

#[test]
fn a_datagram_by_another_key_is_not_taken(rt: HostRuntime) -> Result<(), Fail> {
    let keys = Keys::new(&GroupKey::read(FIRST)?);
    assert!(rt; keys.unseal(&with_tag(SECOND_TAG)).is_none());
    assert!(rt; keys.unseal(PING).is_none());
    Ok(())
}

#[test]
fn the_empty_text_has_a_tag_of_its_own(rt: HostRuntime) -> Result<(), Fail> {
    let keys = Keys::new(&GroupKey::read(FIRST)?);
    let tag = b"\xd3\x8b\x42\x09\x6d\x80\xf4\x5f\x82\x6b\x44\xa9\xd5\x60\x7d\xe7";
    let text = keys.unseal(tag).ok_or("the key fits")?;
    assert_same(&rt, &text.len(), &0);
    Ok(())
}

#[test]
fn a_group_has_four_keys(rt: HostRuntime) -> Result<(), Fail> {
    let mut keys = keys_of_two(FIRST, SECOND)?;
    let key = GroupKey::new([7; 32]);
    assert_same(&rt, &keys.add(&key), &Ok(()));
    assert_same(&rt, &keys.add(&key), &Ok(()));
    assert_same(&rt, &keys.add(&key), &Err(KeysFull));
    Ok(())
}

#[test]
fn a_key_is_64_hex_digits(rt: HostRuntime) -> Result<(), Fail> {
    let key = GroupKey::read(SECOND)?;
    assert_same(
        &rt,
        &key.as_bytes().as_slice(),
        &b"defghijklmnopqrstuvwxyz{|}~\x7f\x80\x81\x82\x83".as_slice(),
    );
    let mut text = *FIRST;
    assert_same(
        &rt,
        &GroupKey::read(&text[1..]).err(),
        &Some(KeyFault::Length),
    );
    assert_same(
        &rt,
        &GroupKey::read(&text[2..]).err(),
        &Some(KeyFault::Length),
    );
    assert_same(&rt, &GroupKey::read(b"").err(), &Some(KeyFault::Length));
    text[63] = b'g';
    assert_same(
        &rt,
        &GroupKey::read(&text).err(),
        &Some(KeyFault::Digit(63)),
    );
    text[5] = b' ';
    assert_same(&rt, &GroupKey::read(&text).err(), &Some(KeyFault::Digit(5)));
    Ok(())
}

#[test]
fn a_key_is_not_shown(rt: HostRuntime) -> Result<(), Fail> {
    let key = GroupKey::read(FIRST)?;
    assert_same(
        &rt,
        &format!(in rt.alloc(); "{key:?}")?.as_str(),
        &"GroupKey { .. }",
    );
    Ok(())
}
