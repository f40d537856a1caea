use arrayvec::ArrayVec;
use std::process::Abort;
use std::test::*;
use swim_wire::{Id, Kind, Message, Peer, PeriodNumber, Version, WireFault, decode, encode};

// A ping by member 1 to member 2 in its period 1.
const PING: [u8; 24] = [
    0x53, 0x57, 1, 1, 0, 0, 0, 1, 0, 0, 0, 1, 0, 0, 0, 2, 0, 0, 0, 0, 0, 0, 0, 1,
];

// An ack with the largest ids and the largest number.
const ACK: [u8; 24] = [
    0x53, 0x57, 1, 3, 255, 255, 255, 255, 255, 255, 255, 255, 255, 255, 255, 255, 255, 255, 255,
    255, 255, 255, 255, 255,
];

// A ping-req of version 2 by member 2, to ping member 9 at 10.0.0.9:7000 in its period 9.
const REQUEST: [u8; 30] = [
    0x53, 0x57, 2, 2, 0, 0, 0, 2, 0, 0, 0, 2, 0, 0, 0, 9, 0, 0, 0, 0, 0, 0, 0, 9, 10, 0, 0, 9,
    0x1b, 0x58,
];

fn id(number: u32) -> Id {
    Id::new(number).unwrap_or_default()
}

// A message that tells 10.0.0.9:7000 as the address of its target, if it tells one.
fn message(
    version: Version,
    kind: Kind,
    (sender, initiator, target): (u32, u32, u32),
    number: u64,
) -> Message {
    let peer = Peer {
        ip: [10, 0, 0, 9],
        port: 7000,
    };
    Message {
        version,
        kind,
        sender: id(sender),
        initiator: id(initiator),
        target: id(target),
        number: PeriodNumber::new(number).unwrap_or_default(),
        at: version.carries(kind).then_some(peer),
    }
}

// A message has this text, which is read as it.
fn assert_text<R: Abort>(rt: &R, message: &Message, text: &[u8]) {
    assert!(rt; encode(message).as_slice() == text);
    assert!(rt; decode(text) == Ok(*message));
}

// Bytes are no datagram, and this is the first fault.
fn assert_fault<R: Abort>(rt: &R, bytes: &[u8], fault: WireFault) {
    assert!(rt; decode(bytes) == Err(fault));
}

// A text with other bytes at these places has this as its first fault.
fn assert_changed<R: Abort>(rt: &R, text: &[u8], places: &[(usize, u8)], fault: WireFault) {
    let mut bytes = ArrayVec::<u8, 30>::new();
    let _ = bytes.try_extend_from_slice(text);
    for (at, byte) in places {
        assert!(rt; *at < bytes.len());
        bytes[*at] = *byte;
    }
    assert_fault(rt, bytes.as_slice(), fault);
}

// The ping with another byte at a place has this as its first fault.
fn assert_byte<R: Abort>(rt: &R, at: usize, byte: u8, fault: WireFault) {
    assert_changed(rt, &PING, &[(at, byte)], fault);
}

#[test]
fn there_and_back(rt: HostRuntime) {
    let ping = message(Version::One, Kind::Ping, (1, 1, 2), 1);
    assert_text(&rt, &ping, &PING);
}

#[test]
fn largest_there_and_back(rt: HostRuntime) {
    let last = 4294967295;
    let number = 18446744073709551615;
    let ack = message(Version::One, Kind::Ack, (last, last, last), number);
    assert_text(&rt, &ack, &ACK);
}

// Member 2 asks for a ping of member 9, which member 1 pings, and whose ack it sends on: each datagram has the text of
// its kind and version.
#[test]
fn each_version_and_kind_there_and_back(rt: HostRuntime) {
    for (version, byte) in [(Version::One, 1), (Version::Two, 2)] {
        for (kind, code, sender) in [(Kind::Ping, 1, 1), (Kind::PingReq, 2, 2), (Kind::Ack, 3, 1)] {
            let mut text = REQUEST;
            text[2] = byte;
            text[3] = code;
            text[7] = sender;
            let ids = (u32::from(sender), 2, 9);
            let length = if byte == 2 && code == 2 { 30 } else { 24 };
            assert_text(&rt, &message(version, kind, ids, 9), &text[..length]);
        }
    }
}

#[test]
fn lengths(rt: HostRuntime) {
    for length in 0..24 {
        assert_fault(&rt, &PING[..length], WireFault::Length);
        assert_fault(&rt, &ACK[..length], WireFault::Length);
        assert_fault(&rt, &REQUEST[..length], WireFault::Length);
    }
    for length in 25..30 {
        assert_fault(&rt, &REQUEST[..length], WireFault::Length);
    }
    let mut longer = [0; 64];
    longer[..24].copy_from_slice(&PING);
    assert_fault(&rt, &longer[..25], WireFault::Length);
    assert_fault(&rt, &longer[..26], WireFault::Length);
    assert_fault(&rt, &longer[..31], WireFault::Length);
    assert_fault(&rt, &longer, WireFault::Length);
}

#[test]
fn faults(rt: HostRuntime) {
    assert_fault(&rt, &[0; 24], WireFault::Magic);
    assert_byte(&rt, 2, 0, WireFault::Version);
    assert_byte(&rt, 2, 3, WireFault::Version);
    assert_byte(&rt, 3, 0, WireFault::UnknownKind);
    assert_byte(&rt, 3, 4, WireFault::UnknownKind);
    assert_byte(&rt, 7, 0, WireFault::ZeroId);
    assert_byte(&rt, 11, 0, WireFault::ZeroId);
    assert_byte(&rt, 15, 0, WireFault::ZeroId);
    assert_byte(&rt, 23, 0, WireFault::ZeroNumber);
    let mut zeros = PING;
    zeros[15] = 0;
    zeros[23] = 0;
    assert_fault(&rt, &zeros, WireFault::ZeroId);
}

// The ping with byte 2 = 02 is one of version 2.
#[test]
fn a_ping_of_version_2(rt: HostRuntime) {
    let mut text = PING;
    text[2] = 2;
    assert_text(&rt, &message(Version::Two, Kind::Ping, (1, 1, 2), 1), &text);
}

// Each version and kind has its number of bytes, and no other one.
#[test]
fn forms(rt: HostRuntime) {
    let mut longer = [0; 30];
    longer[..24].copy_from_slice(&PING);
    for version in [1, 2] {
        assert_changed(&rt, &longer, &[(2, version)], WireFault::Form);
        assert_changed(&rt, &longer, &[(2, version), (3, 3)], WireFault::Form);
    }
    assert_changed(&rt, &REQUEST, &[(2, 1)], WireFault::Form);
    assert_fault(&rt, &REQUEST[..24], WireFault::Form);
}

// A port is 0 where both of its bytes are.
#[test]
fn ports(rt: HostRuntime) {
    assert_changed(&rt, &REQUEST, &[(28, 0), (29, 0)], WireFault::ZeroPort);
    for port in [1, 255, 256, 65280, 65535u16] {
        let mut text = REQUEST;
        text[28] = (port >> 8) as u8;
        text[29] = (port & 255) as u8;
        assert_port(&rt, &text, port);
    }
}

// The text is a message that tells this port.
fn assert_port<R: Abort>(rt: &R, text: &[u8], port: u16) {
    match decode(text) {
        Ok(message) => assert!(rt; message.at.is_some_and(|peer| peer.port == port)),
        Err(_) => panic!(rt; "a message"),
    }
}

// Of two faults that stand side by side in the order, the first is told.
#[test]
fn faults_in_their_order(rt: HostRuntime) {
    assert_fault(&rt, &[0; 26], WireFault::Length);
    assert_changed(&rt, &PING, &[(1, 0x58), (2, 3)], WireFault::Magic);
    assert_changed(&rt, &PING, &[(2, 3), (3, 4)], WireFault::Version);
    assert_changed(&rt, &REQUEST, &[(3, 4)], WireFault::UnknownKind);
    assert_changed(&rt, &REQUEST[..24], &[(7, 0)], WireFault::Form);
    assert_changed(&rt, &REQUEST, &[(2, 1), (15, 0)], WireFault::Form);
    assert_changed(&rt, &REQUEST, &[(11, 0), (23, 0)], WireFault::ZeroId);
    let number_and_port = [(23, 0), (28, 0), (29, 0)];
    assert_changed(&rt, &REQUEST, &number_and_port, WireFault::ZeroNumber);
}

#[test]
fn fault_numbers(rt: HostRuntime) {
    for (fault, number) in [
        (WireFault::Length, 1),
        (WireFault::Magic, 2),
        (WireFault::Version, 3),
        (WireFault::UnknownKind, 4),
        (WireFault::ZeroId, 5),
        (WireFault::ZeroNumber, 6),
        (WireFault::Form, 7),
        (WireFault::ZeroPort, 8),
    ] {
        assert!(rt; fault.number() == number);
    }
}

#[test]
fn fault_names(rt: HostRuntime) -> Result<(), Fail> {
    for (fault, name) in [
        (WireFault::Length, "neither 24 nor 30 bytes"),
        (WireFault::Magic, "the first two bytes are not 53 57"),
        (WireFault::Version, "neither of version 1 nor of version 2"),
        (
            WireFault::UnknownKind,
            "neither a ping, nor a ping-req, nor an ack",
        ),
        (WireFault::ZeroId, "an id is 0"),
        (WireFault::ZeroNumber, "the period number is 0"),
        (
            WireFault::Form,
            "not as many bytes as its version and kind have",
        ),
        (WireFault::ZeroPort, "the port is 0"),
    ] {
        assert!(rt; format!(in rt.alloc(); "{fault}")?.as_str() == name);
    }
    Ok(())
}
