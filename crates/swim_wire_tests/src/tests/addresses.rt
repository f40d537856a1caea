use std::process::Abort;
use std::test::*;
use swim_wire::{Peer, write_address};

// A text is that address, and is written so.
fn assert_address<R: Abort>(rt: &R, text: &str, ip: [u8; 4], port: u16) {
    match Peer::read(text.as_bytes()) {
        Some(peer) => {
            assert!(rt; peer.ip == ip);
            assert!(rt; peer.port == port);
            assert!(rt; peer.write().as_str() == text);
        }
        None => panic!(rt; "{text} is an address"),
    }
}

fn assert_none<R: Abort>(rt: &R, text: &str) {
    assert!(rt; Peer::read(text.as_bytes()).is_none(), "at {text}");
}

#[test]
fn read_and_written(rt: HostRuntime) {
    assert_address(&rt, "10.0.0.2:7000", [10, 0, 0, 2], 7000);
    assert_address(&rt, "255.255.255.255:65535", [255, 255, 255, 255], 65535);
}

// What stands behind it stays.
#[test]
fn written_before_other_bytes(rt: HostRuntime) {
    let peer = Peer {
        ip: [10, 0, 200, 31],
        port: 7000,
    };
    let mut bytes = *b"---------------------------- up";
    let start = write_address(&peer, &mut bytes, 28);
    assert!(rt; bytes == *b"------------10.0.200.31:7000 up");
    assert!(rt; start == 12);
}

#[test]
fn as_bytes(rt: HostRuntime) {
    let peer = Peer {
        ip: [10, 0, 0, 2],
        port: 7000,
    };
    assert!(rt; peer.to_bytes() == [10, 0, 0, 2, 0x1b, 0x58]);
}

#[test]
fn refused(rt: HostRuntime) {
    for text in [
        "",
        "1.2.3.4",
        "1.2.3.4:",
        ":1",
        "1.2.3:1",
        "1.2.3.4.5:1",
        "10.0.0.02:7000",
        "256.0.0.1:1",
        "1.2.3.4:0",
        "1.2.3.4:07",
        "1.2.3.4:65536",
        "+1.2.3.4:1",
        " 1.2.3.4:1",
        "1.2.3.4:1 ",
    ] {
        assert_none(&rt, text);
    }
}
