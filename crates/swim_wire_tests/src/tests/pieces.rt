use std::test::*;
use swim_text::{Page, Sink};
use swim_wire::{Peer, Piece, put_pieces};

#[test]
fn pieces_of_each_kind(rt: HostRuntime) {
    let peer = Peer {
        ip: [10, 0, 0, 2],
        port: 7000,
    };
    let pieces = [
        Piece::Text(b"from "),
        Piece::Address(peer),
        Piece::Text(b" came "),
        Piece::Number(18446744073709551615),
    ];
    let mut page = Page::new(rt.alloc());
    assert!(rt; put_pieces(&mut page, &pieces));
    assert!(rt; put_pieces(&mut page, &[]));
    assert!(rt; page.text() == b"from 10.0.0.2:7000 came 18446744073709551615".as_slice());
}
