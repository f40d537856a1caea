//! Where a daemon's datagrams go out: a UDP socket.

ghost use Rattle.std.specs.Prelude.{◌≡◌, [], ◌∷◌, ◌++◌, Some, map};

use crate::addresses::to_address;
use std::marker::Model;
use std::net::UdpSocket;
use std::sync::Wait;
use swim_trail::Trail;
use swim_wire::Peer;
use swim_work::Post;

const _: () = prove!(size_of::<UdpPost<'static>>() == size_of::<&UdpSocket>());

/// A post over a UDP socket. It makes one system call for a datagram that it sends. A contract sees what it was handed
/// so far, oldest first, and whether the system took it.
#[derive(Drop)]
pub struct UdpPost<'s> {
    socket: &'s UdpSocket,
    handed: Trail<(Peer, bool)>,
}

impl<'s> Model for UdpPost<'s> {
    ghost use Rattle.std.specs.Prelude.{List, map};
    ghost use Rattle.swim_work.specs.Posts.{Posted};

    ghost Value = { List Posted };

    ghost view = { λ p. map (λ i. record { bytes = i.1; to = i.0.0; is_taken = i.0.1 }) p.handed.items };
}

impl<'s> UdpPost<'s> {
    /// A post that was handed nothing yet.
    pub(crate) fn new(socket: &'s UdpSocket) -> UdpPost<'s>
        ensures { result ≡ [] }
    {
        UdpPost {
            socket,
            handed: Trail::new(),
        }
    }

    /// Hands the socket a datagram, and notes it with the answer. Nothing else sends or notes anything.
    #[tactic(auto, using(swim_trail::specs::Noted::map_more))]
    fn send_one(&mut self, bytes: &[u8], to: Peer) -> bool
        ensures { self.new ≡ self.old ++ record { bytes = bytes.now; to = to; is_taken = result } ∷ [] }
    {
        let is_taken = match self.socket.send_to(bytes, to_address(to)) {
            Ok(count) => count == bytes.len(),
            Err(_) => false,
        };
        self.handed.note(&(to, is_taken), bytes);
        is_taken
    }
}

impl<'s> Post for UdpPost<'s> {
    ghost posted = { λ p. Some p };

    fn fresh(&self) -> UdpPost<'s>
        ensures { result ≡ [] }
    {
        UdpPost::new(self.socket)
    }

    fn send<R: Wait>(&mut self, _rt: &R, bytes: &[u8], to: Peer) -> bool
        ensures { self.new ≡ self.old ++ record { bytes = bytes.now; to = to; is_taken = result } ∷ [] }
    {
        self.send_one(bytes, to)
    }
}
