//! Where a daemon's datagrams come in: a UDP socket.

ghost use Rattle.std.specs.Prelude.{◌≡◌, ◌↔◌, ◌⊎◌, [], ◌∷◌, ◌++◌, None, Some, map};
ghost use Rattle.swim_work.specs.Gates.{FitsInto};

use crate::addresses::to_peer;
use std::io::ErrorKind;
use std::marker::Model;
use std::net::UdpSocket;
use std::sync::Wait;
use swim_trail::Trail;
use swim_wire::Peer;
use swim_work::{Got, Line};

const _: () = prove!(size_of::<UdpLine<'static>>() == size_of::<&UdpSocket>());

/// A line over a UDP socket. It makes one system call for a datagram that it receives. A contract sees what it answered
/// so far, oldest first.
#[derive(Drop)]
pub struct UdpLine<'s> {
    socket: &'s UdpSocket,
    answered: Trail<Got>,
}

impl<'s> Model for UdpLine<'s> {
    ghost use Rattle.std.specs.Prelude.{List, map};
    ghost use Rattle.swim_work.specs.Gates.{Received};

    ghost Value = { List Received };

    ghost view = { λ l. map (λ i. record { got = i.0; bytes = i.1 }) l.answered.items };
}

impl<'s> UdpLine<'s> {
    /// A line that answered nothing yet.
    pub(crate) fn new(socket: &'s UdpSocket) -> UdpLine<'s>
        ensures { result ≡ [] }
    {
        UdpLine {
            socket,
            answered: Trail::new(),
        }
    }

    /// Asks the socket once, and notes what is answered. Nothing else asks it or notes anything.
    #[tactic(auto, using(swim_trail::specs::Noted::map_more))]
    fn receive_one(&mut self, bytes: &mut [u8]) -> Got
        ensures fits { FitsInto result bytes.new }
        ensures answered { self.new ≡ self.old ++ record { got = result; bytes = bytes.new } ∷ [] }
    {
        let got = match self.socket.recv_from(bytes) {
            Ok((count, source)) => match to_peer(source) {
                Some(peer) => Got::Datagram(count, peer),
                None => Got::Idle,
            },
            Err(fault) => got_by(fault.kind()),
        };
        self.answered.note(&got, bytes);
        got
    }
}

impl<'s> Line for UdpLine<'s> {
    ghost received = { λ l. Some l };

    ghost listed = { λ l. None };

    fn receive<R: Wait>(&mut self, _rt: &R, bytes: &mut [u8]) -> Got
        ensures fits { FitsInto result bytes.new }
        ensures received { self.new ≡ self.old ++ record { got = result; bytes = bytes.new } ∷ [] }
    {
        self.receive_one(bytes)
    }

    fn list(&mut self, _members: &[Peer])
        ensures received { self.new ≡ self.old }
    {}
}

/// What a receive got that failed so: nothing where it waited in vain or was interrupted, and else a fault of the line.
fn got_by(kind: ErrorKind) -> Got
    ensures idle { (result ≡ Got.Idle) ↔ ((kind ≡ ErrorKind.WouldBlock) ⊎ (kind ≡ ErrorKind.Interrupted)) }
    ensures fault { (result ≡ Got.Idle) ⊎ (result ≡ Got.Fault) }
{
    match kind {
        ErrorKind::WouldBlock | ErrorKind::Interrupted => Got::Idle,
        _ => Got::Fault,
    }
}
