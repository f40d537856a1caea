//! The UDP socket of a daemon.

ghost use Rattle.std.specs.Prelude.{◌≡◌, []};

use crate::addresses::to_address;
use crate::udp_line::UdpLine;
use crate::udp_post::UdpPost;
use std::io;
use std::net::{Net, UdpSocket};
use std::time::Duration;
use swim_wire::Peer;

/// How long a receive waits for a datagram, in milliseconds.
const WAIT_MS: u64 = 100;

/// How long the send of one datagram waits for room in the socket's send buffer, in milliseconds. A link that takes
/// nothing fills that buffer, and neither the ticker nor the receiver may be held up for as long.
const SEND_MS: u64 = 10;

/// A UDP socket whose receives wait 100 milliseconds at most, and whose sends wait 10 at most. Workers share it: one
/// receives by a line over it, and each that sends has a post over it.
#[derive(Drop)]
pub struct UdpEndpoint {
    socket: UdpSocket,
}

impl UdpEndpoint {
    /// Binds a socket to this address. Fails if the system refuses it, for example if another socket is bound to it.
    pub fn bind<R: Net>(rt: &R, listen: Peer) -> io::Result<UdpEndpoint> {
        UdpEndpoint::over(UdpSocket::bind(rt, to_address(listen))?)
    }

    /// Takes a socket that is bound already. Fails if the system can't limit its waits, to 100 milliseconds for a
    /// receive and to 10 for a send.
    pub fn over(socket: UdpSocket) -> io::Result<UdpEndpoint> {
        socket.set_read_timeout(Some(Duration::from_millis(WAIT_MS)))?;
        socket.set_write_timeout(Some(Duration::from_millis(SEND_MS)))?;
        Ok(UdpEndpoint { socket })
    }

    /// Returns a line over it, which answered nothing yet.
    pub fn line(&self) -> UdpLine<'_>
        ensures { result ≡ [] }
    {
        UdpLine::new(&self.socket)
    }

    /// Returns a post over it, which was handed nothing yet.
    pub fn post(&self) -> UdpPost<'_>
        ensures { result ≡ [] }
    {
        UdpPost::new(&self.socket)
    }
}
