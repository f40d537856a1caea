//! Addresses as members have them, and as the system has them.

ghost use Rattle.std.specs.Prelude.{◌≡◌};
ghost use Rattle.std.specs.Net.Addr.{ipv4_octets};
ghost use Rattle.std.specs.Net.Socket.{v4_ip, v4_port};
ghost use Rattle.swim_devices.specs.Addresses.{address_in};

use std::net::{Ipv4Addr, SocketAddr, SocketAddrV4};
use swim_wire::Peer;

/// Returns the system's form of an address.
pub(crate) fn to_address(peer: Peer) -> SocketAddrV4
    ensures ip { ipv4_octets (v4_ip result) ≡ peer.ip }
    ensures port { v4_port result ≡ peer.port }
{
    SocketAddrV4::new(Ipv4Addr::from_octets(peer.ip), peer.port)
}

/// Returns an address as members have one: of IPv4, with a port other than 0. `None` for any other.
pub(crate) fn to_peer(address: SocketAddr) -> Option<Peer>
    ensures { result ≡ address_in address }
{
    match address {
        SocketAddr::V4(address) if address.port() != 0 => Some(Peer {
            ip: address.ip().octets(),
            port: address.port(),
        }),
        _ => None,
    }
}
