//! Addresses of members.

ghost use Rattle.std.specs.Prelude.{◌≡◌, ◌+◌, ◌<◌, ◌≤◌, [], ◌∷◌, ◌++◌, Some, IfSome, decimal};
ghost use Rattle.std.specs.Int.{w16, to_be_bytes};
ghost use Rattle.arrayvec.specs.ArrayString.{array_string_len};
ghost use Rattle.swim_wire.specs.Address.{Address, IsAddress, address_text, address_of, ip_of as octets_of};
ghost use Rattle.swim_text.specs.Numbers.{number_of, positive_of};

use arrayvec::ArrayString;
use itoa::Buffer;
use std::marker::Model;
use swim_text::{cut, read_number};

/// Where a member's detector listens: an IPv4 address and a port other than 0.
#[derive(Clone, Copy, Debug, PartialEq, Eq)]
pub struct Peer {
    pub ip: [u8; 4],
    pub port: u16,
}

impl Model for Peer {
    ghost Value = { Address };

    ghost view = { λ peer. record { ip = peer.ip; port = peer.port } };

    ghost invariant = { λ peer. 0 < peer.port };

    ghost inverse = { λ address. record { ip = address.ip; port = address.port } };
}

impl Peer {
    /// The address that the text is: four octets from 0 to 255 with a `.` between them, a `:`, and a port
    /// from 1 to 65535, each in decimal with no zero in front. `None` for any other text.
    pub fn read(text: &[u8]) -> Option<Peer>
        ensures exact { result ≡ address_of text.now }

        // What is read is written so,
        ensures found { IfSome result (λ p. IsAddress p × (text.now ≡ address_text p)) }

        // and what is written so is read.
        ensures only { (p : Address) → IsAddress p → text.now ≡ address_text p → result ≡ Some p }
    {
        parse(text)
    }

    /// The address as text, as `10.0.0.2:7000`: at most 21 bytes. `read` gives the address back.
    pub fn write(&self) -> ArrayString<21>
        ensures text { result.bytes ≡ address_text self.now }
        ensures address { IsAddress self.now }
    {
        let mut digits = Buffer::new();
        let mut text = ArrayString::new();
        put_octet(&mut text, &mut digits, self.ip[0]);
        text.push('.');
        put_octet(&mut text, &mut digits, self.ip[1]);
        text.push('.');
        put_octet(&mut text, &mut digits, self.ip[2]);
        text.push('.');
        put_octet(&mut text, &mut digits, self.ip[3]);
        text.push(':');
        text.push_str(digits.format(self.port));
        text
    }

    /// The four octets, and the port as two bytes, the higher one first.
    pub fn to_bytes(&self) -> [u8; 6]
        ensures bytes { result ≡ self.now.ip ++ to_be_bytes w16 self.now.port }
        ensures address { IsAddress self.now }
    {
        let port = self.port.to_be_bytes();
        [
            self.ip[0], self.ip[1], self.ip[2], self.ip[3], port[0], port[1],
        ]
    }
}

/// Some address, so that addresses can stand in an array of a fixed capacity. Nothing rests on which one.
impl Default for Peer {
    ghost is_default = { λ peer. peer ≡ record { ip = 127 ∷ 0 ∷ 0 ∷ 1 ∷ []; port = 1 } };

    fn default() -> Peer {
        Peer {
            ip: [127, 0, 0, 1],
            port: 1,
        }
    }
}

fn parse(text: &[u8]) -> Option<Peer>
    ensures { result ≡ address_of text.now }
{
    let (host, port) = cut(text, b':')?;
    let ip = ip_of(host)?;
    let port = port_of(port)?;
    Some(Peer { ip, port })
}

fn ip_of(text: &[u8]) -> Option<[u8; 4]>
    ensures { result ≡ octets_of text.now }
{
    let (first, rest) = cut(text, b'.')?;
    let (second, rest) = cut(rest, b'.')?;
    let (third, fourth) = cut(rest, b'.')?;
    Some([
        octet_of(first)?,
        octet_of(second)?,
        octet_of(third)?,
        octet_of(fourth)?,
    ])
}

fn octet_of(text: &[u8]) -> Option<u8>
    ensures { result ≡ number_of 255 text.now }
{
    let number = read_number(text, u64::from(u8::MAX))?;
    Some(number as u8)
}

fn port_of(text: &[u8]) -> Option<u16>
    ensures { result ≡ positive_of 65535 text.now }
{
    let number = read_number(text, u64::from(u16::MAX))?;
    if number == 0 {
        return None;
    }
    Some(number as u16)
}

fn put_octet(text: &mut ArrayString<21>, digits: &mut Buffer, octet: u8)
    requires { array_string_len text.old + 3 ≤ 21 }
    ensures bytes { text.new.bytes ≡ text.old.bytes ++ decimal octet }
    ensures len { array_string_len text.new ≤ array_string_len text.old + 3 }
{
    text.push_str(digits.format(octet));
}
