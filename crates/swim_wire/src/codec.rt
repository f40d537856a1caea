//! Datagrams: the layouts of a message, version 1 and version 2.

ghost use Rattle.std.specs.Prelude.{◌≡◌, ◌+◌, ◌<◌, ◌≤◌, Ok, Some, None, IfOk, IfErr, MatchResult, length};
ghost use Rattle.std.specs.Prelude.{◌++◌, IfSome, true, false, is_some, if◌then◌else◌};
ghost use Rattle.std.specs.Option.{SomeIff};
ghost use Rattle.swim_wire.specs.Address.{IsAddress};
ghost use Rattle.swim_wire.specs.Messages.{Message, carries};
ghost use Rattle.swim_wire.specs.Layout.{IsTextOf, first_fault, message_at, code_of, kind_of as kind_by, id_at};
ghost use Rattle.swim_wire.specs.Layout.{version_code as code_of_version, version_of as version_by, address_bytes};
ghost use Rattle.swim_wire.specs.Layout.{length_of as length_by, version_at, kind_at};
ghost use Rattle.swim_wire.specs.Layout.{has_fault, has_address, later_fault};
ghost use Rattle.swim_wire.specs.Layout.{number_at, address_at, fault_number, decoded};

use crate::ids::{Id, PeriodNumber};
use crate::messages::{Kind, Message, Version};
use crate::peers::Peer;
use arrayvec::ArrayVec;
use thiserror::Error;

/// The length of a datagram that carries no address, in bytes.
pub const DATAGRAM_BYTES: usize = 24;

/// The length of a datagram that carries the address of its target, in bytes. No datagram is longer.
pub const LONGEST_DATAGRAM_BYTES: usize = 30;

/// Why bytes are no datagram. The first that applies is told.
#[derive(Clone, Copy, Debug, PartialEq, Eq, Error)]
pub enum WireFault {
    /// Neither 24 nor 30 bytes.
    #[error("neither 24 nor 30 bytes")]
    Length,
    /// Bytes 0 and 1 are not `53 57`.
    #[error("the first two bytes are not 53 57")]
    Magic,
    /// Byte 2 is neither `01` nor `02`.
    #[error("neither of version 1 nor of version 2")]
    Version,
    /// Byte 3 is none of `01`, `02`, `03`.
    #[error("neither a ping, nor a ping-req, nor an ack")]
    UnknownKind,
    /// 30 bytes and no ping-req of version 2, or 24 bytes of one.
    #[error("not as many bytes as its version and kind have")]
    Form,
    /// One of the three ids is 0.
    #[error("an id is 0")]
    ZeroId,
    /// The period number is 0.
    #[error("the period number is 0")]
    ZeroNumber,
    /// The port of the target's address is 0.
    #[error("the port is 0")]
    ZeroPort,
}

impl WireFault {
    /// The number by which a fault is reported: 1 to 8. That of `Form` is 7.
    pub fn number(self) -> u8
        ensures { result ≡ fault_number self }
    {
        match self {
            WireFault::Length => 1,
            WireFault::Magic => 2,
            WireFault::Version => 3,
            WireFault::UnknownKind => 4,
            WireFault::ZeroId => 5,
            WireFault::ZeroNumber => 6,
            WireFault::Form => 7,
            WireFault::ZeroPort => 8,
        }
    }
}

/// The one datagram of a message.
pub fn encode(message: &Message) -> ArrayVec<u8, LONGEST_DATAGRAM_BYTES>
    ensures { IsTextOf result.items message.now }
{
    let sender = message.sender.get().to_be_bytes();
    let initiator = message.initiator.get().to_be_bytes();
    let target = message.target.get().to_be_bytes();
    let number = message.number.get().to_be_bytes();
    let fields = [
        0x53,
        0x57,
        version_code(message.version),
        kind_code(message.kind),
        sender[0],
        sender[1],
        sender[2],
        sender[3],
        initiator[0],
        initiator[1],
        initiator[2],
        initiator[3],
        target[0],
        target[1],
        target[2],
        target[3],
        number[0],
        number[1],
        number[2],
        number[3],
        number[4],
        number[5],
        number[6],
        number[7],
    ];
    with_address(&fields, &message.at)
}

/// The fields of a message that each datagram has, and behind them an address, if there is one.
fn with_address(
    fields: &[u8; DATAGRAM_BYTES],
    at: &Option<Peer>,
) -> ArrayVec<u8, LONGEST_DATAGRAM_BYTES>
    ensures text { result.items ≡ fields.now ++ address_bytes at.now }
    ensures address { IfSome at.now IsAddress }
{
    let mut text = ArrayVec::new();
    let _ = text.try_extend_from_slice(fields);
    if let Some(peer) = at {
        let _ = text.try_extend_from_slice(&peer.to_bytes());
    }
    text
}

/// The message of a datagram, or the first fault of bytes that are none.
pub fn decode(bytes: &[u8]) -> Result<Message, WireFault>
    // What is read is spelled so,
    ensures found { IfOk result (λ m. IsTextOf bytes.now m) }

    // what is spelled so is read,
    ensures only { (m : Message) → IsTextOf bytes.now m → result ≡ Ok m }

    // and a fault is the first that applies.
    ensures fault { IfErr result (λ f. first_fault bytes.now ≡ Some f) }

    // All of it as one value.
    ensures exact { result ≡ decoded bytes.now }
{
    parse(bytes)
}

fn parse(bytes: &[u8]) -> Result<Message, WireFault>
    ensures { MatchResult result
        (λ m. (first_fault bytes.now ≡ None) × (m ≡ message_at bytes.now))
        (λ f. first_fault bytes.now ≡ Some f) }
{
    let (version, kind) = form_of(bytes)?;
    let (sender, initiator, target) = ids_of(bytes)?;
    let number = number_at(bytes, 16)?;
    let at = address_of(bytes, version, kind)?;
    Ok(Message {
        version,
        kind,
        sender,
        initiator,
        target,
        number,
        at,
    })
}

/// The version and the kind of bytes that have the form of a datagram of these.
fn form_of(bytes: &[u8]) -> Result<(Version, Kind), WireFault>
    ensures { MatchResult result
        (λ form. (form.0 ≡ version_at bytes.now) × (form.1 ≡ kind_at bytes.now)
        × (length bytes.now ≡ length_by form.0 form.1) × (first_fault bytes.now ≡ later_fault bytes.now))
        (λ f. first_fault bytes.now ≡ Some f) }
{
    if bytes.len() != DATAGRAM_BYTES && bytes.len() != LONGEST_DATAGRAM_BYTES {
        return Err(WireFault::Length);
    }
    if bytes[0] != 0x53 || bytes[1] != 0x57 {
        return Err(WireFault::Magic);
    }
    let version = version_of(bytes[2]).ok_or(WireFault::Version)?;
    let kind = kind_of(bytes[3]).ok_or(WireFault::UnknownKind)?;
    if bytes.len() != length_of(version, kind) {
        return Err(WireFault::Form);
    }
    Ok((version, kind))
}

/// The sender, the initiator and the target.
fn ids_of(bytes: &[u8]) -> Result<(Id, Id, Id), WireFault>
    requires { 16 ≤ length bytes.now }
    ensures { MatchResult result
        (λ ids. (ids.0 ≡ id_at bytes.now 4) × (ids.1 ≡ id_at bytes.now 8) × (ids.2 ≡ id_at bytes.now 12)
        × (has_fault bytes.now WireFault.ZeroId ≡ false))
        (λ f. (f ≡ WireFault.ZeroId) × (has_fault bytes.now WireFault.ZeroId ≡ true)) }
{
    Ok((id_at(bytes, 4)?, id_at(bytes, 8)?, id_at(bytes, 12)?))
}

/// How many bytes a datagram of that version and kind has.
fn length_of(version: Version, kind: Kind) -> usize
    ensures { result ≡ length_by version kind }
{
    if version.carries(kind) {
        LONGEST_DATAGRAM_BYTES
    } else {
        DATAGRAM_BYTES
    }
}

fn version_code(version: Version) -> u8
    ensures { result ≡ code_of_version version }
{
    match version {
        Version::One => 1,
        Version::Two => 2,
    }
}

fn version_of(byte: u8) -> Option<Version>
    ensures { SomeIff result ((0 < byte) × (byte < 3)) (version_by byte) }
{
    match byte {
        1 => Some(Version::One),
        2 => Some(Version::Two),
        _ => None,
    }
}

fn kind_code(kind: Kind) -> u8
    ensures { result ≡ code_of kind }
{
    match kind {
        Kind::Ping => 1,
        Kind::PingReq => 2,
        Kind::Ack => 3,
    }
}

fn kind_of(byte: u8) -> Option<Kind>
    ensures { SomeIff result ((0 < byte) × (byte < 4)) (kind_by byte) }
{
    match byte {
        1 => Some(Kind::Ping),
        2 => Some(Kind::PingReq),
        3 => Some(Kind::Ack),
        _ => None,
    }
}

fn id_at(bytes: &[u8], at: usize) -> Result<Id, WireFault>
    requires { at + 4 ≤ length bytes.now }
    ensures { MatchResult result
        (λ id. (0 < id) × (id ≡ id_at bytes.now at))
        (λ f. (f ≡ WireFault.ZeroId) × (id_at bytes.now at ≡ 0)) }
{
    Id::new(u32::from_be_bytes([bytes[at], bytes[at + 1], bytes[at + 2], bytes[at + 3]])).ok_or(
        WireFault::ZeroId,
    )
}

fn number_at(bytes: &[u8], at: usize) -> Result<PeriodNumber, WireFault>
    requires { at + 8 ≤ length bytes.now }
    ensures { MatchResult result
        (λ number. (0 < number) × (number ≡ number_at bytes.now at))
        (λ f. (f ≡ WireFault.ZeroNumber) × (number_at bytes.now at ≡ 0)) }
{
    PeriodNumber::new(u64::from_be_bytes([
        bytes[at],
        bytes[at + 1],
        bytes[at + 2],
        bytes[at + 3],
        bytes[at + 4],
        bytes[at + 5],
        bytes[at + 6],
        bytes[at + 7],
    ]))
    .ok_or(WireFault::ZeroNumber)
}

/// The address of the target, where a datagram of that version and kind carries one.
fn address_of(bytes: &[u8], version: Version, kind: Kind) -> Result<Option<Peer>, WireFault>
    requires { (length bytes.now ≡ length_by version kind) × (version ≡ version_at bytes.now) × (kind ≡ kind_at bytes.now) }
    ensures { MatchResult result
        (λ at. (at ≡ if has_address bytes.now then Some (address_at bytes.now 24) else None)
        × (has_fault bytes.now WireFault.ZeroPort ≡ false))
        (λ f. (f ≡ WireFault.ZeroPort) × (has_fault bytes.now WireFault.ZeroPort ≡ true)) }
{
    if !version.carries(kind) {
        return Ok(None);
    }
    let ip = [bytes[24], bytes[25], bytes[26], bytes[27]];
    let port = u16::from_be_bytes([bytes[28], bytes[29]]);
    if port == 0 {
        return Err(WireFault::ZeroPort);
    }
    Ok(Some(Peer { ip, port }))
}
