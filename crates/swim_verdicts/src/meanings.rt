//! Datagrams in words.

ghost use Rattle.std.specs.Prelude.{◌≡◌, IfOk, string_bytes};
ghost use Rattle.swim_verdicts.specs.Meanings.{kind_name, field_words, version_words, place_words, message_words};

use std::alloc::{AllocError, Global};
use swim_wire::{Kind, Message, Peer, Version};

/// The line that says in words what a message is.
pub fn message_words(alloc: Global, message: &Message) -> Result<String, AllocError>
    ensures { IfOk result (λ text. string_bytes text ≡ message_words message.now) }
{
    let fields = field_words(alloc, message)?;
    let version = version_words(message.version);
    let place = place_words(alloc, &message.at)?;
    format!(in alloc; "{fields}{version}{place}\n")
}

/// The words of the fields that each message has.
fn field_words(alloc: Global, message: &Message) -> Result<String, AllocError>
    ensures { IfOk result (λ text. string_bytes text ≡ field_words message.now) }
{
    let kind = kind_name(message.kind);
    let sender = message.sender.get();
    let initiator = message.initiator.get();
    let target = message.target.get();
    let number = message.number.get();
    format!(in alloc;
        "  {kind}: sender {sender}, initiator {initiator}, target {target}, number {number}"
    )
}

/// The words of a version, if it isn't the first.
fn version_words(version: Version) -> &'static str
    ensures { result.now ≡ version_words version }
{
    match version {
        Version::One => "",
        Version::Two => ", version 2",
    }
}

/// Where the target of a message is, if the message says so.
fn place_words(alloc: Global, at: &Option<Peer>) -> Result<String, AllocError>
    ensures { IfOk result (λ text. string_bytes text ≡ place_words at.now) }
{
    match at {
        None => Ok(String::new(alloc)),
        Some(peer) => {
            let text = peer.write();
            let address = text.as_str();
            format!(in alloc; ", at {address}")
        }
    }
}

/// The name of a kind of message.
pub fn kind_name(kind: Kind) -> &'static str
    ensures { result.now ≡ kind_name kind }
{
    match kind {
        Kind::Ping => "ping",
        Kind::PingReq => "ping-req",
        Kind::Ack => "ack",
    }
}
