//! The messages of the detector (section 3.1 of the SWIM paper).

ghost use Rattle.std.specs.Prelude.{◌≡◌};
ghost use Rattle.swim_wire.specs.Messages.{carries};
ghost use Rattle.swim_wire.specs.Probe.{key_of, ping_by, ack_by};

use crate::ids::{Id, PeriodNumber};
use crate::peers::Peer;
use std::marker::Model;

/// How a message is laid out in a datagram. What it says is the same in both but for a request to ping: in version 2
/// that carries the address of its target, so a relay need not list whom it is asked to ping.
#[derive(Clone, Copy, Debug, Default, PartialEq, Eq)]
pub enum Version {
    #[default]
    One,
    Two,
}

impl Version {
    /// Whether a message of this version and that kind carries the address of its target.
    pub fn carries(self, kind: Kind) -> bool
        ensures { result ≡ carries self kind }
    {
        self == Version::Two && kind == Kind::PingReq
    }
}

/// What a message is.
#[derive(Clone, Copy, Debug, Default, PartialEq, Eq)]
pub enum Kind {
    /// Asks its target for an ack.
    #[default]
    Ping,
    /// Asks a relay to ping the target.
    PingReq,
    /// Says that the target answered.
    Ack,
}

/// A message. It names who sent it, who began the probe that it belongs to, who is probed, and the
/// initiator's period. A ping-req of version 2, and nothing else, has the address of its target, too.
#[derive(Clone, Copy, Debug, Default, PartialEq, Eq)]
pub struct Message {
    pub version: Version,
    pub kind: Kind,
    pub sender: Id,
    pub initiator: Id,
    pub target: Id,
    pub number: PeriodNumber,
    pub at: Option<Peer>,
}

impl Model for Message {
    ghost use Rattle.std.specs.Prelude.{◌≡◌, is_some};
    ghost use Rattle.swim_wire.specs.Messages.{Message, carries};

    ghost Value = { Message };

    ghost view = { λ m. record {
      version = m.version;
      kind = m.kind;
      sender = m.sender;
      initiator = m.initiator;
      target = m.target;
      number = m.number;
      at = m.at;
    } };

    ghost invariant = { λ m. is_some m.at ≡ carries m.version m.kind };

    ghost inverse = { λ m. record {
      version = m.version;
      kind = m.kind;
      sender = m.sender;
      initiator = m.initiator;
      target = m.target;
      number = m.number;
      at = m.at;
    } };
}

/// What a probe is known by, everywhere in the group: who began it, of whom, and in which of the
/// initiator's periods.
#[derive(Clone, Copy, Debug, Default, PartialEq, Eq)]
pub struct Key {
    pub initiator: Id,
    pub target: Id,
    pub number: PeriodNumber,
}

impl Message {
    /// The probe that the message belongs to.
    pub fn key(&self) -> Key
        ensures { result ≡ key_of self.now }
    {
        Key {
            initiator: self.initiator,
            target: self.target,
            number: self.number,
        }
    }

    /// The ping of the same probe, as this member sends it on for the initiator (section 3.1 of the SWIM paper: a
    /// relay pings the target).
    pub fn ping_by(&self, sender: Id) -> Message
        ensures { result ≡ ping_by sender self.now }
    {
        Message {
            version: self.version,
            kind: Kind::Ping,
            sender,
            initiator: self.initiator,
            target: self.target,
            number: self.number,
            at: None,
        }
    }

    /// The ack of the same probe in that version, as this member sends or forwards it (section 3.1 of the SWIM paper).
    pub fn ack_by(&self, sender: Id, version: Version) -> Message
        ensures { result ≡ ack_by version sender self.now }
    {
        Message {
            version,
            kind: Kind::Ack,
            sender,
            initiator: self.initiator,
            target: self.target,
            number: self.number,
            at: None,
        }
    }
}
