//! The ways that datagrams of a probe go.

ghost use Rattle.std.specs.Prelude.{◌≡◌};
ghost use Rattle.swim_trace.specs.Legs.{cause, leg};

use crate::acts::ProbeName;
use swim_wire::{Id, Kind};

/// A way that a datagram of a probe goes, from one member to another.
#[derive(Clone, Copy, Debug, PartialEq, Eq)]
pub struct Leg {
    pub kind: Kind,
    pub from: Id,
    pub to: Id,
}

impl Leg {
    /// The way of a datagram of that kind.
    pub(crate) fn new(kind: Kind, from: Id, to: Id) -> Leg
        ensures { result ≡ leg kind from to }
    {
        Leg { kind, from, to }
    }

    /// The way of the datagram that has to come before this one is sent, which answers it; `None` for what the
    /// initiator sends by itself (section 3.1 of the SWIM paper).
    pub fn cause(&self, probe: &ProbeName) -> Option<Leg>
        ensures { result ≡ cause probe.now self.now }
    {
        match self.kind {
            Kind::Ping if self.from == probe.initiator => None,
            Kind::Ping => Some(Leg::new(Kind::PingReq, probe.initiator, self.from)),
            Kind::PingReq => None,
            Kind::Ack if self.from == probe.target => {
                Some(Leg::new(Kind::Ping, self.to, probe.target))
            }
            Kind::Ack => Some(Leg::new(Kind::Ack, probe.target, self.from)),
        }
    }
}
