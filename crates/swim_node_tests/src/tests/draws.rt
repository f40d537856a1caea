//! Calls that look drawn.

use super::*;

/// Numbers that look drawn, the same in each run.
#[derive(Drop)]
pub(crate) struct Draws {
    state: u64,
}

impl Draws {
    /// Those that follow from that seed.
    pub(crate) fn new(seed: u64) -> Draws {
        Draws { state: seed }
    }

    /// Often a tick, and often a message of some member.
    pub(crate) fn call(&mut self) -> Call {
        let member = self.member();
        let source = at(9);
        match self.below_8() {
            0 | 1 => Call::Tick,
            2 => Call::Join(member, source),
            3 => Call::Remove(member),
            _ => Call::Hear(source, self.message(member)),
        }
    }

    fn next(&mut self) -> u64 {
        self.state = self
            .state
            .wrapping_mul(6364136223846793005)
            .wrapping_add(1442695040888963407);
        self.state / 4294967296
    }

    fn below_8(&mut self) -> u64 {
        self.next() % 8
    }

    fn member(&mut self) -> Id {
        Id::new((self.next() % 16) as u32 + 1).unwrap_or_default()
    }

    // Of a probe of this member or of another, by that member.
    fn message(&mut self, member: Id) -> Message {
        let me = Id::default();
        let (kind, initiator, target) = match self.next() % 4 {
            0 => (Kind::Ping, member, me),
            1 => (Kind::PingReq, member, self.member()),
            _ => (Kind::Ack, me, member),
        };
        Message {
            version: Version::One,
            kind,
            sender: member,
            initiator,
            target,
            number: PeriodNumber::new(self.next() % 1000 + 1).unwrap_or_default(),
            at: None,
        }
    }
}
