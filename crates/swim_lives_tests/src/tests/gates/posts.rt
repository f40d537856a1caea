//! Posts that take what they are handed, or don't.

ghost use Rattle.std.specs.Prelude.{None};

use super::signals::{Failing, Signals, set};
use crate::tests::members::at;
use std::sync::Wait;
use swim_wire::Peer;
use swim_work::Post;

/// The ack of the ping of `PING`.
pub const ACK: [u8; 24] = [
    0x53, 0x57, 1, 3, 0, 0, 0, 1, 0, 0, 0, 2, 0, 0, 0, 1, 0, 0, 0, 0, 0, 0, 0, 5,
];

/// A post that tells that the ack was sent. Its sends succeed or fail, all of them or one.
#[derive(Drop)]
pub struct AckPost<'s> {
    /// What it tells.
    pub signals: &'s Signals,
    /// Whether its sends succeed.
    pub is_sending: bool,
}

impl<'s> Post for AckPost<'s> {
    ghost posted = { λ post. None };

    fn fresh(&self) -> AckPost<'s> {
        AckPost {
            signals: self.signals,
            is_sending: self.is_sending,
        }
    }

    fn send<R: Wait>(&mut self, _rt: &R, bytes: &[u8], to: Peer) -> bool {
        if bytes == &ACK[..] && to == at(2) {
            set(&self.signals.is_acked);
        }
        self.is_sending && !self.signals.fails(Failing::Post)
    }
}

/// That post, whose sends succeed.
pub fn post<'s>(signals: &'s Signals) -> AckPost<'s> {
    AckPost {
        signals,
        is_sending: true,
    }
}

/// A post that takes everything.
#[derive(Drop)]
pub struct TakingPost {}

impl Post for TakingPost {
    ghost posted = { λ post. None };

    fn fresh(&self) -> TakingPost {
        TakingPost {}
    }

    fn send<R: Wait>(&mut self, _rt: &R, _bytes: &[u8], _to: Peer) -> bool {
        true
    }
}
