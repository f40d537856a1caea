//! What a detector is asked.

use swim_wire::{Id, Message, Peer};

/// A call of the detector.
#[derive(Clone, Copy, Debug, PartialEq, Eq)]
pub enum Call {
    /// One tick of time passed.
    Tick,
    /// From this address came a message.
    // In this order a call takes 40 bytes: fields lie as they are written down, and the address beside the tag.
    Hear(Peer, Message),
    /// A member at this address is to be listed.
    Join(Id, Peer),
    /// A member is to be forgotten.
    Remove(Id),
}

const _: () = prove!(size_of::<Call>() == 40);
