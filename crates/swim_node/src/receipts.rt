//! What a call of a node is answered.

ghost use Rattle.std.specs.Prelude.{◌≡◌};
ghost use Rattle.swim_node.specs.Faults.{call_number, open_number};

use crate::naming::Naming;
use crate::news::News;
use std::alloc::AllocError;
use swim_history::{Call, Reply};
use swim_wire::WireFault;
use thiserror::Error;

/// The answer to a call.
#[derive(Drop)]
pub struct Receipt<N: Naming> {
    /// How many entries stand before it in the journal.
    pub position: u32,
    /// How many calls the seat had made before it.
    pub number: u32,
    /// What was asked.
    pub call: Call,
    pub reply: Reply,
    /// What was published when the call ended; a viewer that learns it sees no older table.
    pub news: News<N>,
}

/// Why a call got no reply. The seat's calls are as they were, and this one is not in the journal.
#[derive(Clone, Copy, Debug, PartialEq, Eq, Error)]
pub enum CallFault {
    /// The bytes are no datagram. Only `hear` answers so, before it takes the lock.
    #[error("no datagram: {0}")]
    Wire(WireFault),
    /// The journal has as many entries as it may have, as the one will that is handed back when the node is closed: the
    /// seat counts this answer, and the contract of `Node::close` says so of each seat that has one.
    #[error("the journal is full")]
    JournalFull,
    /// Memory was refused.
    #[error("memory was refused")]
    NoMemory,
}

impl CallFault {
    /// The number of this fault, from 1 on in the order in which they are looked at. That of the bytes, which says why
    /// they are no datagram, is `WireFault::number`.
    pub fn number(self) -> u8
        ensures { result ≡ call_number self }
    {
        match self {
            CallFault::Wire(_) => 1,
            CallFault::JournalFull => 2,
            CallFault::NoMemory => 3,
        }
    }
}

impl From<AllocError> for CallFault {
    ghost use Rattle.std.specs.Prelude.{◌≡◌};
    ghost use Rattle.swim_node.specs.declared.receipts.CallFault.TheVariants.{NoMemory};

    ghost from_gives = { λ _ fault. fault ≡ NoMemory };

    fn from(_refused: AllocError) -> CallFault {
        CallFault::NoMemory
    }
}

/// Why a node can't be opened.
#[derive(Clone, Copy, Debug, PartialEq, Eq, Error)]
pub enum OpenFault {
    /// Memory was refused.
    #[error("memory was refused")]
    NoMemory,
    /// No reader of the table was to be had.
    #[error("no place for a reader")]
    NoPlace,
}

impl OpenFault {
    /// The number of this fault.
    pub fn number(self) -> u8
        ensures { result ≡ open_number self }
    {
        match self {
            OpenFault::NoMemory => 1,
            OpenFault::NoPlace => 2,
        }
    }
}
