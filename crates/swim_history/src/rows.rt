//! The member table's rows, and what changes them.

use arrayvec::ArrayVec;
use swim_wire::{Id, KNOWN_MEMBERS, Peer};

/// What a detector holds of a member that it knows.
#[derive(Clone, Copy, Debug, Default, PartialEq, Eq)]
pub enum RowState {
    /// The member is listed, so it is probed in turn.
    #[default]
    Up,
    /// The member was judged failed at the end of the period with this number.
    Failed(u64),
}

/// A member that the detector knows. A failed member keeps its address.
#[derive(Clone, Copy, Debug, Default, PartialEq, Eq)]
pub struct Row {
    pub id: Id,
    pub peer: Peer,
    pub state: RowState,
}

/// The rows of the known members, ascending by id.
pub type Table = ArrayVec<Row, KNOWN_MEMBERS>;

/// What an entry does to the member table.
#[derive(Clone, Copy, Debug, PartialEq, Eq)]
pub enum Change {
    /// The member is up at this address.
    Up(Id, Peer),
    /// The member was judged failed at the end of the period with this number.
    Failed(Id, u64),
    /// The member is unknown from now on.
    Gone(Id),
}
