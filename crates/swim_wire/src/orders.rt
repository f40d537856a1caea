//! Members in an order.

use crate::ids::Id;
use arrayvec::ArrayVec;

/// How many members a detector may know, up and failed together.
pub const KNOWN_MEMBERS: usize = 128;

/// Members in an order, at most as many as may be known.
pub type Order = ArrayVec<Id, KNOWN_MEMBERS>;
