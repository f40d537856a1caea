//! Entries of a journal.

use crate::calls::Call;
use crate::replies::Reply;
use swim_wire::Order;

/// How many seats call a detector. They are numbered from 0.
pub const SEATS: u8 = 4;

/// What was drawn for an entry, beside what its reply says.
#[derive(Debug, PartialEq, Eq, Drop)]
pub enum Choice {
    Nothing,
    /// A round began in this order.
    Round(Order),
}

/// One call and its reply.
#[derive(Debug, PartialEq, Eq, Drop)]
pub struct Entry {
    /// Whose call it was: 0 to 3.
    pub seat: u8,
    /// How many calls of that seat stand before it.
    pub number: u32,
    pub call: Call,
    pub choice: Choice,
    pub reply: Reply,
}

/// One call and its reply: an entry without what was drawn for it.
#[derive(Debug, PartialEq, Eq, Drop)]
pub struct Called {
    /// Whose call it was: 0 to 3.
    pub seat: u8,
    /// How many calls of that seat stand before it.
    pub number: u32,
    pub call: Call,
    pub reply: Reply,
}

const _: () = prove!(size_of::<Called>() == 176);
