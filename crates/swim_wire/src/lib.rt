//! What crosses the wire between members: ids, addresses and datagrams, and how they stand in lines.
#![tactic(auto)]

mod arguments;
mod codec;
mod ids;
mod messages;
mod orders;
mod peers;
mod pieces;
mod texts;

pub use arguments::{nothing_left, take_id, take_peer};
pub use codec::{DATAGRAM_BYTES, LONGEST_DATAGRAM_BYTES, WireFault, decode, encode};
pub use ids::{Id, PeriodNumber};
pub use messages::{Key, Kind, Message, Version};
pub use orders::{KNOWN_MEMBERS, Order};
pub use peers::Peer;
pub use pieces::{Piece, put_pieces};
pub use texts::{ADDRESS_BYTES, put_address, write_address};
