//! The limits of what the lines of a script tell.

use swim_history::LONGEST_PERIOD;
use swim_script::SEED_BYTES;

/// The greatest ID of a member.
pub const MOST_ID: u32 = u32::MAX;

/// The longest timeout of which three fit into the longest period, in ticks.
pub const LONGEST_TIMEOUT: u32 = LONGEST_PERIOD / 3;

/// The number of the last period that there may be.
pub const LAST_PERIOD: u64 = u64::MAX;

/// The most entries that a journal may be opened for.
pub const MOST_ENTRIES: u32 = u32::MAX;

/// The last place that may be written down, where a member is put that joins.
pub const LAST_PLACE: u32 = u32::MAX;

/// How many hexadecimal digits spell a seed.
pub const SEED_DIGITS: usize = 2 * SEED_BYTES;

/// The last life of a seed's detector.
pub const LAST_LIFE: u64 = u64::MAX;

/// The greatest of the four numbers of an address.
pub const MOST_OCTET: u8 = u8::MAX;

/// The greatest port of an address.
pub const MOST_PORT: u16 = u16::MAX;
