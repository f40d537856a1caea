//! Who may speak: the keys of a group, by which datagrams are signed, and those of others thrown away.
#![tactic(auto)]

mod hmacs;
mod key_texts;
mod keyrings;
mod signers;

pub use hmacs::Hmac;
pub use key_texts::{GroupKey, KEY_BYTES, KeyFault};
pub use keyrings::{Keys, KeysFull, LONGEST_SEALED_BYTES, MOST_KEYS};
pub use signers::TAG_BYTES;
