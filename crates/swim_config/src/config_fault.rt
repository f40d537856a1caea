//! What is wrong with a configuration.

use crate::keys::ConfigKey;
use swim_history::OpeningFault;

/// Why there is no configuration. The first that applies is told.
#[derive(Clone, Copy, Debug, PartialEq, Eq)]
pub enum ConfigFault {
    /// More than 65,536 bytes.
    Size,
    /// No TOML document, or no UTF-8.
    Document,
    /// A key that a configuration doesn't have.
    UnknownKey,
    /// A key is missing.
    Missing(ConfigKey),
    /// A value of another kind.
    Kind(ConfigKey),
    /// A number or a path that is out of range.
    Range(ConfigKey),
    /// A refused address.
    Peer(ConfigKey),
    /// A refused seed.
    Seed,
    /// The detector can't start so.
    Opening(OpeningFault),
    /// Memory was refused.
    NoMemory,
}
