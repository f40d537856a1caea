//! Whether two values of a configuration are the same.

ghost use Rattle.std.specs.Prelude.{◌≡◌, ◌↔◌, IsTrue, bytes_eq};
ghost use Rattle.swim_reload.specs.Comparing.{are_same_rows, is_same_number, is_same_path, is_same_peer, is_same_row};
ghost use Rattle.swim_reload.specs.Comparing.{is_same_state, is_same_unit, is_same_version};

use swim_config::{SocketPath, TimeUnit};
use swim_history::{Row, RowState};
use swim_wire::{Peer, Version};

/// Whether both are the same number, or none.
pub fn is_same_number(number: Option<u64>, other: Option<u64>) -> bool
    ensures value { result ≡ is_same_number number other }
    ensures same { IsTrue result ↔ (number ≡ other) }
{
    match (number, other) {
        (None, None) => true,
        (Some(number), Some(other)) => number == other,
        _ => false,
    }
}

/// Whether both are the same mode, or none.
pub fn is_same_mode(mode: Option<u32>, other: Option<u32>) -> bool
    ensures value { result ≡ is_same_number mode other }
    ensures same { IsTrue result ↔ (mode ≡ other) }
{
    match (mode, other) {
        (None, None) => true,
        (Some(mode), Some(other)) => mode == other,
        _ => false,
    }
}

/// Whether both are the same seed.
pub fn is_same_seed(seed: &[u8; 32], other: &[u8; 32]) -> bool
    ensures value { result ≡ bytes_eq seed.now other.now }
    ensures same { IsTrue result ↔ (seed.now ≡ other.now) }
{
    seed.as_slice() == other.as_slice()
}

/// Whether both are the same path, or none.
pub fn is_same_path(path: &Option<SocketPath>, other: &Option<SocketPath>) -> bool
    ensures value { result ≡ is_same_path path.now other.now }
    ensures same { IsTrue result ↔ (path.now ≡ other.now) }
{
    match (path, other) {
        (None, None) => true,
        (Some(path), Some(other)) => path.as_str() == other.as_str(),
        _ => false,
    }
}

/// Whether both are the same address.
pub fn is_same_peer(peer: Peer, other: Peer) -> bool
    ensures value { result ≡ is_same_peer peer other }
    ensures same { IsTrue result ↔ (peer ≡ other) }
{
    peer == other
}

/// Whether both are the same version.
pub fn is_same_version(version: Version, other: Version) -> bool
    ensures value { result ≡ is_same_version version other }
    ensures same { IsTrue result ↔ (version ≡ other) }
{
    version == other
}

/// Whether both are the same unit.
pub fn is_same_unit(unit: TimeUnit, other: TimeUnit) -> bool
    ensures value { result ≡ is_same_unit unit other }
    ensures same { IsTrue result ↔ (unit ≡ other) }
{
    unit == other
}

/// Whether these are the same rows, in the same order.
pub fn are_same_rows(rows: &[Row], others: &[Row]) -> bool
    ensures value { result ≡ are_same_rows rows.now others.now }
    ensures same { IsTrue result ↔ (rows.now ≡ others.now) }
{
    match rows {
        [] => others.is_empty(),
        [first, more @ ..] => match others {
            [] => false,
            [other, others @ ..] => is_same_row(*first, *other) && are_same_rows(more, others),
        },
    }
}

fn is_same_row(row: Row, other: Row) -> bool
    ensures value { result ≡ is_same_row row other }
    ensures same { IsTrue result ↔ (row ≡ other) }
{
    row.id == other.id
        && is_same_peer(row.peer, other.peer)
        && is_same_state(row.state, other.state)
}

fn is_same_state(state: RowState, other: RowState) -> bool
    ensures value { result ≡ is_same_state state other }
    ensures same { IsTrue result ↔ (state ≡ other) }
{
    state == other
}
