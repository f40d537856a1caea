//! The requests as they are kept: in front those that are due first.

ghost use Rattle.std.specs.Prelude.{◌≡◌, ◌==◌, position, drop};
ghost use Rattle.std.specs.List.{prefix_len};
ghost use Rattle.swim_wire.specs.Probe.{same_key};

use arrayvec::ArrayVec;
use swim_wire::{Key, Peer, Version};

/// A request: the probe, who is to get the ack, in which version, and the count of ticks at which it waits no more.
#[derive(Clone, Copy)]
pub(crate) struct DueRequest {
    pub(crate) key: Key,
    pub(crate) peer: Peer,
    pub(crate) version: Version,
    pub(crate) due: u32,
}

/// Some request, so that requests can stand in an array of a fixed capacity. Nothing rests on which one.
impl Default for DueRequest {
    fn default() -> DueRequest {
        DueRequest {
            key: Key::default(),
            peer: Peer::default(),
            version: Version::default(),
            due: 0,
        }
    }
}

/// How many requests may wait.
pub const MOST_WAITING: usize = 64;

/// The requests that wait, the oldest first.
pub(crate) type DueRequests = ArrayVec<DueRequest, MOST_WAITING>;

/// The first place of the key.
pub(crate) fn place_of(entries: &[DueRequest], key: &Key) -> Option<usize>
    ensures { result ≡ position (λ entry. same_key entry.key key.now) entries.now }
{
    entries.iter().position(|entry| entry.key == *key)
}

/// How many requests in front are due at that count.
fn count_due(entries: &[DueRequest], count: u32) -> usize
    ensures { result ≡ prefix_len (λ entry. entry.due == count) entries.now }
{
    entries
        .iter()
        .take_while(|entry| entry.due == count)
        .count()
}

/// Takes the requests in front that are due at that count out. Where there are none it costs no more than a
/// look at the first.
pub(crate) fn expire(entries: &mut DueRequests, count: u32)
    ensures { entries.new.items ≡ drop (prefix_len (λ entry. entry.due == count) entries.old.items) entries.old.items }
{
    let due = count_due(entries.as_slice(), count);
    if due > 0 {
        entries.drain(..due);
    }
}
