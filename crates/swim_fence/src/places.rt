//! Places of addresses in a list, which are found by a hash.

ghost use Rattle.std.specs.Prelude.{◌≡◌, ◌<◌, ◌≤◌, IfSome, length, position};
ghost use Rattle.std.specs.List.{list_any};
ghost use Rattle.std.specs.List.Sorted.{IsPermutation};
ghost use Rattle.swim_fence.specs.Histories.{is_same};
ghost use Rattle.swim_fence.specs.Places.{hash_of, IsIndexed};

use arrayvec::ArrayVec;
use std::marker::Model;
use swim_wire::{KNOWN_MEMBERS, Peer};

/// The hashes are below that.
const HASHES: usize = 512;

/// An odd number by which addresses that follow each other are spread: 2^64 divided by the golden ratio.
const SPREAD: u64 = 0x9E37_79B9_7F4A_7C15;

/// Addresses in the order of their hashes. Those of one hash stand from its start to its end, so that an address is
/// compared with few others, whatever is looked up.
#[derive(Drop)]
pub(crate) struct Places {
    members: ArrayVec<Peer, KNOWN_MEMBERS>,
    starts: [u8; HASHES],
    ends: [u8; HASHES],
}

impl Model for Places {
    ghost use Rattle.std.specs.Prelude.{List};
    ghost use Rattle.swim_wire.specs.Address.{Address};
    ghost use Rattle.swim_fence.specs.Places.{IsIndexed};

    ghost Value = { List Address };

    ghost view = { λ places. places.members.items };

    ghost invariant = { λ places. IsIndexed places.members.items places.starts places.ends };
}

impl Places {
    /// These addresses in some order.
    pub(crate) fn of(members: &[Peer]) -> Places
        requires { length members.now ≤ KNOWN_MEMBERS }
        ensures order { IsPermutation members.now result }
        ensures fits { length result ≤ KNOWN_MEMBERS }
    {
        let mut sorted = ArrayVec::new();
        let _ = sorted.try_extend_from_slice(members);
        sorted
            .as_mut_slice()
            .sort_unstable_by_key(|member| hash_of(member));
        Places::indexed(sorted)
    }

    /// These addresses in that order.
    fn indexed(members: ArrayVec<Peer, KNOWN_MEMBERS>) -> Places
        ensures value { result ≡ members.items }
        ensures fits { length result ≤ KNOWN_MEMBERS }
    {
        let mut starts = [u8::MAX; HASHES];
        let mut ends = [0; HASHES];
        for (place, member) in members.as_slice().iter().enumerate() {
            let hash = hash_of(member);
            starts[hash] = starts[hash].min(place as u8);
            ends[hash] = ends[hash].max(place as u8 + 1);
        }
        Places {
            members,
            starts,
            ends,
        }
    }

    /// The addresses in their order.
    pub(crate) fn as_slice(&self) -> &[Peer]
        ensures value { result.now ≡ self.now }
        ensures fits { length self.now ≤ KNOWN_MEMBERS }
    {
        self.members.as_slice()
    }

    /// The first place of an address. It is compared with those of the same hash.
    pub(crate) fn place_of(&self, peer: &Peer) -> Option<usize>
        ensures value { result ≡ position (is_same peer.now) self.now }
        ensures within { IfSome result (λ place. place < KNOWN_MEMBERS) }
    {
        let hash = hash_of(peer);
        let members = self.members.as_slice();
        let start = usize::from(self.starts[hash]);
        let end = usize::from(self.ends[hash]);
        for place in start..end {
            if is_same(peer, &members[place]) {
                return Some(place);
            }
        }
        None
    }
}

/// Whether both are the same address.
fn is_same(first: &Peer, second: &Peer) -> bool
    ensures { result ≡ is_same first.now second.now }
{
    first.ip.as_slice() == second.ip.as_slice() && first.port == second.port
}

/// The hash of an address: the highest bits of a product.
fn hash_of(peer: &Peer) -> usize
    ensures value { result ≡ hash_of peer.now }
    ensures below { result < HASHES }
{
    let ip = u32::from_be_bytes(peer.ip);
    let port = peer.port;
    let address = u64::from(ip) * 65536 + u64::from(port);
    (address.wrapping_mul(SPREAD) >> 55) as usize
}
