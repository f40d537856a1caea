//! The rules by which datagrams are let in and signed: they may change while a daemon runs.

ghost use Rattle.std.specs.Prelude.{◌≡◌, ◌≤◌, length};

use arrayvec::ArrayVec;
use std::sync::atomic::{AtomicU32, AtomicU64, Ordering};
use std::sync::{Mutex, Wait};
use swim_keys::{GroupKey, MOST_KEYS};

/// The keys of a group, of which the first signs; none where datagrams aren't signed.
pub type RingKeys = ArrayVec<GroupKey, MOST_KEYS>;

/// The rules that are in force: the keys of the group, and how many datagrams a second of an address the fence lets in.
/// Lines and posts in several threads look them up before each datagram, while one thread may change them. To look
/// whether they changed takes no lock.
#[derive(Drop)]
pub struct RuleBook {
    // Counts the changes of the keys. It grows behind such a change, so that whoever sees it grown finds the new keys.
    edition: AtomicU64,
    keys: Mutex<RingKeys>,
    rate: AtomicU32,
}

impl RuleBook {
    /// A book with these keys and this rate.
    pub fn new(keys: &[GroupKey], rate: u32) -> RuleBook
        requires { length keys.now ≤ MOST_KEYS }
    {
        RuleBook {
            edition: AtomicU64::new(0),
            keys: Mutex::new(ring_of(keys)),
            rate: AtomicU32::new(rate),
        }
    }

    /// From now on these keys and this rate are in force. One thread alone changes a book.
    pub fn change<R: Wait>(&self, rt: &R, keys: RingKeys, rate: u32) {
        self.rate.store(rate, Ordering::SeqCst);
        *self.keys.lock(rt) = keys;
        self.edition.fetch_add(1, Ordering::SeqCst);
    }

    /// The keys that are in force.
    pub fn keys<R: Wait>(&self, rt: &R) -> RingKeys {
        ring_of(self.keys.lock(rt).as_slice())
    }

    /// How often the keys changed.
    pub(crate) fn edition(&self) -> u64 {
        self.edition.load(Ordering::SeqCst)
    }

    /// How many datagrams a second of an address are let in, and a burst of as many; 0 for all.
    pub(crate) fn rate(&self) -> u32 {
        self.rate.load(Ordering::SeqCst)
    }
}

/// These keys, in their order.
fn ring_of(keys: &[GroupKey]) -> RingKeys
    requires { length keys.now ≤ MOST_KEYS }
    ensures { result.items ≡ keys.now }
{
    let mut ring = RingKeys::new();
    let _ = ring.try_extend_from_slice(keys);
    ring
}
