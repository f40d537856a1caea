//! A recorder that counts.

use super::*;

/// A recorder that counts the calls that it reads, by their seats, and the journals that it finishes.
#[derive(Drop)]
pub struct CountingRecorder {
    pub first: u32,
    pub second: u32,
    pub third: u32,
    pub fourth: u32,
    pub journals: u32,
}

impl CountingRecorder {
    pub fn new() -> CountingRecorder {
        CountingRecorder {
            first: 0,
            second: 0,
            third: 0,
            fourth: 0,
            journals: 0,
        }
    }

    fn count(&mut self, seat: u8) {
        let count = match seat {
            0 => &mut self.first,
            1 => &mut self.second,
            2 => &mut self.third,
            _ => &mut self.fourth,
        };
        *count = count.saturating_add(1);
    }
}

impl Recorder for CountingRecorder {
    ghost records = { λ old o read new. Unit {0} };

    fn record<N: Naming, H: Wait + Drop, R: Wait>(
        &mut self,
        rt: &R,
        node: &Node<N, Seeded, H>,
        over: &AtomicBool,
        _meters: &Meters,
        follower: Follower<N>,
    ) -> Follower<N> {
        let mut follower = follower;
        for _turn in rt.forever() {
            if over.load(Ordering::SeqCst) {
                break;
            }
            match node.follow(rt, &mut follower) {
                Some(next) => self.count(next.seat),
                None => yield_now(),
            }
        }
        follower
    }

    fn finish<R: Wait>(&mut self, _rt: &R, journal: &Journal, read: usize, _meters: &Meters) {
        for place in 0..journal.len() {
            if let Some(entry) = journal.entry(place) {
                if place as usize >= read {
                    self.count(entry.seat);
                }
            }
        }
        self.journals = self.journals.saturating_add(1);
    }
}
