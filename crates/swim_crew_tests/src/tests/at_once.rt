//! Workers and a recorder that wait for one another.

use super::*;

/// How often one of a crew waits for the others, for 50 microseconds each time, before it gives up.
const TURNS: u32 = 100_000;

// Comes to a meeting of four, and waits until all have come.
fn meet<K: Clock>(clock: &K, arrived: &AtomicU32) -> bool {
    arrived.fetch_add(1, Ordering::SeqCst);
    for _turn in 0..TURNS {
        if arrived.load(Ordering::SeqCst) >= 4 {
            return true;
        }
        sleep(clock, Duration::from_micros(50));
    }
    false
}

/// A worker or a recorder that waits until all four of a crew are at work.
#[derive(Drop)]
struct Meeting<'s, K: Clock + Drop> {
    clock: K,
    arrived: &'s AtomicU32,
    has_met: bool,
}

impl<'s, K: Clock + Drop> Worker for Meeting<'s, K> {
    ghost works = { λ old o limit seat seen end new. Unit {0} };

    fn work<N: Naming, H: Wait + Drop, R: Wait>(
        &mut self,
        _rt: &R,
        _node: &Node<N, Seeded, H>,
        _over: &AtomicBool,
        seat: Seat<N>,
        viewer: Viewer<N>,
        _meter: &Meter,
    ) -> Done<N> {
        self.has_met = meet(&self.clock, self.arrived);
        Done {
            seat,
            viewer,
            end: End {
                why: None,
                counts: Counts::none(),
            },
        }
    }
}

impl<'s, K: Clock + Drop> Recorder for Meeting<'s, K> {
    ghost records = { λ old o read new. Unit {0} };

    fn record<N: Naming, H: Wait + Drop, R: Wait>(
        &mut self,
        _rt: &R,
        _node: &Node<N, Seeded, H>,
        _over: &AtomicBool,
        _meters: &Meters,
        follower: Follower<N>,
    ) -> Follower<N> {
        self.has_met = meet(&self.clock, self.arrived);
        follower
    }

    fn finish<R: Wait>(&mut self, _rt: &R, _journal: &Journal, _read: usize, _meters: &Meters) {}
}

// Whoever of a crew would have to wait until another one has ended would never meet it.
#[test]
fn all_four_are_at_work_at_once(rt: HostRuntime) -> Result<(), Fail> {
    let arrived = AtomicU32::new(0);
    let one = || Meeting {
        clock: rt,
        arrived: &arrived,
        has_met: false,
    };
    let crew = Crew {
        first: Box::new(rt.alloc(), one())?,
        second: Box::new(rt.alloc(), one())?,
        third: Box::new(rt.alloc(), one())?,
        recorder: Box::new(rt.alloc(), one())?,
    };
    let chooser = Seeded::new([0; 32]);
    let (past, crew) = live(&rt, rt.alloc(), opening()?, chooser, 8, crew);
    assert!(rt; past.is_ok());
    assert!(rt; crew.first.has_met && crew.second.has_met);
    assert!(rt; crew.third.has_met && crew.recorder.has_met);
    Ok(())
}
