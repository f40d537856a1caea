//! Lives that are refused memory. tests/node/refusals runs it with one request for memory refused, the first, the second
//! and so on; else none is. Where a call was refused, it writes a line.

ghost use Rattle.std.specs.Prelude.{◌≡◌};

use super::*;

/// A keeper that counts the lives that were to begin, those that are over, and the calls in them that were refused.
#[derive(Drop)]
struct CountingKeeper {
    begun: u32,
    over: u32,
    refused: u64,
}

impl<D: Recorder> Keeper<D> for CountingKeeper {
    ghost opens = { λ old d number opening new e. e ≡ d };

    ghost closes = { λ old d number past new e. e ≡ d };

    fn open<R: Wait>(&mut self, _rt: &R, _number: u64, _opening: &Opening, _recorder: &mut D) {
        self.begun = self.begun.saturating_add(1);
    }

    fn close<R: Wait>(&mut self, _rt: &R, _number: u64, past: &Past, _recorder: &mut D) {
        self.over = self.over.saturating_add(1);
        self.refused = self.refused.saturating_add(past.refused());
    }
}

// Lives that are stopped in the third, or in the second if a tick was refused; a life whose node gets no memory is the
// last one. The recorder comes back from each. Where there is no memory for the crew, there is no life.
#[test]
fn lives_end_without_memory(rt: HostRuntime) -> Result<(), Fail> {
    let opening = opening()?;
    let first = TickingWorker::new(12, Then::Stops);
    let second = TickingWorker::new(0, Then::Waits);
    let third = TickingWorker::new(0, Then::Waits);
    let Ok(crew) = crew(rt.alloc(), first, second, third) else {
        return Ok(());
    };
    let mut keeper = CountingKeeper {
        begun: 0,
        over: 0,
        refused: 0,
    };
    let terms = Terms {
        seed: [0; 32],
        limit: 5,
    };
    let (end, crew) = run_lives(&rt, rt.alloc(), opening, terms, crew, &mut keeper);
    let CountingKeeper {
        begun,
        over,
        refused,
    } = keeper;
    assert_same(&rt, &crew.recorder.journals, &over);
    let is_stopped = end == LivesEnd::Stopped && begun == over && (over == 2 || over == 3);
    let is_refused = end == LivesEnd::NoMemory && over <= 3 && (begun == over || begun == over + 1);
    assert!(rt; is_stopped || is_refused);
    assert!(rt; refused < 2);
    if refused > 0 {
        println!(rt; "a call was refused")?;
    }
    Ok(())
}
