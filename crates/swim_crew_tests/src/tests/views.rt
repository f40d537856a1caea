//! What a keeper writes, life by life.

ghost use Rattle.std.specs.Prelude.{List};
ghost use Rattle.swim_crew.specs.declared.pasts.Past.{Past};
ghost use Rattle.swim_crew.specs.Views.{MovedBy};
ghost use Rattle.swim_crew_tests.specs.Lines.{TellsLine};

use super::*;

/// A keeper that writes a line for each life that is over, with its number.
#[derive(Drop)]
struct LineKeeper<W: Sink + Drop> {
    sink: W,
}

impl<W: Sink + Drop, D: Recorder> Keeper<D> for LineKeeper<W> {
    ghost use Rattle.std.specs.Prelude.{◌≡◌};
    ghost use Rattle.swim_crew_tests.specs.Lines.{TellsLine};

    ghost opens = { λ old d number opening new e. W.written new.sink ≡ W.written old.sink };

    ghost closes = { λ old d number past new e. TellsLine number past (W.written old.sink) (W.written new.sink) };

    fn open<R: Wait>(&mut self, _rt: &R, _number: u64, _opening: &Opening, _recorder: &mut D) {}

    fn close<R: Wait>(&mut self, _rt: &R, number: u64, _past: &Past, _recorder: &mut D) {
        let _is_put = put_numbered(&mut self.sink, b"\nlife ", number);
    }
}

// Whatever the crew is: the keeper has written a line for each life, in order, and nothing else.
fn run_told<
    R: Threads + Wait + Sync,
    A: Worker + Send,
    B: Worker + Send,
    C: Worker,
    D: Recorder + Send,
    W: Sink + Drop,
>(
    rt: &R,
    alloc: Global,
    opening: Opening,
    terms: Terms,
    crew: Crew<A, B, C, D>,
    keeper: &mut LineKeeper<W>,
) -> LivesEnd
    ensures { (lives : List Past) × MovedBy TellsLine (W.written keeper.old.sink) lives (W.written keeper.new.sink) }
{
    let (end, _crew) = run_lives(rt, alloc, opening, terms, crew, keeper);
    end
}

#[test]
fn each_life_is_told_by_a_line(rt: HostRuntime) -> Result<(), Fail> {
    let crew = crew(
        rt.alloc(),
        TickingWorker::new(12, Then::Stops),
        TickingWorker::new(0, Then::Waits),
        TickingWorker::new(0, Then::Waits),
    )?;
    let terms = Terms {
        seed: [0; 32],
        limit: 5,
    };
    let mut keeper = LineKeeper {
        sink: Page::new(rt.alloc()),
    };
    let _end = run_told(&rt, rt.alloc(), opening()?, terms, crew, &mut keeper);
    assert!(rt; keeper.sink.text() == &b"\nlife 0\nlife 1\nlife 2"[..]);
    Ok(())
}
