//! Lives of two entries each.

use super::crews::GatedCrew;
use super::shelves::Counter;
use super::*;
use std::alloc::AllocError;
use swim_events::{Entrance, Outlet};
use swim_keeper::LifeKeeper;
use swim_recorder::{Reporter, Shelf};
use swim_text::Sink;

/// What they came to: their end, how many began, what was told of them, and who kept their files and recorded them.
#[derive(Drop)]
pub struct Lived<
    V: Sink + Drop,
    S: Drop,
    Q: Pace + Drop,
    E: Outlet + Drop,
    I: Entrance<E> + Drop,
    Y: Reporter + Drop,
> {
    pub end: LivesEnd,
    pub begun: u64,
    pub page: Page,
    pub shelf: S,
    pub recorder: Box<JournalRecorder<V, Q, E, I, Y>>,
}

/// Lives of member 1, which knows member 2 and asks no relay. Nobody comes to its door, its line is idle, and its pace
/// gives five ticks and then a stop.
pub fn live_shortly<
    R: Threads + Wait + Clock + Send + Sync + Copy + Drop,
    V: Sink + Drop + Send,
    S: Shelf<V> + Drop,
    Q: Pace + Drop + Send,
    E: Outlet + Drop + Send,
    I: Entrance<E> + Drop + Send,
    Y: Reporter + Drop + Send,
>(
    rt: &R,
    alloc: Global,
    shelf: S,
    recorder: JournalRecorder<V, Q, E, I, Y>,
) -> Result<Lived<V, S, Q, E, I, Y>, Fail> {
    let opening = pair()?;
    let signals = Signals::new(false);
    let is_told = AtomicBool::new(true);
    let board = TidingsBoard::new(0, 0);
    let Crew {
        first,
        second,
        third,
        recorder: _,
    } = ticking_crew(*rt, alloc, &opening, &board, &signals, &is_told)?;
    let crew = Crew {
        first,
        second,
        third,
        recorder: Box::new(alloc, recorder)?,
    };
    let terms = Terms {
        seed: [0; 32],
        limit: 2,
    };
    let mut shelf = shelf;
    let mut herald = Counter { begun: 0 };
    let mut page = Page::new(alloc);
    let mut notices = Page::new(alloc);
    let mut keeper = LifeKeeper {
        writer: &mut page,
        notices: &mut notices,
        herald: &mut herald,
        shelf: &mut shelf,
        board: &board,
        terms,
    };
    let (end, crew) = run_lives(rt, alloc, opening, terms, crew, &mut keeper);
    drop(keeper);
    let begun = herald.begun;
    Ok(Lived {
        end,
        begun,
        page,
        shelf,
        recorder: crew.recorder,
    })
}

// A crew whose line is idle, and whose pace gives five ticks and then a stop.
fn ticking_crew<'s, R: Clock + Copy + Drop>(
    rt: R,
    alloc: Global,
    opening: &Opening,
    board: &'s TidingsBoard,
    signals: &'s Signals,
    is_told: &'s AtomicBool,
) -> Result<GatedCrew<'s, PingLine<'s, R>, TakingPost, StopPace<'s, R>, NoDoor<R>>, AllocError> {
    let post = TakingPost {};
    let door = NoDoor { clock: rt };
    let gates = (line(rt, signals, 0), post, pace(rt, is_told, 5), door);
    crew(alloc, opening, board, gates)
}
