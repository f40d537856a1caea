//! The crew of a daemon, over gates in memory.

use super::*;
use std::alloc::AllocError;
use swim_control::{ReloadText, StatsText};
use swim_desk::Speaker;

/// What a crew asks, and what it sends by: where datagrams come in; where they go out, by two posts of the ticker; what
/// gives the ticks; and where operators come in.
pub type Gates<L, O, P, D> = (L, O, P, D);

/// A speaker that tells nothing.
#[derive(Drop)]
pub struct Mute {}

impl Speaker for Mute {
    fn stats<R: Wait>(&self, _rt: &R) -> StatsText {
        StatsText::new()
    }

    fn reload<R: Wait>(&mut self, _rt: &R) -> ReloadText {
        ReloadText::new()
    }

    fn tell<R: Wait>(&mut self, _rt: &R, _turned_away: u64) {}
}

/// A recorder that reads a journal once its life is over, and writes it nowhere. Nobody watches.
pub type Quiet = JournalRecorder<Page, Never, NoOutlet, NoEntrance, NoReporter>;

/// That recorder.
pub fn quiet(alloc: Global, opening: &Opening) -> Quiet {
    JournalRecorder::new(
        alloc,
        opening,
        Never {},
        Gallery::new(alloc),
        NoEntrance {},
        NoReporter {},
    )
}

/// A crew over these gates, with a quiet recorder.
pub type GatedCrew<'b, L, O, P, D> = Crew<
    Receiver<'b, L, O>,
    Ticker<'b, P, O>,
    Controller<D, Mute>,
    Quiet,
>;

/// That crew. It knocks as the board says.
pub fn crew<'b, L: Line + Drop, O: Post + Drop, P: Pace + Drop, D: Door + Drop>(
    alloc: Global,
    opening: &Opening,
    board: &'b TidingsBoard,
    gates: Gates<L, O, P, D>,
) -> Result<GatedCrew<'b, L, O, P, D>, AllocError> {
    let (line, post, pace, door) = gates;
    let (for_ticks, for_knocks) = (post.fresh(), post.fresh());
    Ok(Crew {
        first: Box::new(
            alloc,
            Receiver {
                line,
                post,
                returning: Returning::new(board, opening.me()),
                board,
            },
        )?,
        second: Box::new(
            alloc,
            Ticker {
                pace,
                post: for_ticks,
                knock_post: for_knocks,
                lookup: RejoinLookup::new(board),
                knocks: 0,
                board,
            },
        )?,
        third: Box::new(
            alloc,
            Controller {
                alloc,
                hall: Hall::new(alloc, door),
                speaker: Mute {},
            },
        )?,
        recorder: Box::new(alloc, quiet(alloc, opening))?,
    })
}

/// A life over these gates, with a journal of so many entries. It knocks at nobody. `None`: it got no node.
pub fn live_over<
    R: Threads + Wait + Sync,
    L: Line + Drop + Send,
    O: Post + Drop + Send,
    P: Pace + Drop + Send,
    D: Door + Drop,
>(
    rt: &R,
    alloc: Global,
    opening: Opening,
    limit: u32,
    gates: Gates<L, O, P, D>,
) -> Result<Option<Past>, AllocError> {
    let board = TidingsBoard::new(opening.last(), 0);
    let crew = crew(alloc, &opening, &board, gates)?;
    let (past, _crew) = live(rt, alloc, opening, chooser(), limit, crew);
    Ok(past.ok())
}
