//! A pace and posts in memory, which keep what they gave and what they were handed.

ghost use Rattle.std.specs.Prelude.{◌≡◌, ◌++◌, ◌∷◌, [], None, Some, OnOk};

use std::alloc::{AllocError, Global};
use std::marker::Model;
use std::sync::Wait;
use swim_wire::Peer;
use swim_work::{Beat, Pace, Post, TidingsBoard};

/// A pace of these beats, and then of stops.
#[derive(Drop)]
pub(crate) struct ListedPace<'b> {
    beats: &'b [Beat],
    pub(crate) given: Vec<Beat>,
}

impl<'b> ListedPace<'b> {
    pub(crate) fn new(alloc: Global, beats: &'b [Beat]) -> ListedPace<'b> {
        ListedPace {
            beats,
            given: Vec::new(alloc),
        }
    }

    /// The beat that comes next.
    fn beat(&self) -> Beat {
        match self.beats.get(self.given.len()) {
            Some(beat) => *beat,
            None => Beat::Stop,
        }
    }
}

impl<'b> Pace for ListedPace<'b> {
    ghost beats = { λ pace. Some pace.given.items };

    // Where it gets no memory it waits for good.
    fn next<R: Wait>(&mut self, rt: &R) -> Beat {
        let beat = self.beat();
        if self.given.push(beat).is_err() {
            for _turn in rt.forever() {}
        }
        beat
    }
}

/// A pace of ticks, before each of which it has another of these rules stand on a board, and then of stops.
#[derive(Drop)]
pub(crate) struct RulingPace<'b> {
    board: &'b TidingsBoard,
    rules: &'b [u16],
    given: usize,
}

impl<'b> RulingPace<'b> {
    pub(crate) fn new(board: &'b TidingsBoard, rules: &'b [u16]) -> RulingPace<'b> {
        RulingPace {
            board,
            rules,
            given: 0,
        }
    }
}

impl<'b> Pace for RulingPace<'b> {
    ghost beats = { λ pace. None };

    fn next<R: Wait>(&mut self, _rt: &R) -> Beat {
        match self.rules.get(self.given) {
            Some(rejoin) => {
                self.board.rule(*rejoin);
                self.given = self.given.saturating_add(1);
                Beat::Tick
            }
            None => Beat::Stop,
        }
    }
}

/// A datagram that a post was handed.
#[derive(Drop)]
pub(crate) struct Sheet {
    pub(crate) bytes: Vec<u8>,
    pub(crate) to: Peer,
    pub(crate) is_taken: bool,
}

impl Model for Sheet {
    ghost use Rattle.swim_work.specs.Posts.{Posted};

    ghost Value = { Posted };

    ghost view = { λ s. record { bytes = s.bytes.items; to = s.to; is_taken = s.is_taken } };
}

/// A post that keeps what it is handed, and takes all of it, or nothing.
#[derive(Drop)]
pub(crate) struct KeepingPost {
    alloc: Global,
    is_taking: bool,
    pub(crate) sheets: Vec<Sheet>,
}

impl KeepingPost {
    pub(crate) fn new(alloc: Global, is_taking: bool) -> KeepingPost {
        KeepingPost {
            alloc,
            is_taking,
            sheets: Vec::new(alloc),
        }
    }

    fn keep(&mut self, bytes: &[u8], to: Peer, is_taken: bool) -> Result<(), AllocError>
        ensures { OnOk result (self.new.sheets.items
            ≡ self.old.sheets.items ++ record { bytes = bytes.now; to = to; is_taken = is_taken } ∷ []) }
    {
        let bytes = bytes.to_vec(self.alloc)?;
        self.sheets.push(Sheet {
            bytes,
            to,
            is_taken,
        })?;
        Ok(())
    }
}

impl Post for KeepingPost {
    ghost posted = { λ post. Some post.sheets.items };

    fn fresh(&self) -> KeepingPost {
        KeepingPost {
            alloc: self.alloc,
            is_taking: self.is_taking,
            sheets: Vec::new(self.alloc),
        }
    }

    // Where it gets no memory it waits for good.
    fn send<R: Wait>(&mut self, rt: &R, bytes: &[u8], to: Peer) -> bool {
        let is_taken = self.is_taking;
        if self.keep(bytes, to, is_taken).is_err() {
            for _turn in rt.forever() {}
        }
        is_taken
    }
}
