//! A speaker that counts.

use std::sync::Wait;
use swim_control::{ReloadText, StatsText};
use swim_desk::Speaker;

/// How often it was to tell what is due, and of how many it was told last that were turned away.
#[derive(Drop)]
pub struct Teller {
    pub turns: u32,
    pub turned_away: u64,
}

impl Teller {
    pub fn new() -> Teller {
        Teller {
            turns: 0,
            turned_away: 0,
        }
    }
}

impl Speaker for Teller {
    fn stats<R: Wait>(&self, _rt: &R) -> StatsText {
        let mut text = StatsText::new();
        let _is_added = text.try_extend_from_slice(b"lives 7\n.\n");
        text
    }

    fn reload<R: Wait>(&mut self, _rt: &R) -> ReloadText {
        let mut text = ReloadText::new();
        let _is_added = text.try_extend_from_slice(b"reloaded; wire needs a start\n");
        text
    }

    fn tell<R: Wait>(&mut self, _rt: &R, turned_away: u64) {
        self.turns = self.turns.saturating_add(1);
        self.turned_away = turned_away;
    }
}
