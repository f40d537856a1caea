//! A reporter that counts what it hears.

ghost use Rattle.std.specs.Prelude.{None};

use std::sync::Wait;
use swim_history::{Change, Opening};
use swim_node::Followed;
use swim_recorder::{Reporter, Standing};

/// How many lives began, how many calls there were, and how many of them changed the member table.
#[derive(Drop)]
pub struct Listener {
    pub lives: u32,
    pub calls: u32,
    pub changes: u32,
}

impl Listener {
    /// It heard of nothing yet.
    pub fn new() -> Listener {
        Listener {
            lives: 0,
            calls: 0,
            changes: 0,
        }
    }
}

impl Reporter for Listener {
    ghost heard = { λ l. None };

    fn begins(&mut self, _opening: &Opening) {
        self.lives = self.lives.saturating_add(1);
    }

    fn hear<R: Wait>(&mut self, _rt: &R, _next: &Followed, change: &Option<Change>) {
        self.calls = self.calls.saturating_add(1);
        if change.is_some() {
            self.changes = self.changes.saturating_add(1);
        }
    }

    fn rest<R: Wait>(&mut self, _rt: &R, _standing: Standing) {}
}
