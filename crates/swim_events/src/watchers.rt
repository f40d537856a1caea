//! What is to be sent to a watcher.

ghost use Rattle.std.specs.Prelude.{◌≡◌, ◌≤◌, ◌+◌, ◌*◌, ◌++◌, ◌∷◌, [], ◌↔◌, ℕ, List, IsTrue, IfOk, OnOk, length, take};
ghost use Rattle.std.specs.Prelude.{drop};
ghost use Rattle.std.specs.Vec.{vec_capacity};
ghost use Rattle.swim_events.specs.Texts.{rows_text, table_text};
ghost use Rattle.swim_events.specs.Watchers.{after_text, after_sent, IsStream, is_behind, losing};

use crate::events::{Event, LINE_BYTES, event_of_row, line_of};
use std::alloc::{AllocError, Global};
use std::marker::Model;
use swim_history::{KNOWN_MEMBERS, Row};

/// How many bytes may wait to be sent to a watcher.
pub const WATCHER_BYTES: usize = 65_536;

/// Whether a watcher keeps up.
#[derive(Clone, Copy, Debug, PartialEq, Eq)]
pub enum WatcherStanding {
    /// It was told all.
    Following,
    /// It can't be told all any more, and there is no room yet to tell it so.
    Losing,
    /// It can't be told all any more, and `lost` is its last line.
    Lost,
}

/// What is to be sent to a watcher. It takes texts whole or not at all, and the first that doesn't fit is the end: then
/// it takes nothing more but the line `lost`, as soon as that fits. A contract sees the bytes that are to be sent, and
/// whether the watcher keeps up.
#[derive(Drop)]
pub struct Watcher {
    pending: Vec<u8>,
    standing: WatcherStanding,
}

impl Model for Watcher {
    ghost use Rattle.std.specs.Prelude.{◌≤◌, length};
    ghost use Rattle.std.specs.Vec.{vec_capacity};
    ghost use Rattle.swim_events.specs.Watchers.{AtWatcher};

    ghost Value = { AtWatcher };

    ghost view = { λ w. record { pending = w.pending.items; standing = w.standing } };

    ghost invariant = { λ w. (65536 ≤ vec_capacity w.pending) × (length w.pending.items ≤ 65536) };
}

impl Watcher {
    /// A watcher who is to be told these rows first, and a dot. All the memory that it takes is taken here; `Err` only
    /// where that was refused.
    pub fn new(alloc: Global, rows: &[Row]) -> Result<Watcher, AllocError>
        requires { length rows.now ≤ KNOWN_MEMBERS }
        ensures told { IfOk result (λ w. w ≡ record { pending = table_text rows.now; standing = WatcherStanding.Following }) }
        ensures stream { IfOk result (λ w. IsStream (table_text rows.now) [] [] w) }
    {
        let mut pending = Vec::with_capacity(alloc, WATCHER_BYTES)?;
        add_rows(&mut pending, rows)?;
        pending.extend_from_slice(b".\n")?;
        Ok(Watcher {
            pending,
            standing: WatcherStanding::Following,
        })
    }

    /// Takes a text, if it fits behind the bytes that are still to be sent and the watcher keeps up.
    pub fn put(&mut self, text: &[u8])
        ensures exact { self.new ≡ after_text text.now self.old }
        ensures keeps_up { self.new.standing ≡ WatcherStanding.Following →
            (self.old.standing ≡ WatcherStanding.Following) × (self.new.pending ≡ self.old.pending ++ text.now) }
        ensures stream { (first : List ℕ) (texts : List (List ℕ)) (sent : List ℕ) → IsStream first texts sent self.old →
            IsStream first (texts ++ text.now ∷ []) sent self.new }
    {
        self.take_text(text)
    }

    /// The bytes that are to be sent.
    pub fn pending(&self) -> &[u8]
        ensures value { result.now ≡ self.now.pending }
        ensures bound { length result.now ≤ WATCHER_BYTES }
    {
        self.pending.as_slice()
    }

    /// The first `count` of the bytes were sent.
    pub fn sent(&mut self, count: usize)
        requires { count ≤ length self.old.pending }
        ensures exact { self.new ≡ after_sent count self.old }
        ensures keeps_up { self.new.standing ≡ WatcherStanding.Following →
            (self.old.standing ≡ WatcherStanding.Following) × (self.new.pending ≡ drop count self.old.pending) }
        ensures stream { (first : List ℕ) (texts : List (List ℕ)) (sent : List ℕ) → IsStream first texts sent self.old →
            IsStream first texts (sent ++ take count self.old.pending) self.new }
    {
        self.drop_sent(count)
    }

    /// Whether the watcher can't be told all any more.
    pub fn is_losing(&self) -> bool
        ensures { result ≡ is_behind self.now }
    {
        self.standing != WatcherStanding::Following
    }

    /// Whether the watcher is lost and all was sent to it, `lost` too: its connection is to be closed.
    pub fn is_over(&self) -> bool
        ensures { IsTrue result ↔ ((self.now.standing ≡ WatcherStanding.Lost) × (self.now.pending ≡ [])) }
    {
        self.standing == WatcherStanding::Lost && self.pending.is_empty()
    }

    fn take_text(&mut self, text: &[u8])
        ensures { self.new ≡ after_text text.now self.old }
    {
        if self.standing != WatcherStanding::Following {
            return;
        }
        if text.len() > WATCHER_BYTES - self.pending.len() {
            self.lose();
            return;
        }
        let _taken = self.pending.extend_from_slice(text);
    }

    fn drop_sent(&mut self, count: usize)
        requires { count ≤ length self.old.pending }
        ensures { self.new ≡ after_sent count self.old }
    {
        drop_front(&mut self.pending, count);
        if self.standing == WatcherStanding::Losing {
            self.lose();
        }
    }

    /// The watcher can't be told all any more: it is told so, where that fits.
    fn lose(&mut self)
        ensures { self.new ≡ losing self.old.pending }
    {
        let line = line_of(&Event::Lost);
        let text = line.as_str().as_bytes();
        if text.len() > WATCHER_BYTES - self.pending.len() {
            self.standing = WatcherStanding::Losing;
            return;
        }
        let _done = self.pending.extend_from_slice(text);
        self.standing = WatcherStanding::Lost;
    }
}

/// Takes the first bytes away. It takes no memory.
fn drop_front(bytes: &mut Vec<u8>, count: usize)
    requires { count ≤ length bytes.old.items }
    ensures items { bytes.new.items ≡ drop count bytes.old.items }
    ensures capacity { vec_capacity bytes.new ≡ vec_capacity bytes.old }
{
    let left = bytes.len() - count;
    bytes.rotate_left(count);
    bytes.truncate(left);
}

/// Adds the line of each row.
fn add_rows(bytes: &mut Vec<u8>, rows: &[Row]) -> Result<(), AllocError>
    ensures items { OnOk result (bytes.new.items ≡ bytes.old.items ++ rows_text rows.now) }
    ensures capacity { vec_capacity bytes.old ≤ vec_capacity bytes.new }
    ensures bound { OnOk result (length bytes.new.items ≤ length bytes.old.items + LINE_BYTES * length rows.now) }
{
    let [first, others @ ..] = rows else {
        return Ok(());
    };
    bytes.extend_from_slice(line_of(&event_of_row(first)).as_str().as_bytes())?;
    add_rows(bytes, others)
}
