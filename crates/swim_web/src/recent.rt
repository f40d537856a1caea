//! The events that were heard last.

ghost use Rattle.std.specs.Prelude.{◌≡◌, ◌++◌, [], map, ◌∷◌};
ghost use Rattle.swim_text.specs.Streams.{Puts};
ghost use Rattle.swim_web.specs.Changes.{changes_text};
ghost use Rattle.swim_web.specs.Recent.{Notes, event_text, events_text, kept_then, last_of, seen_of, stream_text};
ghost use Rattle.swim_web.specs.Recent.{unseen_text};

use crate::changes::put_changes;
use crate::tellers::{EventLine, Teller};
use arrayvec::ArrayVec;
use std::marker::Model;
use swim_text::Sink;
use swim_wire::{Piece, put_pieces};

/// How many events are kept.
const RECENT: usize = 64;

/// How many events are taken in at most before others have their turns.
const EVENTS: usize = 64;

/// Events, oldest first.
type EventLines = ArrayVec<EventLine, RECENT>;

/// The last 64 events, and how many there were in all. A contract sees both.
#[derive(Drop)]
pub struct Recent {
    lines: EventLines,
    told: u64,
}

impl Model for Recent {
    ghost use Rattle.std.specs.Prelude.{map};
    ghost use Rattle.swim_web.specs.Recent.{Kept};

    ghost Value = { Kept };

    ghost view = { λ r. record { told = r.told; lines = map (λ l. l.items) r.lines.items } };
}

impl Recent {
    /// Returns that there were no events.
    pub fn new() -> Recent
        ensures { result ≡ record { told = 0; lines = [] } }
    {
        Recent {
            lines: ArrayVec::new(),
            told: 0,
        }
    }

    /// Adds an event. With 64 of them the oldest goes.
    pub fn note(&mut self, line: EventLine)
        ensures { self.new ≡ kept_then self.old line.items }
    {
        keep(&mut self.lines, line);
        self.told = self.told.saturating_add(1);
    }

    /// Writes the events above a number as a stream of Server-Sent Events, whose reader asks again after two seconds.
    /// A number that no event has yet counts as 0. Returns whether the sink took all of it.
    #[tactic(auto, using(swim_text::specs::Streams::puts_then, swim_text::specs::Streams::puts_less))]
    pub fn put_stream<W: Sink>(&self, writer: &mut W, number: u64) -> bool
        ensures { Puts (W.written writer.old) (W.written writer.new) (stream_text number self.now) result }
    {
        if !writer.put(b"retry: 2000\n\n") {
            return false;
        }
        let seen = seen_of(self.told, number);
        let first = self.told.saturating_sub(self.lines.len() as u64);
        put_events(writer, seen, first, self.lines.as_slice())
    }

    /// Writes the events as an object of JSON, oldest first, and whether verdicts are explained by pages. Returns
    /// whether the sink took all of it.
    pub fn put_object<W: Sink>(&self, writer: &mut W, is_explained: bool) -> bool
        ensures { Puts (W.written writer.old) (W.written writer.new) (changes_text is_explained self.now.lines) result }
    {
        put_changes(writer, is_explained, self.lines.as_slice())
    }
}

/// Adds an event to those that are kept.
fn keep(lines: &mut EventLines, line: EventLine)
    ensures { map (λ l. l.items) lines.new.items ≡ last_of 64 (map (λ l. l.items) lines.old.items ++ line.items ∷ []) }
{
    if lines.is_full() {
        let _oldest = lines.remove(0);
    }
    let _is_kept = lines.try_push(line);
}

/// Returns up to which number events were seen.
fn seen_of(told: u64, number: u64) -> u64
    ensures { result ≡ seen_of told number }
{
    if number <= told { number } else { 0 }
}

/// Writes the events above a number, the first of which has the number after `number`.
fn put_events<W: Sink>(writer: &mut W, seen: u64, number: u64, lines: &[EventLine]) -> bool
    ensures { Puts (W.written writer.old) (W.written writer.new)
        (events_text seen number (map (λ l. l.items) lines.now)) result }
{
    let [first, others @ ..] = lines else {
        return writer.put(b"");
    };
    let next = number.saturating_add(1);
    if !put_unseen(writer, seen, next, first.as_slice()) {
        return false;
    }
    put_events(writer, seen, next, others)
}

/// Writes an event, unless it was seen.
fn put_unseen<W: Sink>(writer: &mut W, seen: u64, number: u64, line: &[u8]) -> bool
    ensures { Puts (W.written writer.old) (W.written writer.new) (unseen_text seen number line.now) result }
{
    if number <= seen {
        writer.put(b"")
    } else {
        put_event(writer, number, line)
    }
}

/// Writes an event with its number.
fn put_event<W: Sink>(writer: &mut W, number: u64, line: &[u8]) -> bool
    ensures { Puts (W.written writer.old) (W.written writer.new) (event_text number line.now) result }
{
    let pieces = [
        Piece::Text(b"id: "),
        Piece::Number(number),
        Piece::Text(b"\ndata: "),
        Piece::Text(line),
        Piece::Text(b"\n\n"),
    ];
    put_pieces(writer, &pieces)
}

/// Notes the events that can be heard now.
#[tactic(auto, using(crate::proofs::Listening::notes_none))]
pub fn listen<T: Teller>(teller: &mut T, recent: &mut Recent)
    ensures { Notes (T.heard teller.old) (T.heard teller.new) recent.old recent.new }
{
    for _event in 0..EVENTS {
        let mut line = EventLine::new();
        if !teller.hear(&mut line) {
            return;
        }
        recent.note(line);
    }
}
