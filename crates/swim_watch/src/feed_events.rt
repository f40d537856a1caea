//! What a line of events says.

ghost use Rattle.std.specs.Prelude.{◌≡◌};
ghost use Rattle.swim_wire.specs.Arguments.{TakesFrom};
ghost use Rattle.swim_watch.specs.Lines.{said_after, said_of, take_number, word_of};

use swim_events::Event;
use swim_history::Change;
use swim_text::{Words, read_number};
use swim_wire::{nothing_left, take_id, take_peer};

/// What a line says to those who watch.
#[derive(Clone, Copy, Debug, PartialEq, Eq)]
pub enum FeedEvent {
    /// What happened, or how a member stands in the table that comes first.
    Event(Event),
    /// That the table which comes first is whole.
    TableEnds,
    /// That somebody else tells from here on, and a table comes next.
    Again,
}

/// Why a line says nothing: it is none of those that a daemon writes.
#[derive(Clone, Copy, Debug, PartialEq, Eq)]
pub struct NoEvent;

/// The first word of a line.
#[derive(Clone, Copy)]
pub enum EventWord {
    Up,
    Failed,
    Gone,
    Life,
    Lost,
    Ended,
    Dot,
    Again,
}

/// What a line says, which stands here without its line feed.
pub fn read_said(line: &[u8]) -> Result<FeedEvent, NoEvent>
    ensures { result ≡ said_of line.now }
{
    let mut words = Words::new(line);
    let first = words.next().ok_or(NoEvent)?;
    let word = first_word(first).ok_or(NoEvent)?;
    read_event(word, &mut words)
}

/// The first word of a line, if it is known.
fn first_word(text: &[u8]) -> Option<EventWord>
    ensures { result ≡ word_of text.now }
{
    if text == b"up".as_slice() {
        Some(EventWord::Up)
    } else if text == b"failed".as_slice() {
        Some(EventWord::Failed)
    } else if text == b"gone".as_slice() {
        Some(EventWord::Gone)
    } else if text == b"life".as_slice() {
        Some(EventWord::Life)
    } else if text == b"lost".as_slice() {
        Some(EventWord::Lost)
    } else if text == b"ended".as_slice() {
        Some(EventWord::Ended)
    } else if text == b".".as_slice() {
        Some(EventWord::Dot)
    } else if text == b"again".as_slice() {
        Some(EventWord::Again)
    } else {
        None
    }
}

/// What the words after the first say.
#[tactic(auto, unfolding(crate::specs::Lines::said_after))]
fn read_event(word: EventWord, words: &mut Words<'_>) -> Result<FeedEvent, NoEvent>
    ensures { result ≡ said_after word words.old }
{
    match word {
        EventWord::Up => {
            let id = take_id(words, NoEvent)?;
            let peer = take_peer(words, NoEvent)?;
            nothing_left(words, NoEvent)?;
            Ok(FeedEvent::Event(Event::Changed(Change::Up(id, peer))))
        }
        EventWord::Failed => {
            let id = take_id(words, NoEvent)?;
            let number = take_number(words)?;
            nothing_left(words, NoEvent)?;
            Ok(FeedEvent::Event(Event::Changed(Change::Failed(id, number))))
        }
        EventWord::Gone => {
            let id = take_id(words, NoEvent)?;
            nothing_left(words, NoEvent)?;
            Ok(FeedEvent::Event(Event::Changed(Change::Gone(id))))
        }
        EventWord::Life => {
            let number = take_number(words)?;
            nothing_left(words, NoEvent)?;
            Ok(FeedEvent::Event(Event::Life(number)))
        }
        EventWord::Lost => {
            nothing_left(words, NoEvent)?;
            Ok(FeedEvent::Event(Event::Lost))
        }
        EventWord::Ended => {
            nothing_left(words, NoEvent)?;
            Ok(FeedEvent::Event(Event::Ended))
        }
        EventWord::Dot => {
            nothing_left(words, NoEvent)?;
            Ok(FeedEvent::TableEnds)
        }
        EventWord::Again => {
            nothing_left(words, NoEvent)?;
            Ok(FeedEvent::Again)
        }
    }
}

/// Takes the next word, which is to be a number.
fn take_number(words: &mut Words<'_>) -> Result<u64, NoEvent>
    ensures { TakesFrom result words.new (take_number words.old) }
{
    match words.next() {
        Some(word) => read_number(word, u64::MAX).ok_or(NoEvent),
        None => Err(NoEvent),
    }
}
