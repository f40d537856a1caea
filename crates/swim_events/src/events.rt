//! Events, and their lines.

ghost use Rattle.std.specs.Prelude.{◌≡◌, ◌≤◌, length};
ghost use Rattle.swim_history.specs.declared.rows.Change.TheVariants as changes;
ghost use Rattle.swim_events.specs.declared.events.Event.TheVariants.{Changed};
ghost use Rattle.swim_events.specs.Texts.{change_text, event_text, life_text, shown};

use arrayvec::ArrayString;
use itoa::Buffer;
use swim_history::{Change, Row, RowState};
use swim_wire::{Id, Peer};

/// The most bytes of an event's line, with its line feed.
pub const LINE_BYTES: usize = 40;

/// An event's line, with its line feed.
pub type EventText = ArrayString<LINE_BYTES>;

/// What those are told who watch a member table.
#[derive(Clone, Copy, Debug, PartialEq, Eq)]
pub enum Event {
    /// The table changed so.
    Changed(Change),
    /// The life of this number began. The table goes on as it is.
    Life(u64),
    /// The watcher didn't keep up: what happened from here on isn't told to it.
    Lost,
    /// Nothing happens any more.
    Ended,
}

/// What a row is told as where a table is told: as the change that would make it stand so.
pub fn event_of_row(row: &Row) -> Event
    ensures { result ≡ Changed (shown row.now) }
{
    match row.state {
        RowState::Up => Event::Changed(Change::Up(row.id, row.peer)),
        RowState::Failed(number) => Event::Changed(Change::Failed(row.id, number)),
    }
}

/// The line of an event.
pub fn line_of(event: &Event) -> EventText
    ensures { result.bytes ≡ event_text event.now }
{
    match event {
        Event::Changed(change) => change_line(change),
        Event::Life(number) => life_line(*number),
        Event::Lost => fixed_line("lost\n"),
        Event::Ended => fixed_line("ended\n"),
    }
}

/// The line of a change.
fn change_line(change: &Change) -> EventText
    ensures { result.bytes ≡ change_text change.now }
{
    match change {
        Change::Up(id, peer) => up_line(*id, peer),
        Change::Failed(id, number) => failed_line(*id, *number),
        Change::Gone(id) => gone_line(*id),
    }
}

fn up_line(id: Id, peer: &Peer) -> EventText
    ensures { result.bytes ≡ change_text (changes.Up id peer.now) }
{
    let mut digits = Buffer::new();
    let address = peer.write();
    let mut line = ArrayString::new();
    line.push_str("up ");
    line.push_str(digits.format(id.get()));
    line.push_str(" ");
    line.push_str(address.as_str());
    line.push_str("\n");
    line
}

fn failed_line(id: Id, number: u64) -> EventText
    ensures { result.bytes ≡ change_text (changes.Failed id number) }
{
    let mut digits = Buffer::new();
    let mut line = ArrayString::new();
    line.push_str("failed ");
    line.push_str(digits.format(id.get()));
    line.push_str(" ");
    line.push_str(digits.format(number));
    line.push_str("\n");
    line
}

fn gone_line(id: Id) -> EventText
    ensures { result.bytes ≡ change_text (changes.Gone id) }
{
    let mut digits = Buffer::new();
    let mut line = ArrayString::new();
    line.push_str("gone ");
    line.push_str(digits.format(id.get()));
    line.push_str("\n");
    line
}

fn life_line(number: u64) -> EventText
    ensures { result.bytes ≡ life_text number }
{
    let mut digits = Buffer::new();
    let mut line = ArrayString::new();
    line.push_str("life ");
    line.push_str(digits.format(number));
    line.push_str("\n");
    line
}

fn fixed_line(text: &str) -> EventText
    requires { length text.now ≤ LINE_BYTES }
    ensures { result.bytes ≡ text.now }
{
    let mut line = ArrayString::new();
    line.push_str(text);
    line
}
