//! Lines of events as JSON.

ghost use Rattle.std.specs.Prelude.{◌≡◌, IfOk, string_bytes};
ghost use Rattle.serde_json.specs.Written.{compact_text};
ghost use Rattle.serde_json.specs.View.{view};
ghost use Rattle.swim_history.specs.declared.rows.Change.TheVariants as changes;
ghost use Rattle.swim_watch.specs.Lines.{said_of};
ghost use Rattle.swim_watch.specs.Objects.{change_data, data_of, event_data, number_data, shown_data, word_data};

use crate::feed_events::{FeedEvent, NoEvent, read_said};
use serde_json::{Value, json};
use std::alloc::{AllocError, Global};
use swim_events::Event;
use swim_history::Change;
use swim_wire::{Id, Peer};

/// What a line says as an object of JSON, with the time at which it came.
#[tactic(auto, using(crate::proofs::NoFloats::no_float))]
pub fn show(alloc: Global, line: &[u8], time: &str) -> Result<String, AllocError>
    ensures { IfOk result (λ text. string_bytes text ≡ compact_text (shown_data (said_of line.now) time.now)) }
{
    let value = value_of(alloc, read_said(line), time)?;
    value.to_string(alloc)
}

/// What was said, or that it is unknown what.
fn value_of(
    alloc: Global,
    said: Result<FeedEvent, NoEvent>,
    time: &str,
) -> Result<Value, AllocError>
    ensures { IfOk result (λ value. view value ≡ shown_data said time.now) }
{
    match said {
        Ok(said) => value_said(alloc, &said, time),
        Err(NoEvent) => word_value(alloc, "other", time),
    }
}

fn value_said(alloc: Global, said: &FeedEvent, time: &str) -> Result<Value, AllocError>
    ensures { IfOk result (λ value. view value ≡ data_of said.now time.now) }
{
    match said {
        FeedEvent::Event(event) => event_value(alloc, event, time),
        FeedEvent::TableEnds => word_value(alloc, "table_ends", time),
        FeedEvent::Again => word_value(alloc, "again", time),
    }
}

fn event_value(alloc: Global, event: &Event, time: &str) -> Result<Value, AllocError>
    ensures { IfOk result (λ value. view value ≡ event_data event.now time.now) }
{
    match event {
        Event::Changed(change) => change_value(alloc, change, time),
        Event::Life(number) => life_value(alloc, *number, time),
        Event::Lost => word_value(alloc, "lost", time),
        Event::Ended => word_value(alloc, "ended", time),
    }
}

fn change_value(alloc: Global, change: &Change, time: &str) -> Result<Value, AllocError>
    ensures { IfOk result (λ value. view value ≡ change_data change.now time.now) }
{
    match change {
        Change::Up(id, peer) => up_value(alloc, *id, peer, time),
        Change::Failed(id, number) => failed_value(alloc, *id, *number, time),
        Change::Gone(id) => gone_value(alloc, *id, time),
    }
}

fn up_value(alloc: Global, id: Id, peer: &Peer, time: &str) -> Result<Value, AllocError>
    ensures { IfOk result (λ value. view value ≡ change_data (changes.Up id peer.now) time.now) }
{
    let address = peer.write();
    let id = u64::from(id.get());
    json!(in alloc; {"event": "up", "id": id, "peer": address.as_str(), "time": time})
}

fn failed_value(alloc: Global, id: Id, number: u64, time: &str) -> Result<Value, AllocError>
    ensures { IfOk result (λ value. view value ≡ change_data (changes.Failed id number) time.now) }
{
    let id = u64::from(id.get());
    json!(in alloc; {"event": "failed", "id": id, "period": number, "time": time})
}

fn gone_value(alloc: Global, id: Id, time: &str) -> Result<Value, AllocError>
    ensures { IfOk result (λ value. view value ≡ change_data (changes.Gone id) time.now) }
{
    let id = u64::from(id.get());
    json!(in alloc; {"event": "gone", "id": id, "time": time})
}

fn life_value(alloc: Global, number: u64, time: &str) -> Result<Value, AllocError>
    ensures { IfOk result (λ value. view value ≡ number_data number time.now) }
{
    json!(in alloc; {"event": "life", "life": number, "time": time})
}

/// An event of which there is no more to say.
fn word_value(alloc: Global, word: &str, time: &str) -> Result<Value, AllocError>
    ensures { IfOk result (λ value. view value ≡ word_data word.now time.now) }
{
    json!(in alloc; {"event": word, "time": time})
}
