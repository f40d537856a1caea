//! The table of a verdict's page: what the evidence has.

ghost use Rattle.std.specs.Prelude.{◌≡◌, ◌++◌, IfOk, decimal};
ghost use Rattle.swim_text.specs.Streams.{Puts};
ghost use Rattle.swim_verdicts.specs.VerdictTables.{ask_text, asked_text, before_time, ids_after};
ghost use Rattle.swim_verdicts.specs.VerdictTables.{relays_text, rows_text, table_text};

use crate::piece_texts::text_of;
use std::alloc::{AllocError, Global};
use swim_evidence::{Ask, Evidence};
use swim_history::Relay;
use swim_text::{Page as Text, Sink, put_numbered};
use swim_wire::Piece;

/// Returns the rows of the table, with the time of the probe, which is empty if the file tells none.
pub(crate) fn table_of(alloc: Global, evidence: &Evidence, time: &str) -> Result<Text, AllocError>
    ensures { IfOk result (λ table. table.text ≡ table_text evidence.now time.now) }
{
    let asked = ask_of(alloc, &evidence.ask)?;
    rows_of(
        alloc,
        evidence.probed,
        evidence.number,
        evidence.judged,
        time.as_bytes(),
        asked.text(),
    )
}

/// Returns who was asked, and in which entry.
fn ask_of(alloc: Global, ask: &Option<Ask>) -> Result<Text, AllocError>
    ensures { IfOk result (λ asked. asked.text ≡ ask_text ask.now) }
{
    let mut asked = Text::new(alloc);
    if put_ask(&mut asked, ask) {
        Ok(asked)
    } else {
        Err(AllocError)
    }
}

/// Puts who was asked, and in which entry.
fn put_ask<W: Sink>(writer: &mut W, ask: &Option<Ask>) -> bool
    ensures { Puts (W.written writer.old) (W.written writer.new) (ask_text ask.now) result }
{
    match ask {
        Some(ask) => put_asked(writer, ask.relays.as_slice(), ask.place),
        None => writer.put(b"none"),
    }
}

/// Puts relays, and the entry in which they were asked.
#[tactic(auto, using(swim_text::specs::Streams::puts_then, swim_text::specs::Streams::puts_less))]
fn put_asked<W: Sink>(writer: &mut W, relays: &[Relay], place: u32) -> bool
    ensures { Puts (W.written writer.old) (W.written writer.new) (asked_text relays.now place) result }
{
    if !put_relays(writer, relays) {
        return false;
    }
    put_numbered(writer, b" at entry ", u64::from(place))
}

/// Puts the ids of relays.
fn put_relays<W: Sink>(writer: &mut W, relays: &[Relay]) -> bool
    ensures { Puts (W.written writer.old) (W.written writer.new) (relays_text relays.now) result }
{
    if relays.is_empty() {
        writer.put(b"none")
    } else {
        put_ids(writer, b"", relays)
    }
}

/// Puts the ids of relays, with this text in front of the first and a comma in front of each other.
fn put_ids<W: Sink>(writer: &mut W, lead: &[u8], relays: &[Relay]) -> bool
    ensures { Puts (W.written writer.old) (W.written writer.new) (ids_after lead.now relays.now) result }
{
    let [first, others @ ..] = relays else {
        return writer.put(b"");
    };
    if !put_id(writer, lead, first) {
        return false;
    }
    put_ids(writer, b", ", others)
}

/// Puts the id of a relay behind some text.
fn put_id<W: Sink>(writer: &mut W, lead: &[u8], relay: &Relay) -> bool
    ensures { Puts (W.written writer.old) (W.written writer.new) (lead.now ++ decimal relay.now.id) result }
{
    put_numbered(writer, lead, u64::from(relay.id.get()))
}

/// Returns the rows.
fn rows_of<'x>(
    alloc: Global,
    probed: u32,
    number: u64,
    judged: u32,
    time: &'x [u8],
    asked: &'x [u8],
) -> Result<Text, AllocError>
    ensures { IfOk result (λ rows. rows.text ≡ rows_text probed number judged time.now asked.now) }
{
    let pieces = [
        Piece::Text(b"<tr><th scope=\"row\">Probed</th><td>at entry "),
        Piece::Number(u64::from(probed)),
        Piece::Text(before_time(time)),
        Piece::Text(time),
        Piece::Text(b"</td></tr>\n<tr><th scope=\"row\">Relays asked</th><td>"),
        Piece::Text(asked),
        Piece::Text(b"</td></tr>\n<tr><th scope=\"row\">Acks of period "),
        Piece::Number(number),
        Piece::Text(b"</th><td>none until entry "),
        Piece::Number(u64::from(judged)),
        Piece::Text(b"</td></tr>\n"),
    ];
    text_of(alloc, &pieces)
}

/// Returns what stands between an entry and its time.
fn before_time<'x>(time: &'x [u8]) -> &'x [u8]
    ensures { result.now ≡ before_time time.now }
{
    match time {
        [] => b"",
        _ => b", ",
    }
}
