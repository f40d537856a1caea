//! What stood in a configuration where it has a fault.

ghost use Rattle.std.specs.Prelude.{◌≡◌};
ghost use Rattle.swim_text.specs.Streams.{failures_if};
ghost use Rattle.swim_config.specs.Causes.{PutsLines};

use crate::config_fault::ConfigFault;
use crate::detail_lines::DetailLine;
use crate::fault_places::places_of;
use crate::hiding::add_without_keys;
use crate::keys::ConfigKey;
use crate::statements::{StatementPlace, line_at, line_of};
use crate::unknown_keys::{first_unknown, nearest};
use std::alloc::Global;
use swim_text::Sink;
use toml::Table;

/// Writes what stood there, and in which line; and answers whether the sink took it.
pub fn put_found<W: Sink>(alloc: Global, writer: &mut W, bytes: &[u8], fault: ConfigFault) -> bool
    ensures lines { PutsLines (W.written writer.old) (W.written writer.new) result }
    ensures failures { W.failures writer.new ≡ failures_if (W.failures writer.old) result }
{
    if fault == ConfigFault::Size || fault == ConfigFault::NoMemory {
        return put_nothing(writer);
    }
    match toml::table_from_slice(alloc, bytes) {
        Ok(table) => put_found_in(alloc, writer, bytes, &table, fault),
        Err(error) => match error.span() {
            Some(span) => put_stop(writer, bytes, span.start, error.message()),
            None => put_nothing(writer),
        },
    }
}

/// Nothing.
#[tactic(auto, using(crate::proofs::CauseLines::nothing_put))]
fn put_nothing<W: Sink>(writer: &mut W) -> bool
    ensures lines { PutsLines (W.written writer.old) (W.written writer.new) result }
    ensures failures { W.failures writer.new ≡ failures_if (W.failures writer.old) result }
{
    writer.put(b"")
}

/// Where a document stops being TOML, and why.
fn put_stop<W: Sink>(writer: &mut W, document: &[u8], index: usize, why: &str) -> bool
    ensures lines { PutsLines (W.written writer.old) (W.written writer.new) result }
    ensures failures { W.failures writer.new ≡ failures_if (W.failures writer.old) result }
{
    let number = line_at(document, index);
    let mut line = DetailLine::new();
    line.add(b"line ");
    line.add_number(number as u64);
    line.add(b", column ");
    line.add_number(column_at(document, index) as u64);
    line.add(b": ");
    line.add(why.as_bytes());
    if !line.put(writer) {
        return false;
    }
    put_line(writer, document, number)
}

/// The number, from 1 on, of the character of that index in its line.
fn column_at(bytes: &[u8], index: usize) -> usize {
    let mut column: usize = 1;
    for byte in bytes.iter().take(index) {
        if *byte == b'\n' {
            column = 1;
        } else if *byte & 0xC0 != 0x80 {
            column = column.saturating_add(1);
        }
    }
    column
}

/// What stood in a table.
fn put_found_in<W: Sink>(
    alloc: Global,
    writer: &mut W,
    document: &[u8],
    table: &Table,
    fault: ConfigFault,
) -> bool
    ensures lines { PutsLines (W.written writer.old) (W.written writer.new) result }
    ensures failures { W.failures writer.new ≡ failures_if (W.failures writer.old) result }
{
    if !put_words(alloc, writer, table, fault) {
        return false;
    }
    put_places(alloc, writer, document, table, fault)
}

/// The lines that have a part in a fault.
fn put_places<W: Sink>(
    alloc: Global,
    writer: &mut W,
    document: &[u8],
    table: &Table,
    fault: ConfigFault,
) -> bool
    ensures lines { PutsLines (W.written writer.old) (W.written writer.new) result }
    ensures failures { W.failures writer.new ≡ failures_if (W.failures writer.old) result }
{
    if fault == ConfigFault::UnknownKey {
        let place = first_unknown(table).map(|unknown| unknown.place);
        return put_place(alloc, writer, document, place);
    }
    put_both(alloc, writer, document, places_of(alloc, table, fault))
}

/// Two lines, if they are there.
fn put_both<W: Sink>(
    alloc: Global,
    writer: &mut W,
    document: &[u8],
    places: [Option<StatementPlace<'static>>; 2],
) -> bool
    ensures lines { PutsLines (W.written writer.old) (W.written writer.new) result }
    ensures failures { W.failures writer.new ≡ failures_if (W.failures writer.old) result }
{
    let [first, second] = places;
    if !put_place(alloc, writer, document, first) {
        return false;
    }
    put_place(alloc, writer, document, second)
}

/// What no line of the document tells.
fn put_words<W: Sink>(alloc: Global, writer: &mut W, table: &Table, fault: ConfigFault) -> bool
    ensures lines { PutsLines (W.written writer.old) (W.written writer.new) result }
    ensures failures { W.failures writer.new ≡ failures_if (W.failures writer.old) result }
{
    let mut line = DetailLine::new();
    match fault {
        ConfigFault::Missing(_) => line.add(b"found: no such key"),
        ConfigFault::UnknownKey => {
            let Some(unknown) = first_unknown(table) else {
                return put_nothing(writer);
            };
            line.add(b"found: ");
            add_without_keys(&mut line, unknown.name.as_bytes());
            if unknown.belongs_above() {
                line.add(b"; it stands below [[member]]: move it up");
            } else if let Some(key) = nearest(alloc, unknown.name, unknown.known) {
                line.add(b"; the nearest known key: ");
                line.add(key.name().as_bytes());
            }
        }
        _ => return put_nothing(writer),
    }
    line.put(writer)
}

/// The line where the statement stands, if one does.
fn put_place<W: Sink>(
    alloc: Global,
    writer: &mut W,
    document: &[u8],
    place: Option<StatementPlace<'_>>,
) -> bool
    ensures lines { PutsLines (W.written writer.old) (W.written writer.new) result }
    ensures failures { W.failures writer.new ≡ failures_if (W.failures writer.old) result }
{
    let Ok(text) = std::str::from_utf8(document) else {
        return put_nothing(writer);
    };
    match place.and_then(|place| nearest_line(alloc, text, place)) {
        Some(number) => put_line(writer, document, number),
        None => put_nothing(writer),
    }
}

/// The line of a statement; of a member that stands within a line, that of all members.
fn nearest_line(alloc: Global, text: &str, place: StatementPlace<'_>) -> Option<usize> {
    let all = StatementPlace::Top(ConfigKey::Member.name());
    match place {
        StatementPlace::Top(_) => line_of(alloc, text, place),
        StatementPlace::Member(_) | StatementPlace::InMember(_, _) => match line_of(
            alloc, text, place,
        ) {
            Some(number) => Some(number),
            None => line_of(alloc, text, all),
        },
    }
}

/// A line of a document, with its number.
fn put_line<W: Sink>(writer: &mut W, document: &[u8], number: usize) -> bool
    ensures lines { PutsLines (W.written writer.old) (W.written writer.new) result }
    ensures failures { W.failures writer.new ≡ failures_if (W.failures writer.old) result }
{
    let mut line = DetailLine::new();
    line.add(b"line ");
    line.add_number(number as u64);
    line.add(b": ");
    let mut lines = document.split(|byte| *byte == b'\n');
    if let Some(text) = lines.nth(number.saturating_sub(1)) {
        add_without_keys(&mut line, text.strip_suffix(b"\r").unwrap_or(text));
    }
    line.put(writer)
}
