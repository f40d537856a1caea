//! Warnings of what a configuration allows and can't work.

ghost use Rattle.std.specs.Prelude.{◌≡◌, length};
ghost use Rattle.swim_text.specs.Streams.{Puts, failures_if};
ghost use Rattle.swim_config.specs.Warnings.{addresses_and_more_text, few_relays_text, flood_entries, flood_text};
ghost use Rattle.swim_config.specs.Warnings.{floods_and_more_text};
ghost use Rattle.swim_config.specs.Warnings.{floods_text, is_same_address, rounds_ms, short_for_a_flood_text};
ghost use Rattle.swim_config.specs.Warnings.{journal_text, long_period_text, own_address_text, own_addresses_text};
ghost use Rattle.swim_config.specs.Warnings.{own_line};
ghost use Rattle.swim_config.specs.Warnings.{period_ms, period_text, relays_and_times_text};
ghost use Rattle.swim_config.specs.Warnings.{relays_text};
ghost use Rattle.swim_config.specs.Warnings.{shared_address_text, shared_addresses_text, shared_and_more_text};
ghost use Rattle.swim_config.specs.Warnings.{shared_line};
ghost use Rattle.swim_config.specs.Warnings.{short_journal_text, three_rounds, times_text};
ghost use Rattle.swim_config.specs.Warnings.{verdicts_and_guesses_text, waits_and_guesses_text};
ghost use Rattle.swim_config.specs.Warnings.{warnings_text};

use crate::config::Config;
use crate::guesses::put_guesses;
use crate::verdicts::put_verdicts;
use crate::waits::put_waits;
use swim_history::{Opening, Row};
use swim_text::Sink;
use swim_wire::{Id, Peer, Piece, put_pieces};

/// A day, in milliseconds.
const DAY_MS: u64 = 86_400_000;

/// Writes a line for each thing that a configuration allows and that can't work, and answers whether the sink took
/// them.
pub fn put_warnings<W: Sink>(writer: &mut W, config: &Config) -> bool
    ensures bytes { Puts (W.written writer.old) (W.written writer.new) (warnings_text config.now) result }
    ensures failures { W.failures writer.new ≡ failures_if (W.failures writer.old) result }
{
    if !put_journal(writer, config) {
        return false;
    }
    put_floods_and_more(writer, config)
}

/// That a flood fills the journal, and what follows.
fn put_floods_and_more<W: Sink>(writer: &mut W, config: &Config) -> bool
    ensures bytes { Puts (W.written writer.old) (W.written writer.new) (floods_and_more_text config.now) result }
    ensures failures { W.failures writer.new ≡ failures_if (W.failures writer.old) result }
{
    if !put_floods(writer, config) {
        return false;
    }
    put_addresses(writer, config)
}

/// Which members are at this member's own address, and what follows.
fn put_addresses<W: Sink>(writer: &mut W, config: &Config) -> bool
    ensures bytes { Puts (W.written writer.old) (W.written writer.new) (addresses_and_more_text config.now) result }
    ensures failures { W.failures writer.new ≡ failures_if (W.failures writer.old) result }
{
    if !put_own_addresses(writer, &config.listen, config.opening.rows()) {
        return false;
    }
    put_shared_and_more(writer, config)
}

/// Which members are at one address, and what follows.
fn put_shared_and_more<W: Sink>(writer: &mut W, config: &Config) -> bool
    ensures bytes { Puts (W.written writer.old) (W.written writer.new) (shared_and_more_text config.now) result }
    ensures failures { W.failures writer.new ≡ failures_if (W.failures writer.old) result }
{
    if !put_shared_addresses(writer, config.opening.rows()) {
        return false;
    }
    put_relays_and_times(writer, config)
}

/// That too many relays are asked, and what follows.
fn put_relays_and_times<W: Sink>(writer: &mut W, config: &Config) -> bool
    ensures bytes { Puts (W.written writer.old) (W.written writer.new) (relays_and_times_text config.now) result }
    ensures failures { W.failures writer.new ≡ failures_if (W.failures writer.old) result }
{
    if !put_relays(writer, &config.opening) {
        return false;
    }
    put_times(writer, config)
}

/// That a period is longer than a day, and what follows.
fn put_times<W: Sink>(writer: &mut W, config: &Config) -> bool
    ensures bytes { Puts (W.written writer.old) (W.written writer.new) (times_text config.now) result }
    ensures failures { W.failures writer.new ≡ failures_if (W.failures writer.old) result }
{
    if !put_period(writer, config) {
        return false;
    }
    put_waits_and_guesses(writer, config)
}

/// That an ack is hardly waited for, and what follows.
fn put_waits_and_guesses<W: Sink>(writer: &mut W, config: &Config) -> bool
    ensures bytes { Puts (W.written writer.old) (W.written writer.new) (waits_and_guesses_text config.now) result }
    ensures failures { W.failures writer.new ≡ failures_if (W.failures writer.old) result }
{
    if !put_waits(writer, config) {
        return false;
    }
    put_verdicts_and_guesses(writer, config)
}

/// What a verdict takes away, and what anybody may guess.
fn put_verdicts_and_guesses<W: Sink>(writer: &mut W, config: &Config) -> bool
    ensures bytes { Puts (W.written writer.old) (W.written writer.new) (verdicts_and_guesses_text config.now) result }
    ensures failures { W.failures writer.new ≡ failures_if (W.failures writer.old) result }
{
    if !put_verdicts(writer, config) {
        return false;
    }
    put_guesses(writer, config)
}

/// That the journal is shorter than three rounds.
fn put_journal<W: Sink>(writer: &mut W, config: &Config) -> bool
    ensures bytes { Puts (W.written writer.old) (W.written writer.new)
        (short_journal_text config.now.journal (three_rounds config.now.opening)) result }
    ensures failures { W.failures writer.new ≡ failures_if (W.failures writer.old) result }
{
    put_short_journal(writer, config.journal, three_rounds(&config.opening))
}

fn put_short_journal<W: Sink>(writer: &mut W, journal: u32, wanted: u64) -> bool
    ensures bytes { Puts (W.written writer.old) (W.written writer.new) (short_journal_text journal wanted) result }
    ensures failures { W.failures writer.new ≡ failures_if (W.failures writer.old) result }
{
    let journal = u64::from(journal);
    if journal < wanted {
        put_journal_line(writer, journal, wanted)
    } else {
        writer.put(b"")
    }
}

fn put_journal_line<W: Sink>(writer: &mut W, journal: u64, wanted: u64) -> bool
    ensures bytes { Puts (W.written writer.old) (W.written writer.new) (journal_text journal wanted) result }
    ensures failures { W.failures writer.new ≡ failures_if (W.failures writer.old) result }
{
    let pieces = [
        Piece::Text(b"warning: journal "),
        Piece::Number(journal),
        Piece::Text(b" is shorter than three rounds, which take "),
        Piece::Number(wanted),
        Piece::Text(b" entries\n"),
    ];
    put_pieces(writer, &pieces)
}

/// The entries of three rounds: a round has as many periods as members are listed, each of them its ticks and two
/// entries more, and it has two entries for each other member.
fn three_rounds(opening: &Opening) -> u64
    ensures { result ≡ three_rounds opening.now }
{
    let members = opening.rows().len() as u64;
    let period = u64::from(opening.period());
    3 * (members * (period + 2) + 2 * members)
}

/// That a flood that the given fence lets through fills the journal within three rounds.
fn put_floods<W: Sink>(writer: &mut W, config: &Config) -> bool
    ensures bytes { Puts (W.written writer.old) (W.written writer.new) (floods_text config.now) result }
    ensures failures { W.failures writer.new ≡ failures_if (W.failures writer.old) result }
{
    if !config.is_fence_given {
        return writer.put(b"");
    }
    let entries = flood_entries(config.fence, rounds_ms(config));
    put_short_for_a_flood(writer, config.journal, config.fence, entries)
}

fn put_short_for_a_flood<W: Sink>(writer: &mut W, journal: u32, rate: u32, entries: u64) -> bool
    ensures bytes { Puts (W.written writer.old) (W.written writer.new)
        (short_for_a_flood_text journal rate entries) result }
    ensures failures { W.failures writer.new ≡ failures_if (W.failures writer.old) result }
{
    let journal = u64::from(journal);
    if journal < entries {
        put_flood_line(writer, journal, u64::from(rate), entries)
    } else {
        writer.put(b"")
    }
}

fn put_flood_line<W: Sink>(writer: &mut W, journal: u64, rate: u64, wanted: u64) -> bool
    ensures bytes { Puts (W.written writer.old) (W.written writer.new) (flood_text journal rate wanted) result }
    ensures failures { W.failures writer.new ≡ failures_if (W.failures writer.old) result }
{
    let pieces = [
        Piece::Text(b"warning: journal "),
        Piece::Number(journal),
        Piece::Text(b" is shorter than what a flood of "),
        Piece::Number(rate),
        Piece::Text(b" datagrams a second adds in three rounds, "),
        Piece::Number(wanted),
        Piece::Text(b" entries\n"),
    ];
    put_pieces(writer, &pieces)
}

/// The entries that so many datagrams a second add within so many milliseconds.
fn flood_entries(rate: u32, milliseconds: u64) -> u64
    ensures { result ≡ flood_entries rate milliseconds }
{
    let thousandths = u64::from(rate).saturating_mul(milliseconds);
    thousandths.div_ceil(1_000)
}

/// How long three rounds last: a round has as many periods as members are listed.
fn rounds_ms(config: &Config) -> u64
    ensures { result ≡ rounds_ms config.now }
{
    let members = config.opening.rows().len() as u64;
    3 * (members * period_ms(config))
}

/// Which members are at this member's own address.
fn put_own_addresses<W: Sink>(writer: &mut W, listen: &Peer, members: &[Row]) -> bool
    ensures bytes { Puts (W.written writer.old) (W.written writer.new)
        (own_addresses_text listen.now members.now) result }
    ensures failures { W.failures writer.new ≡ failures_if (W.failures writer.old) result }
{
    let [first, others @ ..] = members else {
        return writer.put(b"");
    };
    if !put_own_address(writer, listen, first) {
        return false;
    }
    put_own_addresses(writer, listen, others)
}

/// That a member is at this member's own address.
fn put_own_address<W: Sink>(writer: &mut W, listen: &Peer, member: &Row) -> bool
    ensures bytes { Puts (W.written writer.old) (W.written writer.new) (own_address_text listen.now member.now) result }
    ensures failures { W.failures writer.new ≡ failures_if (W.failures writer.old) result }
{
    if is_same_address(&member.peer, listen) {
        put_own_line(writer, member.id, listen)
    } else {
        writer.put(b"")
    }
}

fn put_own_line<W: Sink>(writer: &mut W, id: Id, listen: &Peer) -> bool
    ensures bytes { Puts (W.written writer.old) (W.written writer.new) (own_line id listen.now) result }
    ensures failures { W.failures writer.new ≡ failures_if (W.failures writer.old) result }
{
    let pieces = [
        Piece::Text(b"warning: member "),
        Piece::Number(u64::from(id.get())),
        Piece::Text(b" is at this member's own address, "),
        Piece::Address(*listen),
        Piece::Text(b"\n"),
    ];
    put_pieces(writer, &pieces)
}

/// Which members are at one address.
fn put_shared_addresses<W: Sink>(writer: &mut W, members: &[Row]) -> bool
    ensures bytes { Puts (W.written writer.old) (W.written writer.new) (shared_addresses_text members.now) result }
    ensures failures { W.failures writer.new ≡ failures_if (W.failures writer.old) result }
{
    let [first, others @ ..] = members else {
        return writer.put(b"");
    };
    if !put_shared_address(writer, first, others) {
        return false;
    }
    put_shared_addresses(writer, others)
}

/// That the next of the others at the address of a member is there.
fn put_shared_address<W: Sink>(writer: &mut W, member: &Row, others: &[Row]) -> bool
    ensures bytes { Puts (W.written writer.old) (W.written writer.new) (shared_address_text member.now others.now) result }
    ensures failures { W.failures writer.new ≡ failures_if (W.failures writer.old) result }
{
    let [other, rest @ ..] = others else {
        return writer.put(b"");
    };
    if is_same_address(&member.peer, &other.peer) {
        put_shared_line(writer, member.id, other.id, &member.peer)
    } else {
        put_shared_address(writer, member, rest)
    }
}

fn put_shared_line<W: Sink>(writer: &mut W, first: Id, second: Id, at: &Peer) -> bool
    ensures bytes { Puts (W.written writer.old) (W.written writer.new) (shared_line first second at.now) result }
    ensures failures { W.failures writer.new ≡ failures_if (W.failures writer.old) result }
{
    let pieces = [
        Piece::Text(b"warning: members "),
        Piece::Number(u64::from(first.get())),
        Piece::Text(b" and "),
        Piece::Number(u64::from(second.get())),
        Piece::Text(b" are at one address, "),
        Piece::Address(*at),
        Piece::Text(b"\n"),
    ];
    put_pieces(writer, &pieces)
}

fn is_same_address(left: &Peer, right: &Peer) -> bool
    ensures { result ≡ is_same_address left.now right.now }
{
    left.ip.as_slice() == right.ip.as_slice() && left.port == right.port
}

/// That more relays are asked than there are members that could relay.
fn put_relays<W: Sink>(writer: &mut W, opening: &Opening) -> bool
    ensures bytes { Puts (W.written writer.old) (W.written writer.new)
        (few_relays_text opening.now.k (length opening.now.rows)) result }
    ensures failures { W.failures writer.new ≡ failures_if (W.failures writer.old) result }
{
    let members = opening.rows();
    put_few_relays(writer, opening.k(), members.len())
}

fn put_few_relays<W: Sink>(writer: &mut W, relays: u32, members: usize) -> bool
    ensures bytes { Puts (W.written writer.old) (W.written writer.new) (few_relays_text relays members) result }
    ensures failures { W.failures writer.new ≡ failures_if (W.failures writer.old) result }
{
    let relays = u64::from(relays);
    let members = members as u64;
    if 0 < members && members <= relays {
        put_relays_line(writer, relays, members - 1)
    } else {
        writer.put(b"")
    }
}

fn put_relays_line<W: Sink>(writer: &mut W, relays: u64, could_relay: u64) -> bool
    ensures bytes { Puts (W.written writer.old) (W.written writer.new) (relays_text relays could_relay) result }
    ensures failures { W.failures writer.new ≡ failures_if (W.failures writer.old) result }
{
    let pieces = [
        Piece::Text(b"warning: k "),
        Piece::Number(relays),
        Piece::Text(b" is greater than the members that could relay, "),
        Piece::Number(could_relay),
        Piece::Text(b"\n"),
    ];
    put_pieces(writer, &pieces)
}

/// That a period is longer than a day.
fn put_period<W: Sink>(writer: &mut W, config: &Config) -> bool
    ensures bytes { Puts (W.written writer.old) (W.written writer.new)
        (long_period_text (period_ms config.now)) result }
    ensures failures { W.failures writer.new ≡ failures_if (W.failures writer.old) result }
{
    let period = period_ms(config);
    if DAY_MS < period {
        put_period_line(writer, period)
    } else {
        writer.put(b"")
    }
}

/// How long a period lasts.
fn period_ms(config: &Config) -> u64
    ensures { result ≡ period_ms config.now }
{
    u64::from(config.opening.period()) * u64::from(config.tick_ms)
}

fn put_period_line<W: Sink>(writer: &mut W, milliseconds: u64) -> bool
    ensures bytes { Puts (W.written writer.old) (W.written writer.new) (period_text milliseconds) result }
    ensures failures { W.failures writer.new ≡ failures_if (W.failures writer.old) result }
{
    let pieces = [
        Piece::Text(b"warning: a period has "),
        Piece::Number(milliseconds),
        Piece::Text(b" milliseconds, which is beyond a day\n"),
    ];
    put_pieces(writer, &pieces)
}
