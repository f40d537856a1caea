//! The summary of a configuration.

ghost use Rattle.std.specs.Prelude.{◌≡◌, ◌++◌, length};
ghost use Rattle.swim_text.specs.Streams.{Puts, failures_if};
ghost use Rattle.swim_config.specs.Summary.{all_members_text, count_text, digits_text, key_line};
ghost use Rattle.swim_config.specs.Summary.{keys_and_members_text, keys_text, mark_of, member_text, members_text};
ghost use Rattle.swim_config.specs.Summary.{mode_text, modes_and_dir_text, modes_text, number_text};
ghost use Rattle.swim_config.specs.Summary.{numbers_and_members_text, numbers_text, own_text, path_text, paths_text};
ghost use Rattle.swim_config.specs.Summary.{place_text, summary_text, telling_text, told_text};

use crate::config::Config;
use crate::fingerprints::fingerprint;
use crate::keys::{ConfigKey, NUMBER_KEYS};
use crate::socket_path::SocketPath;
use swim_history::{Opening, Row, table_of};
use swim_keys::GroupKey;
use swim_text::Sink;
use swim_wire::{Piece, put_pieces};

/// Writes what a configuration says, its members ascending by id, and answers whether the sink took it.
pub fn summary<W: Sink>(config: &Config, writer: &mut W) -> bool
    ensures bytes { Puts (W.written writer.old) (W.written writer.new) (summary_text config.now) result }
    ensures failures { W.failures writer.new ≡ failures_if (W.failures writer.old) result }
{
    if !put_place(writer, config) {
        return false;
    }
    put_numbers_and_members(writer, config)
}

/// Who this member is, where it listens, where events and metrics are told, who may use its sockets, and where its
/// journal files are made.
fn put_place<W: Sink>(writer: &mut W, config: &Config) -> bool
    ensures bytes { Puts (W.written writer.old) (W.written writer.new) (place_text config.now) result }
    ensures failures { W.failures writer.new ≡ failures_if (W.failures writer.old) result }
{
    if !put_own(writer, config) {
        return false;
    }
    put_paths(writer, config)
}

/// Who this member is, and where it listens.
fn put_own<W: Sink>(writer: &mut W, config: &Config) -> bool
    ensures bytes { Puts (W.written writer.old) (W.written writer.new) (own_text config.now) result }
    ensures failures { W.failures writer.new ≡ failures_if (W.failures writer.old) result }
{
    let pieces = [
        Piece::Text(b"id "),
        Piece::Number(u64::from(config.opening.me().get())),
        Piece::Text(b"\nlisten "),
        Piece::Address(config.listen),
        Piece::Text(b"\ncontrol "),
        Piece::Text(config.control.as_str().as_bytes()),
    ];
    put_pieces(writer, &pieces)
}

/// Where events and metrics are told, who may use the sockets, and where the journal files are made.
fn put_paths<W: Sink>(writer: &mut W, config: &Config) -> bool
    ensures bytes { Puts (W.written writer.old) (W.written writer.new) (paths_text config.now) result }
    ensures failures { W.failures writer.new ≡ failures_if (W.failures writer.old) result }
{
    if !put_telling(writer, config) {
        return false;
    }
    put_modes_and_dir(writer, config)
}

/// Who may use the sockets, and where the journal files are made.
fn put_modes_and_dir<W: Sink>(writer: &mut W, config: &Config) -> bool
    ensures bytes { Puts (W.written writer.old) (W.written writer.new) (modes_and_dir_text config.now) result }
    ensures failures { W.failures writer.new ≡ failures_if (W.failures writer.old) result }
{
    if !put_modes(writer, config) {
        return false;
    }
    put_path(writer, b"\njournal_dir ", &config.files.dir)
}

/// Who may use the sockets.
fn put_modes<W: Sink>(writer: &mut W, config: &Config) -> bool
    ensures bytes { Puts (W.written writer.old) (W.written writer.new) (modes_text config.now) result }
    ensures failures { W.failures writer.new ≡ failures_if (W.failures writer.old) result }
{
    if !put_mode(writer, b"\ncontrol_mode 0", config.modes.control) {
        return false;
    }
    put_mode(writer, b"\nevents_mode 0", config.modes.events)
}

/// A mode that may be left out, behind these words and a 0.
fn put_mode<W: Sink>(writer: &mut W, words: &[u8], mode: Option<u32>) -> bool
    ensures bytes { Puts (W.written writer.old) (W.written writer.new) (mode_text words.now mode) result }
    ensures failures { W.failures writer.new ≡ failures_if (W.failures writer.old) result }
{
    let Some(mode) = mode else {
        return writer.put(b"");
    };
    put_digits(
        writer,
        words,
        u64::from(mode / 64),
        u64::from(mode / 8 % 8),
        u64::from(mode % 8),
    )
}

fn put_digits<W: Sink>(writer: &mut W, words: &[u8], owner: u64, group: u64, others: u64) -> bool
    ensures bytes { Puts (W.written writer.old) (W.written writer.new)
        (digits_text words.now owner group others) result }
    ensures failures { W.failures writer.new ≡ failures_if (W.failures writer.old) result }
{
    let pieces = [
        Piece::Text(words),
        Piece::Number(owner),
        Piece::Number(group),
        Piece::Number(others),
    ];
    put_pieces(writer, &pieces)
}

/// Where events are told, and where metrics are.
fn put_telling<W: Sink>(writer: &mut W, config: &Config) -> bool
    ensures bytes { Puts (W.written writer.old) (W.written writer.new) (telling_text config.now) result }
    ensures failures { W.failures writer.new ≡ failures_if (W.failures writer.old) result }
{
    if !put_path(writer, b"\nevents ", &config.events) {
        return false;
    }
    put_path(writer, b"\nmetrics ", &config.metrics)
}

/// A path that may be left out, behind these words.
fn put_path<W: Sink>(writer: &mut W, words: &[u8], path: &Option<SocketPath>) -> bool
    ensures bytes { Puts (W.written writer.old) (W.written writer.new) (path_text words.now path.now) result }
    ensures failures { W.failures writer.new ≡ failures_if (W.failures writer.old) result }
{
    match path {
        None => writer.put(b""),
        Some(path) => put_words(writer, words, path.as_str().as_bytes()),
    }
}

fn put_words<'a, W: Sink>(writer: &mut W, words: &'a [u8], text: &'a [u8]) -> bool
    ensures bytes { Puts (W.written writer.old) (W.written writer.new) (words.now ++ text.now) result }
    ensures failures { W.failures writer.new ≡ failures_if (W.failures writer.old) result }
{
    put_pieces(writer, &[Piece::Text(words), Piece::Text(text)])
}

/// The numbers of the keys that have some, and what follows.
fn put_numbers_and_members<W: Sink>(writer: &mut W, config: &Config) -> bool
    ensures bytes { Puts (W.written writer.old) (W.written writer.new) (numbers_and_members_text config.now) result }
    ensures failures { W.failures writer.new ≡ failures_if (W.failures writer.old) result }
{
    if !put_numbers(writer, config, &NUMBER_KEYS) {
        return false;
    }
    put_keys_and_members(writer, config)
}

/// The numbers of these keys, as far as they have some.
fn put_numbers<W: Sink>(writer: &mut W, config: &Config, keys: &[ConfigKey]) -> bool
    ensures bytes { Puts (W.written writer.old) (W.written writer.new) (numbers_text config.now keys.now) result }
    ensures failures { W.failures writer.new ≡ failures_if (W.failures writer.old) result }
{
    let [key, others @ ..] = keys else {
        return writer.put(b"");
    };
    if !put_key(writer, config, key) {
        return false;
    }
    put_numbers(writer, config, others)
}

/// A key and its number, if it has one.
fn put_key<W: Sink>(writer: &mut W, config: &Config, key: &ConfigKey) -> bool
    ensures bytes { Puts (W.written writer.old) (W.written writer.new) (told_text config.now key.now) result }
    ensures failures { W.failures writer.new ≡ failures_if (W.failures writer.old) result }
{
    put_number(writer, *key, config.number(*key))
}

fn put_number<W: Sink>(writer: &mut W, key: ConfigKey, number: Option<u64>) -> bool
    ensures bytes { Puts (W.written writer.old) (W.written writer.new) (number_text key number) result }
    ensures failures { W.failures writer.new ≡ failures_if (W.failures writer.old) result }
{
    let Some(number) = number else {
        return writer.put(b"");
    };
    let pieces = [
        Piece::Text(mark_of(key)),
        Piece::Text(key.name().as_bytes()),
        Piece::Text(b" "),
        Piece::Number(number),
    ];
    put_pieces(writer, &pieces)
}

/// What stands before a key.
fn mark_of(key: ConfigKey) -> &'static [u8]
    ensures { result.now ≡ mark_of key }
{
    if key.begins_line() { b"\n" } else { b" " }
}

/// The keys of the group by their fingerprints, and what follows.
fn put_keys_and_members<W: Sink>(writer: &mut W, config: &Config) -> bool
    ensures bytes { Puts (W.written writer.old) (W.written writer.new) (keys_and_members_text config.now) result }
    ensures failures { W.failures writer.new ≡ failures_if (W.failures writer.old) result }
{
    if !put_keys(writer, config.keys.as_slice()) {
        return false;
    }
    put_all_members(writer, &config.opening)
}

/// A line for each of these keys.
fn put_keys<W: Sink>(writer: &mut W, keys: &[GroupKey]) -> bool
    ensures bytes { Puts (W.written writer.old) (W.written writer.new) (keys_text keys.now) result }
    ensures failures { W.failures writer.new ≡ failures_if (W.failures writer.old) result }
{
    let [first, others @ ..] = keys else {
        return writer.put(b"");
    };
    if !put_key_line(writer, first) {
        return false;
    }
    put_keys(writer, others)
}

/// The line of a key.
fn put_key_line<W: Sink>(writer: &mut W, key: &GroupKey) -> bool
    ensures bytes { Puts (W.written writer.old) (W.written writer.new) (key_line key.now) result }
    ensures failures { W.failures writer.new ≡ failures_if (W.failures writer.old) result }
{
    let digits = fingerprint(key);
    put_words(writer, b"\nkey ", digits.as_slice())
}

/// How many members there are, and a line for each, ascending by id.
fn put_all_members<W: Sink>(writer: &mut W, opening: &Opening) -> bool
    ensures bytes { Puts (W.written writer.old) (W.written writer.new) (all_members_text opening.now.rows) result }
    ensures failures { W.failures writer.new ≡ failures_if (W.failures writer.old) result }
{
    let members = opening.rows();
    if !put_count(writer, members) {
        return false;
    }
    let sorted = table_of(members);
    put_members(writer, sorted.as_slice())
}

/// How many members there are.
fn put_count<W: Sink>(writer: &mut W, members: &[Row]) -> bool
    ensures bytes { Puts (W.written writer.old) (W.written writer.new) (count_text (length members.now)) result }
    ensures failures { W.failures writer.new ≡ failures_if (W.failures writer.old) result }
{
    let pieces = [
        Piece::Text(b"\nmembers "),
        Piece::Number(members.len() as u64),
        Piece::Text(b"\n"),
    ];
    put_pieces(writer, &pieces)
}

/// A line for each member.
fn put_members<W: Sink>(writer: &mut W, members: &[Row]) -> bool
    ensures bytes { Puts (W.written writer.old) (W.written writer.new) (members_text members.now) result }
    ensures failures { W.failures writer.new ≡ failures_if (W.failures writer.old) result }
{
    let [first, others @ ..] = members else {
        return writer.put(b"");
    };
    if !put_member(writer, first) {
        return false;
    }
    put_members(writer, others)
}

/// The line of a member.
fn put_member<W: Sink>(writer: &mut W, member: &Row) -> bool
    ensures bytes { Puts (W.written writer.old) (W.written writer.new) (member_text member.now) result }
    ensures failures { W.failures writer.new ≡ failures_if (W.failures writer.old) result }
{
    let pieces = [
        Piece::Number(u64::from(member.id.get())),
        Piece::Text(b" "),
        Piece::Address(member.peer),
        Piece::Text(b"\n"),
    ];
    put_pieces(writer, &pieces)
}
