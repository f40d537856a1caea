//! What the words of a line have to be, for a person.

use crate::limits::{
    LAST_LIFE, LAST_PERIOD, LAST_PLACE, LONGEST_TIMEOUT, MOST_ENTRIES, MOST_ID, MOST_OCTET,
    MOST_PORT, SEED_DIGITS,
};
use std::fmt;
use swim_history::{KNOWN_MEMBERS, LONGEST_PERIOD, MOST_RELAYS};
use swim_script::{
    Form, LineFault, Word, take_datagram, take_life, take_long_number, take_number, take_order,
    take_seed, take_version,
};
use swim_text::Words;
use swim_wire::{take_id, take_peer};

/// An argument of a line.
#[derive(Clone, Copy)]
pub enum Argument {
    Me,
    Relays,
    Timeout,
    Period,
    Last,
    Limit,
    Member,
    Address,
    /// What a row of a journal file tells behind its address.
    Failed,
    /// The number behind it.
    FailedIn,
    Ids,
    Place,
    Seed,
    Life,
    Version,
    Datagram,
}

static OF_OPEN: [Argument; 6] = [
    Argument::Me,
    Argument::Relays,
    Argument::Timeout,
    Argument::Period,
    Argument::Last,
    Argument::Limit,
];

static OF_MEMBER_AT: [Argument; 2] = [Argument::Member, Argument::Address];

static OF_ROW_IN_JOURNAL: [Argument; 4] = [
    Argument::Member,
    Argument::Address,
    Argument::Failed,
    Argument::FailedIn,
];

static OF_MEMBER: [Argument; 1] = [Argument::Member];

static OF_ORDER: [Argument; 1] = [Argument::Ids];

static OF_PLACE: [Argument; 1] = [Argument::Place];

static OF_SEED: [Argument; 1] = [Argument::Seed];

static OF_SEED_IN_JOURNAL: [Argument; 2] = [Argument::Seed, Argument::Life];

static OF_WIRE: [Argument; 1] = [Argument::Version];

static OF_HEAR: [Argument; 2] = [Argument::Address, Argument::Datagram];

static OF_NONE: [Argument; 0] = [];

/// The arguments of a line with that first word, in a script of that form.
pub fn arguments_of(form: Form, word: Word) -> &'static [Argument] {
    match word {
        Word::Open => &OF_OPEN,
        Word::Row if form == Form::Journal => &OF_ROW_IN_JOURNAL,
        Word::Row | Word::Join => &OF_MEMBER_AT,
        Word::Remove | Word::Gap => &OF_MEMBER,
        Word::Order => &OF_ORDER,
        Word::Place => &OF_PLACE,
        Word::Seed if form == Form::Journal => &OF_SEED_IN_JOURNAL,
        Word::Seed => &OF_SEED,
        Word::Wire => &OF_WIRE,
        Word::Hear => &OF_HEAR,
        Word::Tick | Word::Table | Word::Answer => &OF_NONE,
    }
}

/// The index of the word that is this argument of an `open` line; 0, that of its first word, where none is.
pub fn index_in_open(argument: Argument) -> usize {
    match OF_OPEN.iter().position(|it| *it == argument) {
        Some(place) => place.saturating_add(1),
        None => 0,
    }
}

/// Takes words as an argument, and answers whether they are one.
pub fn take_argument(argument: Argument, words: &mut Words<'_>) -> bool {
    match argument {
        Argument::Me | Argument::Member => take_id(words, LineFault::Number).is_ok(),
        Argument::Relays
        | Argument::Timeout
        | Argument::Period
        | Argument::Limit
        | Argument::Place => take_number(words).is_ok(),
        Argument::Last | Argument::FailedIn => take_long_number(words).is_ok(),
        Argument::Failed => words
            .next()
            .is_some_and(|word| word == b"failed".as_slice()),
        Argument::Address => take_peer(words, LineFault::Peer).is_ok(),
        Argument::Ids => take_order(words).is_ok(),
        Argument::Seed => take_seed(words).is_ok(),
        Argument::Life => take_life(Form::Journal, words).is_ok(),
        Argument::Version => take_version(words).is_ok(),
        Argument::Datagram => take_datagram(words).is_ok(),
    }
}

/// What an argument has to be, with its range.
impl fmt::Display for Argument {
    fn fmt<W: fmt::Write>(&self, f: &mut fmt::Formatter<W>) -> fmt::Result {
        match self {
            Argument::Me => write!(f, "ME, the ID of this member: 1 to {MOST_ID}"),
            Argument::Relays => write!(f, "K, how many relays are asked: 0 to {MOST_RELAYS}"),
            Argument::Timeout => write!(f, "RTT, the timeout in ticks: 1 to {LONGEST_TIMEOUT}"),
            Argument::Period => write!(f, "PERIOD, in ticks: three times RTT to {LONGEST_PERIOD}"),
            Argument::Last => write!(
                f,
                "LAST, the last period number used before: 0 to {LAST_PERIOD}"
            ),
            Argument::Limit => write!(
                f,
                "LIMIT, how many entries the journal may have: 0 to {MOST_ENTRIES}"
            ),
            Argument::Member => write!(f, "an ID: 1 to {MOST_ID}"),
            Argument::Address => write!(
                f,
                "a PEER: a.b.c.d:port, four numbers from 0 to {MOST_OCTET} and a port from 1 to {MOST_PORT}"
            ),
            Argument::Failed => f.write_str("failed N, or the end of the line"),
            Argument::FailedIn => {
                f.write_str("N, the period at whose end the member was judged: 1 to LAST")
            }
            Argument::Ids => write!(
                f,
                "1 to {KNOWN_MEMBERS} IDs with commas between, each 1 to {MOST_ID}"
            ),
            Argument::Place => write!(f, "a place: 0 to {LAST_PLACE}"),
            Argument::Seed => write!(f, "a seed: {SEED_DIGITS} hexadecimal digits"),
            Argument::Life => write!(f, "LIFE, the stream of the seed: 0 to {LAST_LIFE}"),
            Argument::Version => {
                f.write_str("V, the version of its own pings and ping-reqs: 1 or 2")
            }
            Argument::Datagram => f.write_str("HEX: hexadecimal digits, an even number of them"),
        }
    }
}
