//! What a line of a script says.

ghost use Rattle.std.specs.Prelude.{◌≡◌, Some, None, MatchOption};
ghost use Rattle.swim_script.specs.Commands.{fault_name, LineStandsAt, word_of, fault_of_word, command_after};
ghost use Rattle.swim_script.specs.Commands.{line_read, is_skipped, behind_sign, answer_in, answer_read, words_read};
ghost use Rattle.swim_script.specs.Commands.{said_by};

use crate::arguments::{
    AnswerText, OpenArguments, OrderText, SEED_BYTES, take_datagram, take_life, take_number,
    take_open, take_order, take_seed, take_state, take_version,
};
use crate::forms::Form;
use swim_history::Row;
use swim_text::Words;
use swim_wire::{Id, Message, Peer, Version, WireFault, nothing_left, take_id, take_peer};

/// The longest line of a script, in bytes without its line feed.
pub const LINE_BYTES: usize = 2048;

/// What is wrong with the words of a line.
#[derive(Clone, Copy, Debug, PartialEq, Eq)]
pub enum LineFault {
    /// An unknown first word, or one that can't stand here.
    Word,
    /// A second seed, or a seed beside orders or places.
    Seed,
    /// A missing, misspelt or out-of-range number or id.
    Number,
    /// A missing or refused address.
    Peer,
    /// Missing or refused digits of a datagram or a seed.
    Hex,
    /// More than 128 ids in an order.
    Order,
    /// Words left over.
    Extra,
}

impl LineFault {
    /// The word that tells the fault.
    pub fn name(self) -> &'static str
        ensures { result.now ≡ fault_name self }
    {
        match self {
            LineFault::Word => "word",
            LineFault::Seed => "seed",
            LineFault::Number => "number",
            LineFault::Peer => "peer",
            LineFault::Hex => "hex",
            LineFault::Order => "order",
            LineFault::Extra => "extra",
        }
    }
}

/// What a header has told of who chooses.
#[derive(Clone, Copy, Debug)]
pub enum Draws {
    /// Nothing.
    Unsaid,
    /// Orders or places.
    Scripted,
    /// A seed.
    Seeded,
}

/// How far a script has come.
#[derive(Clone, Copy)]
pub enum Stage {
    /// No line but skipped ones.
    Blank,
    /// The opening is being told: what was said of who chooses, and whether a version was told.
    Header(Draws, bool),
    /// An event line was met.
    Events,
}

/// The first word of a line, which says what the line is. The first six stand in header lines, and the next six in
/// event lines. The last begins a line of a journal file that tells an answer; no other text than `= ` does.
#[derive(Clone, Copy, Debug, PartialEq, Eq)]
pub enum Word {
    Open,
    Row,
    Order,
    Place,
    Seed,
    Wire,
    Tick,
    Hear,
    Join,
    Remove,
    Table,
    Gap,
    Answer,
}

/// What a line says.
#[derive(Debug, Drop)]
pub enum Command<'a> {
    /// The opening is this one.
    Open(OpenArguments),
    /// The opening has this member. In a journal file it may have failed.
    Row(Row),
    /// The next order to be followed.
    Order(OrderText<'a>),
    /// The next place to be followed.
    Place(u32),
    /// Orders and places are drawn from this seed, by the detector of that life.
    Seed([u8; SEED_BYTES], u64),
    /// The detector's own pings and ping-reqs have this version.
    Wire(Version),
    /// One tick.
    Tick,
    /// A datagram came from that address: a message, or bytes that are none.
    Hear(Peer, Result<Message, WireFault>),
    /// The member joins, at this address.
    Join(Id, Peer),
    /// The member is removed.
    Remove(Id),
    /// The member table is to be shown.
    Table,
    /// The widest gap between probes of this member is to be shown.
    Gap(Id),
    /// The newest entry stands there, and was answered so.
    Answer(AnswerText<'a>),
}

/// What a line says at that stage of a script of that form: nothing where it is skipped, else a command, or the first
/// fault of its words.
#[inline(always)]
pub fn read_line<'a>(
    form: Form,
    stage: Stage,
    line: &'a [u8],
) -> Result<Option<Command<'a>>, LineFault>
    ensures exact { result ≡ line_read form stage line.now }
    ensures stands { LineStandsAt stage result }
{
    read_any(form, stage, line)
}

#[inline(always)]
fn read_any<'a>(form: Form, stage: Stage, line: &'a [u8]) -> Result<Option<Command<'a>>, LineFault>
    ensures { result ≡ line_read form stage line.now }
{
    if is_skipped(line) {
        return Ok(None);
    }
    if let Some(text) = answer_in(form, line) {
        return read_answer(stage, text);
    }
    let mut words = Words::new(line);
    read_words(form, stage, &mut words)
}

/// What a line of a journal file tells of an answer, if it does.
fn answer_in(form: Form, line: &[u8]) -> Option<&[u8]>
    ensures { MatchOption result (answer_in form line.now ≡ None) (λ text. answer_in form line.now ≡ Some text.now) }
{
    match form {
        Form::Script => None,
        Form::Journal => behind_sign(line),
    }
}

/// What stands behind `= ` in a line that begins so.
fn behind_sign(line: &[u8]) -> Option<&[u8]>
    ensures { MatchOption result (behind_sign line.now ≡ None) (λ text. behind_sign line.now ≡ Some text.now) }
{
    let (first, rest) = line.split_first()?;
    let (second, text) = rest.split_first()?;
    if *first == b'=' && *second == b' ' {
        Some(text)
    } else {
        None
    }
}

/// What a line tells of an answer, where it may stand.
fn read_answer<'a>(stage: Stage, text: &'a [u8]) -> Result<Option<Command<'a>>, LineFault>
    ensures { result ≡ answer_read stage text.now }
{
    match stage {
        Stage::Events => Ok(Some(Command::Answer(AnswerText { text }))),
        Stage::Blank | Stage::Header(..) => Err(LineFault::Word),
    }
}

/// Whether a line is empty or a comment.
fn is_skipped(line: &[u8]) -> bool
    ensures { result ≡ is_skipped line.now }
{
    match line {
        [] => true,
        [first, ..] => *first == b'#',
    }
}

/// What the words of a line say.
#[inline(always)]
fn read_words<'a>(
    form: Form,
    stage: Stage,
    words: &mut Words<'a>,
) -> Result<Option<Command<'a>>, LineFault>
    ensures { result ≡ said_by (words_read form stage words.old) }
{
    let first = words.next().ok_or(LineFault::Word)?;
    let word = first_word(first).ok_or(LineFault::Word)?;
    match fault_of_word(stage, word) {
        Some(fault) => Err(fault),
        None => read_command(form, word, words),
    }
}

/// The first word of a line, if it is known.
// It is put in place for each line, also beside the lines that are only noted.
#[inline(always)]
pub fn first_word(text: &[u8]) -> Option<Word>
    ensures { result ≡ word_of text.now }
{
    if text == b"tick".as_slice() {
        Some(Word::Tick)
    } else if text == b"hear".as_slice() {
        Some(Word::Hear)
    } else if text == b"join".as_slice() {
        Some(Word::Join)
    } else if text == b"remove".as_slice() {
        Some(Word::Remove)
    } else if text == b"table".as_slice() {
        Some(Word::Table)
    } else if text == b"gap".as_slice() {
        Some(Word::Gap)
    } else if text == b"row".as_slice() {
        Some(Word::Row)
    } else if text == b"order".as_slice() {
        Some(Word::Order)
    } else if text == b"place".as_slice() {
        Some(Word::Place)
    } else if text == b"seed".as_slice() {
        Some(Word::Seed)
    } else if text == b"wire".as_slice() {
        Some(Word::Wire)
    } else if text == b"open".as_slice() {
        Some(Word::Open)
    } else {
        None
    }
}

/// Why a word can't stand at that stage, if it can't.
fn fault_of_word(stage: Stage, word: Word) -> Option<LineFault>
    ensures { result ≡ fault_of_word stage word }
{
    match (stage, word) {
        (Stage::Blank, Word::Open) => None,
        (Stage::Blank, _) | (_, Word::Open) => Some(LineFault::Word),
        (Stage::Header(..), Word::Answer) => Some(LineFault::Word),
        (Stage::Events, Word::Row | Word::Order | Word::Place | Word::Seed | Word::Wire) => {
            Some(LineFault::Word)
        }
        (Stage::Header(_, true), Word::Wire) => Some(LineFault::Word),
        (Stage::Header(Draws::Scripted, _), Word::Seed) => Some(LineFault::Seed),
        (Stage::Header(Draws::Seeded, _), Word::Seed | Word::Order | Word::Place) => {
            Some(LineFault::Seed)
        }
        _ => None,
    }
}

/// What the words after the first say in a script of that form.
// It is put in place for each line, also beside the lines that are read for their words alone.
#[tactic(auto, unfolding(crate::specs::Commands::command_after))]
#[inline(always)]
pub fn read_command<'a>(
    form: Form,
    word: Word,
    words: &mut Words<'a>,
) -> Result<Option<Command<'a>>, LineFault>
    ensures { result ≡ said_by (command_after form word words.old) }
{
    match word {
        Word::Open => {
            let arguments = take_open(words)?;
            nothing_left(words, LineFault::Extra)?;
            Ok(Some(Command::Open(arguments)))
        }
        Word::Row => {
            let id = take_id(words, LineFault::Number)?;
            let peer = take_peer(words, LineFault::Peer)?;
            let state = take_state(form, words)?;
            nothing_left(words, LineFault::Extra)?;
            Ok(Some(Command::Row(Row { id, peer, state })))
        }
        Word::Order => {
            let order = take_order(words)?;
            nothing_left(words, LineFault::Extra)?;
            Ok(Some(Command::Order(order)))
        }
        Word::Place => {
            let place = take_number(words)?;
            nothing_left(words, LineFault::Extra)?;
            Ok(Some(Command::Place(place)))
        }
        Word::Seed => {
            let seed = take_seed(words)?;
            let life = take_life(form, words)?;
            nothing_left(words, LineFault::Extra)?;
            Ok(Some(Command::Seed(seed, life)))
        }
        Word::Wire => {
            let version = take_version(words)?;
            nothing_left(words, LineFault::Extra)?;
            Ok(Some(Command::Wire(version)))
        }
        Word::Tick => {
            nothing_left(words, LineFault::Extra)?;
            Ok(Some(Command::Tick))
        }
        Word::Hear => {
            let peer = take_peer(words, LineFault::Peer)?;
            let datagram = take_datagram(words)?;
            nothing_left(words, LineFault::Extra)?;
            Ok(Some(Command::Hear(peer, datagram)))
        }
        Word::Join => {
            let id = take_id(words, LineFault::Number)?;
            let peer = take_peer(words, LineFault::Peer)?;
            nothing_left(words, LineFault::Extra)?;
            Ok(Some(Command::Join(id, peer)))
        }
        Word::Remove => {
            let id = take_id(words, LineFault::Number)?;
            nothing_left(words, LineFault::Extra)?;
            Ok(Some(Command::Remove(id)))
        }
        Word::Table => {
            nothing_left(words, LineFault::Extra)?;
            Ok(Some(Command::Table))
        }
        Word::Gap => {
            let id = take_id(words, LineFault::Number)?;
            nothing_left(words, LineFault::Extra)?;
            Ok(Some(Command::Gap(id)))
        }
        Word::Answer => Err(LineFault::Word),
    }
}
