//! What a control line says.

ghost use Rattle.std.specs.Prelude.{◌≡◌};
ghost use Rattle.swim_control.specs.Commands.{word_of, said_after, line_said};

use crate::desks::DeskCommand;
use crate::faults::WordFault;
use swim_text::Words;
use swim_wire::{nothing_left, take_id, take_peer};

/// The longest control line, in bytes without its line feed.
pub const LINE_BYTES: usize = 128;

/// The first word of a line.
#[derive(Clone, Copy)]
pub enum ControlWord {
    List,
    Join,
    Remove,
    Gap,
    Stats,
    Reload,
    Stop,
}

/// What a line says.
#[derive(Clone, Copy)]
pub enum Said {
    /// That serving is to end.
    Stop,
    /// A command of the desk.
    Asks(DeskCommand),
}

/// What a line says, or the first fault of its words.
pub fn read_line(line: &[u8]) -> Result<Said, WordFault>
    ensures { result ≡ line_said line.now }
{
    let mut words = Words::new(line);
    let first = words.next().ok_or(WordFault::UnknownWord)?;
    let word = first_word(first).ok_or(WordFault::UnknownWord)?;
    read_command(word, &mut words)
}

/// The first word of a line, if it is known.
fn first_word(text: &[u8]) -> Option<ControlWord>
    ensures { result ≡ word_of text.now }
{
    if text == b"list".as_slice() {
        Some(ControlWord::List)
    } else if text == b"join".as_slice() {
        Some(ControlWord::Join)
    } else if text == b"remove".as_slice() {
        Some(ControlWord::Remove)
    } else if text == b"gap".as_slice() {
        Some(ControlWord::Gap)
    } else if text == b"stats".as_slice() {
        Some(ControlWord::Stats)
    } else if text == b"reload".as_slice() {
        Some(ControlWord::Reload)
    } else if text == b"stop".as_slice() {
        Some(ControlWord::Stop)
    } else {
        None
    }
}

/// What the words after the first say.
#[tactic(auto, unfolding(crate::specs::Commands::said_after))]
fn read_command(word: ControlWord, words: &mut Words<'_>) -> Result<Said, WordFault>
    ensures { result ≡ said_after word words.old }
{
    match word {
        ControlWord::List => {
            nothing_left(words, WordFault::Extra)?;
            Ok(Said::Asks(DeskCommand::List))
        }
        ControlWord::Join => {
            let id = take_id(words, WordFault::BadId)?;
            let peer = take_peer(words, WordFault::BadPeer)?;
            nothing_left(words, WordFault::Extra)?;
            Ok(Said::Asks(DeskCommand::Join(id, peer)))
        }
        ControlWord::Remove => {
            let id = take_id(words, WordFault::BadId)?;
            nothing_left(words, WordFault::Extra)?;
            Ok(Said::Asks(DeskCommand::Remove(id)))
        }
        ControlWord::Gap => {
            let id = take_id(words, WordFault::BadId)?;
            nothing_left(words, WordFault::Extra)?;
            Ok(Said::Asks(DeskCommand::Gap(id)))
        }
        ControlWord::Stats => {
            nothing_left(words, WordFault::Extra)?;
            Ok(Said::Asks(DeskCommand::Stats))
        }
        ControlWord::Reload => {
            nothing_left(words, WordFault::Extra)?;
            Ok(Said::Asks(DeskCommand::Reload))
        }
        ControlWord::Stop => {
            nothing_left(words, WordFault::Extra)?;
            Ok(Said::Stop)
        }
    }
}
