//! The commonest causes of a fault.

use crate::grammar::Argument;
use crate::marks::Mark;
use crate::spelling::{meant_by, text_of};
use std::fmt;
use swim_history::OpeningFault;
use swim_script::Word;
use swim_text::Words;
use swim_wire::Id;

/// What UTF-8 text begins with that some editors write.
const BYTE_ORDER_MARK: &[u8; 3] = b"\xef\xbb\xbf";

/// What UTF-16 text begins with, in either order of its bytes.
const UTF_16_MARKS: [&[u8; 2]; 2] = [b"\xff\xfe", b"\xfe\xff"];

/// Why a script has a fault.
#[derive(Clone, Copy)]
pub enum Cause {
    ByteOrderMark,
    Utf16,
    CarriageReturn,
    Tab,
    Comment,
    Missing,
    EmptyWord,
    Comma,
    Capitals,
    Swapped(Word),
    LeadingZero,
    NoPort,
    HostName,
    OddDigits(usize),
    SeedLength(usize),
    TooManyIds(usize),
    NoLine,
    SecondOpen,
    SecondVersion,
    EventLine(u32),
    SeedLine(u32),
    DrawnLine(u32),
    LongLine(u32),
    MyselfIn(u32),
    Twice { member: Id, first: u32, second: u32 },
    RowTooMany(u32),
    Unused { line: u32, number: u64 },
    Opening(OpeningFault),
}

impl fmt::Display for Cause {
    fn fmt<W: fmt::Write>(&self, f: &mut fmt::Formatter<W>) -> fmt::Result {
        match self {
            Cause::Swapped(word) => {
                let word = text_of(*word);
                write!(f, "two letters of {word} are swapped")
            }
            Cause::OddDigits(count) => write!(f, "it has {count} digits, an odd number"),
            Cause::SeedLength(count) => write!(f, "it has {count} digits"),
            Cause::TooManyIds(count) => write!(f, "it has {count} IDs"),
            Cause::EventLine(line) => write!(
                f,
                "line {line} is an event line: header lines stand before the first"
            ),
            Cause::SeedLine(line) => write!(
                f,
                "line {line} is a seed, from which orders and places are drawn"
            ),
            Cause::DrawnLine(line) => write!(
                f,
                "line {line} tells an order or a place, so no seed is followed"
            ),
            Cause::LongLine(bytes) => write!(f, "it has {bytes} bytes"),
            Cause::MyselfIn(line) => write!(f, "the row of line {line} has the ID ME"),
            Cause::RowTooMany(line) => write!(f, "the row of line {line} is one too many"),
            Cause::Unused { line, number } => write!(
                f,
                "the row of line {line} failed in period {number}, which was not used"
            ),
            Cause::Opening(fault) => write!(f, "{fault}"),
            Cause::Twice {
                member,
                first,
                second,
            } => {
                let id = member.get();
                write!(
                    f,
                    "the rows of lines {first} and {second} both have the ID {id}"
                )
            }
            other => f.write_str(other.text()),
        }
    }
}

impl Cause {
    fn text(&self) -> &'static str {
        match self {
            Cause::ByteOrderMark => {
                "the line begins with a byte order mark, which some editors write: save the script without it"
            }
            Cause::Utf16 => {
                "the script is UTF-16 text, which some editors write: save it as UTF-8"
            }
            Cause::CarriageReturn => {
                "the line ends with a carriage return, as lines of another system do: a line feed alone ends a line"
            }
            Cause::Tab => "a tab stands there: words are separated by one space",
            Cause::Comment => "a comment has a line of its own, which begins with #",
            Cause::Missing => "the line ends before it",
            Cause::EmptyWord => {
                "two spaces in a row, or one at the end of the line, have an empty word between them"
            }
            Cause::Comma => "a comma stands between two IDs, and nowhere else",
            Cause::Capitals => "first words have small letters",
            Cause::LeadingZero => "a number has no sign and no zero in front",
            Cause::NoPort => "a colon and a port are missing, as in 10.0.0.2:7000",
            Cause::HostName => "a host's name stands there: an address has numbers alone",
            Cause::NoLine => "the script has no line but empty ones and comments",
            Cause::SecondOpen => "the opening stands once, as the first line",
            Cause::SecondVersion => "the version is told once",
            _ => "",
        }
    }
}

/// Why a word is refused, by its bytes.
pub fn cause_in(line: &[u8], mark: &Mark<'_>) -> Option<Cause> {
    if line.starts_with(BYTE_ORDER_MARK) {
        Some(Cause::ByteOrderMark)
    } else if is_utf_16(line) {
        Some(Cause::Utf16)
    } else if mark.is_missing {
        Some(Cause::Missing)
    } else if mark.word.starts_with(b"#") {
        Some(Cause::Comment)
    } else if mark.word.contains(&b'\t') {
        Some(Cause::Tab)
    } else if mark.word.ends_with(b"\r") {
        Some(Cause::CarriageReturn)
    } else if mark.word.is_empty() {
        Some(Cause::EmptyWord)
    } else {
        None
    }
}

/// Whether a line is UTF-16 text: by its mark, or by a letter that has a byte of zero beside it.
fn is_utf_16(line: &[u8]) -> bool {
    UTF_16_MARKS.iter().any(|mark| line.starts_with(*mark))
        || matches!(line, [0, _, ..] | [_, 0, ..])
}

/// Why a word is no first word, by its letters.
pub fn cause_in_spelling(word: &[u8]) -> Option<Cause> {
    if word.iter().any(|byte| byte.is_ascii_uppercase()) {
        return Some(Cause::Capitals);
    }
    meant_by(word).map(|word| Cause::Swapped(word))
}

/// Why a word is refused as an argument.
pub fn cause_for(argument: Argument, word: &[u8]) -> Option<Cause> {
    match argument {
        Argument::Address => cause_in_address(word),
        Argument::Seed => cause_in_digits(word, Cause::SeedLength(word.len())),
        Argument::Datagram => cause_in_digits(word, Cause::OddDigits(word.len())),
        Argument::Ids | Argument::Failed => None,
        _ => cause_in_number(word),
    }
}

fn cause_in_address(word: &[u8]) -> Option<Cause> {
    let mut parts = Words::split(word, b':');
    let host = parts.next()?;
    let port = parts.next();
    if is_name(host) {
        return Some(Cause::HostName);
    }
    let Some(port) = port else {
        return Some(Cause::NoPort);
    };
    cause_in_number(port).or(cause_in_octets(host))
}

/// Whether it is a host's name, and not its address.
fn is_name(host: &[u8]) -> bool {
    host.iter().any(|byte| byte.is_ascii_alphabetic())
        && host.iter().all(|byte| byte.is_ascii_alphanumeric() || *byte == b'-' || *byte == b'.')
}

fn cause_in_octets(host: &[u8]) -> Option<Cause> {
    let mut octets = Words::split(host, b'.');
    while let Some(octet) = octets.next() {
        if cause_in_number(octet).is_some() {
            return Some(Cause::LeadingZero);
        }
    }
    None
}

fn cause_in_digits(word: &[u8], count: Cause) -> Option<Cause> {
    if word.iter().all(|digit| digit.is_ascii_hexdigit()) {
        Some(count)
    } else {
        None
    }
}

fn cause_in_number(word: &[u8]) -> Option<Cause> {
    match word {
        [b'+' | b'-', ..] | [b'0', _, ..] => Some(Cause::LeadingZero),
        _ => None,
    }
}
