//! The arguments of a line.

ghost use Rattle.std.specs.Prelude.{◌≡◌, option_and_then};
ghost use Rattle.swim_text.specs.Numbers.{number_of};
ghost use Rattle.swim_wire.specs.Arguments.{TakesFrom};
ghost use Rattle.swim_script.specs.Arguments.{open_arguments, take_number, take_order, take_seed, take_life};
ghost use Rattle.swim_script.specs.Arguments.{take_datagram, take_state, state_told};
ghost use Rattle.swim_script.specs.Arguments.{order_of, seed_of, take_version, version_of};

use crate::commands::LineFault;
use crate::datagrams::read_datagram;
use crate::forms::Form;
use std::marker::Model;
use swim_history::RowState;
use swim_targets::Order;
use swim_text::{Words, read_number};
use swim_wire::{Id, Message, Version, WireFault, take_id};

/// The length of a seed, in bytes. Twice as many digits spell it.
pub const SEED_BYTES: usize = 32;

/// The greatest number of a version.
const NEWEST_VERSION: u64 = 2;

/// The arguments of an `open` line. Each number is one that the format allows; that they make an opening is looked for
/// later.
#[derive(Clone, Copy, Debug, PartialEq, Eq)]
pub struct OpenArguments {
    /// The id of the detector's own member.
    pub me: Id,
    /// How many relays are asked.
    pub k: u32,
    /// The timeout, in ticks.
    pub rtt: u32,
    /// The period, in ticks.
    pub period: u32,
    /// The last period number that was used before.
    pub last: u64,
    /// How many entries the journal may have.
    pub limit: u32,
}

/// An `open` line: its number, counted from 1, and its arguments.
#[derive(Clone, Copy)]
pub struct Opened {
    pub line: u32,
    pub arguments: OpenArguments,
}

/// The text of an order. An order is large, and would be moved with each command; so it is read again where it
/// is carried out. A contract sees the order.
#[derive(Debug, Drop)]
pub struct OrderText<'a> {
    text: &'a [u8],
}

impl<'a> Model for OrderText<'a> {
    ghost use Rattle.std.specs.Prelude.{ℕ};
    ghost use Rattle.arrayvec.specs.ArrayVec.{ArrayVec};
    ghost use Rattle.swim_script.specs.Arguments.{order_of, order_read};

    ghost Value = { ArrayVec ℕ };

    ghost view = { λ order. order_read (order_of order.text.now) };
}

impl<'a> OrderText<'a> {
    /// The order.
    pub fn read(&self) -> Order
        ensures { result ≡ self.now }
    {
        match read_order(self.text) {
            Ok(order) => order,
            Err(_) => Order::new(),
        }
    }
}

/// What a line of a journal file tells of the newest entry: its place, and what was answered. A contract sees the
/// bytes.
#[derive(Debug, Drop)]
pub struct AnswerText<'a> {
    pub(crate) text: &'a [u8],
}

impl<'a> Model for AnswerText<'a> {
    ghost use Rattle.std.specs.Prelude.{List, ℕ};

    ghost Value = { List ℕ };

    ghost view = { λ answer. answer.text.now };
}

/// Takes the next six words, which are to be the arguments of an `open` line; else the fault is `LineFault::Number`.
#[tactic(auto, unfolding(crate::specs::Arguments::open_arguments))]
#[inline(never)]
pub fn take_open(words: &mut Words<'_>) -> Result<OpenArguments, LineFault>
    ensures { TakesFrom result words.new (open_arguments words.old) }
{
    let me = take_id(words, LineFault::Number)?;
    let k = take_number(words)?;
    let rtt = take_number(words)?;
    let period = take_number(words)?;
    let last = take_long_number(words)?;
    let limit = take_number(words)?;
    Ok(OpenArguments {
        me,
        k,
        rtt,
        period,
        last,
        limit,
    })
}

/// Takes the next word, which is to be a decimal number from 0 to 4294967295; else the fault is `LineFault::Number`.
pub fn take_number(words: &mut Words<'_>) -> Result<u32, LineFault>
    ensures { TakesFrom result words.new (take_number 4294967295 words.old) }
{
    let word = words.next().ok_or(LineFault::Number)?;
    let number = read_number(word, u64::from(u32::MAX)).ok_or(LineFault::Number)?;
    Ok(number as u32)
}

/// Takes the next word, which is to be a decimal number from 0 to 18446744073709551615; else the fault is
/// `LineFault::Number`.
pub fn take_long_number(words: &mut Words<'_>) -> Result<u64, LineFault>
    ensures { TakesFrom result words.new (take_number 18446744073709551615 words.old) }
{
    let word = words.next().ok_or(LineFault::Number)?;
    read_number(word, u64::MAX).ok_or(LineFault::Number)
}

/// Takes the next word, which is to be an even number of hexadecimal digits of either case; else the fault is
/// `LineFault::Hex`. What they spell is a message, or the fault of bytes that are none.
pub fn take_datagram(words: &mut Words<'_>) -> Result<Result<Message, WireFault>, LineFault>
    ensures { TakesFrom result words.new (take_datagram words.old) }
{
    let word = words.next().ok_or(LineFault::Hex)?;
    read_datagram(word).ok_or(LineFault::Hex)
}

/// Takes the next word, which is to be 64 hexadecimal digits of either case, a seed; else the fault is
/// `LineFault::Hex`.
pub fn take_seed(words: &mut Words<'_>) -> Result<[u8; SEED_BYTES], LineFault>
    ensures { TakesFrom result words.new (take_seed words.old) }
{
    let word = words.next().ok_or(LineFault::Hex)?;
    read_seed(word).ok_or(LineFault::Hex)
}

/// Takes the next word, which is to be the number of a version, 1 or 2; else the fault is `LineFault::Number`.
pub fn take_version(words: &mut Words<'_>) -> Result<Version, LineFault>
    ensures { TakesFrom result words.new (take_version words.old) }
{
    let word = words.next().ok_or(LineFault::Number)?;
    read_version(word).ok_or(LineFault::Number)
}

/// The version whose number the text is in decimal, if there is one.
fn read_version(text: &[u8]) -> Option<Version>
    ensures { result ≡ option_and_then version_of (number_of 2 text.now) }
{
    match read_number(text, NEWEST_VERSION)? {
        1 => Some(Version::One),
        2 => Some(Version::Two),
        _ => None,
    }
}

/// Takes the next word, if one is left and the script is of a form that may tell it: it is to be a decimal number from
/// 0 to 18446744073709551615, the life of a detector; else the fault is `LineFault::Number`. Where none is told it is
/// 0.
pub fn take_life(form: Form, words: &mut Words<'_>) -> Result<u64, LineFault>
    ensures { TakesFrom result words.new (take_life form words.old) }
{
    match form {
        Form::Script => Ok(0),
        Form::Journal => match words.next() {
            None => Ok(0),
            Some(word) => read_number(word, u64::MAX).ok_or(LineFault::Number),
        },
    }
}

/// Takes the state of a row's member: up where no word is left, and in a script of a form that can't tell it. Else the
/// next word is to be `failed`, or the fault is `LineFault::Extra`; and the word behind it a decimal number from 0 to
/// 18446744073709551615, that of the period at whose end the member was judged, or the fault is `LineFault::Number`.
pub fn take_state(form: Form, words: &mut Words<'_>) -> Result<RowState, LineFault>
    ensures { TakesFrom result words.new (take_state form words.old) }
{
    match form {
        Form::Script => Ok(RowState::Up),
        Form::Journal => match words.next() {
            None => Ok(RowState::Up),
            Some(word) => take_failed(word, words),
        },
    }
}

/// Takes the number of the period in which a member failed, behind the word that says so.
fn take_failed(word: &[u8], words: &mut Words<'_>) -> Result<RowState, LineFault>
    ensures { TakesFrom result words.new (state_told word.now words.old) }
{
    if word != b"failed".as_slice() {
        return Err(LineFault::Extra);
    }
    Ok(RowState::Failed(take_long_number(words)?))
}

/// The seed that 64 digits spell, of either case.
fn read_seed(text: &[u8]) -> Option<[u8; SEED_BYTES]>
    ensures { result ≡ seed_of text.now }
{
    let mut seed = [0; SEED_BYTES];
    match hex::decode_to_slice(text, &mut seed) {
        Ok(()) => Some(seed),
        Err(_) => None,
    }
}

/// Takes the next word, which is to be ids with commas between; else the fault is `LineFault::Number`, and
/// `LineFault::Order` where they are more than 128.
#[inline(never)]
pub fn take_order<'a>(words: &mut Words<'a>) -> Result<OrderText<'a>, LineFault>
    ensures { TakesFrom result words.new (take_order words.old) }
{
    let text = words.next().ok_or(LineFault::Number)?;
    let _ = read_order(text)?;
    Ok(OrderText { text })
}

/// The ids of an order, with commas between. Where one is no id that is told, and else where they are too
/// many.
fn read_order(text: &[u8]) -> Result<Order, LineFault>
    ensures { result ≡ order_of text.now }
{
    let mut parts = Words::split(text, b',');
    let mut order = Order::new();
    let mut fits = true;
    while let Some(part) = parts.next() {
        let id = Id::read(part).ok_or(LineFault::Number)?;
        if order.is_full() {
            fits = false;
        } else {
            order.push(id);
        }
    }
    if fits {
        Ok(order)
    } else {
        Err(LineFault::Order)
    }
}
