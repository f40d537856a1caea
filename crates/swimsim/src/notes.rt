//! What is kept of a script's lines, so that a fault in them can be explained.

use crate::overhearing::Listener;
use arrayvec::ArrayVec;
use std::alloc::{AllocError, Global};
use std::cell::RefCell;
use swim_history::{KNOWN_MEMBERS, Row};
use swim_script::{Command, Form, LINE_BYTES, first_word, read_command};
use swim_targets::Order;
use swim_text::Words;

/// How many rows are noted: one more than an opening may have, so that the first that is too many can be told.
const NOTED_ROWS: usize = KNOWN_MEMBERS + 1;

/// What the lines of a script told that were carried out. In want of memory orders and places are left out, and `kept`
/// says so.
#[derive(Drop)]
pub struct Told {
    /// The form of the script.
    pub form: Form,
    /// The `open` line, without its line feed.
    pub open: Option<ArrayVec<u8, LINE_BYTES>>,
    /// The first rows, each with the number of its line.
    pub rows: ArrayVec<(u32, Row), NOTED_ROWS>,
    /// The orders, each with the number of its line.
    pub orders: Vec<(u32, Order)>,
    /// The lines of places.
    pub places: Vec<u32>,
    /// The line of the seed.
    pub seed: Option<u32>,
    /// Whether a version was told.
    pub is_version_told: bool,
    /// The first event line.
    pub event: Option<u32>,
    /// Whether each order and each place was kept.
    pub kept: Result<(), AllocError>,
}

impl Told {
    fn new(alloc: Global) -> Told {
        Told {
            form: Form::Script,
            open: None,
            rows: ArrayVec::new(),
            orders: Vec::new(alloc),
            places: Vec::new(alloc),
            seed: None,
            is_version_told: false,
            event: None,
            kept: Ok(()),
        }
    }

    /// Keeps what a line tells, given with its number and without its line feed.
    fn keep(&mut self, number: u32, line: &[u8]) {
        self.form = self.form.after(number.saturating_sub(1), line);
        let mut words = Words::new(line);
        let Some(word) = words.next().and_then(|text| first_word(text)) else {
            return;
        };
        if let Ok(Some(command)) = read_command(self.form, word, &mut words) {
            if let Err(refused) = self.keep_command(number, line, &command) {
                self.kept = Err(refused);
            }
        }
    }

    fn keep_command(
        &mut self,
        number: u32,
        line: &[u8],
        command: &Command<'_>,
    ) -> Result<(), AllocError> {
        match command {
            Command::Open(_) => {
                let mut open = ArrayVec::new();
                let _fits = open.try_extend_from_slice(line);
                self.open = Some(open);
            }
            Command::Row(row) => {
                let _fits = self.rows.try_push((number, *row));
            }
            Command::Order(order) => self.orders.push((number, order.read()))?,
            Command::Place(_) => self.places.push(number)?,
            Command::Seed(_, _) => self.seed = Some(number),
            Command::Wire(_) => self.is_version_told = true,
            _ => {
                if self.event.is_none() {
                    self.event = Some(number);
                }
            }
        }
        Ok(())
    }
}

/// Listens to a script. It keeps the line that was read last, and what the lines before it told: where a script is
/// played line by line, those that were carried out.
#[derive(Drop)]
pub struct Notes {
    told: Told,
    number: u32,
    line: ArrayVec<u8, LINE_BYTES>,
    bytes: u32,
    is_ended: bool,
}

impl Notes {
    /// No line was read.
    pub fn new(alloc: Global) -> Notes {
        Notes {
            told: Told::new(alloc),
            number: 1,
            line: ArrayVec::new(),
            bytes: 0,
            is_ended: false,
        }
    }

    /// What was told by the lines before.
    pub fn told(&self) -> &Told {
        &self.told
    }

    /// The first bytes of the line that was read last, without its line feed.
    pub fn line(&self) -> &[u8] {
        self.line.as_slice()
    }

    /// How many bytes that line has without its line feed. The count stops at 4294967295.
    pub fn bytes(&self) -> u32 {
        self.bytes
    }

    /// Keeps what the line tells, and begins the next.
    fn file(&mut self) {
        self.told.keep(self.number, self.line.as_slice());
        self.line.clear();
        self.number = self.number.saturating_add(1);
        self.bytes = 0;
        self.is_ended = false;
    }

    fn note(&mut self, byte: u8) {
        if self.is_ended {
            self.file();
        }
        if byte == b'\n' {
            self.is_ended = true;
            return;
        }
        self.bytes = self.bytes.saturating_add(1);
        if !self.line.is_full() {
            self.line.push(byte);
        }
    }

    // A last line without a line feed is read by then, and carried out at the next look for more.
    fn end(&mut self) {
        if self.is_ended {
            self.file();
        } else if self.bytes > 0 {
            self.is_ended = true;
        }
    }
}

/// Keeps notes in a cell, where they are found afterwards.
#[derive(Drop)]
pub struct NoteTaker<'a> {
    notes: &'a RefCell<Notes>,
}

impl<'a> NoteTaker<'a> {
    /// A listener that keeps these notes.
    pub fn new(notes: &'a RefCell<Notes>) -> NoteTaker<'a> {
        NoteTaker { notes }
    }
}

impl<'a> Listener for NoteTaker<'a> {
    fn note(&mut self, byte: u8) {
        if let Ok(mut notes) = self.notes.try_borrow_mut() {
            notes.note(byte);
        }
    }

    fn end(&mut self) {
        if let Ok(mut notes) = self.notes.try_borrow_mut() {
            notes.end();
        }
    }
}
