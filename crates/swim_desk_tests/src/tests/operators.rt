//! Operators in memory: what they type, and whether they were answered as is expected.

ghost use Rattle.std.specs.Prelude.{◌≡◌, [], None, Some};
ghost use Rattle.std.specs.List.{flat_map};
ghost use Rattle.swim_devices.specs.Trails.{bytes_in};

use std::sync::atomic::{AtomicBool, AtomicUsize, Ordering};
use swim_text::{Byte, Look, Polled, Sink, Source};
use swim_trail::Trail;

/// Lines that an operator types, all at once. Nothing comes before they were looked for so often.
#[derive(Drop)]
pub struct Typed {
    waits: u32,
    lines: &'static [u8],
}

impl Typed {
    pub fn new(waits: u32, lines: &'static [u8]) -> Typed {
        Typed { waits, lines }
    }
}

/// A keyboard, by which such lines come. It notes the bytes that it gave.
#[derive(Drop)]
pub struct Keyboard {
    typed: Typed,
    ready: &'static [u8],
    given: Trail<()>,
}

impl Keyboard {
    /// These lines are to come by it.
    pub fn of(typed: Typed) -> Keyboard
        ensures { Some (flat_map bytes_in result.given.items) ≡ Some [] }
    {
        Keyboard {
            typed,
            ready: b"",
            given: Trail::new(),
        }
    }
}

impl Source for Keyboard {
    ghost left = { λ keyboard. None };

    ghost ready = { λ keyboard. keyboard.ready.now };

    ghost given = { λ keyboard. Some (flat_map bytes_in keyboard.given.items) };

    ghost failures = { λ keyboard. 0 };

    #[tactic(auto, using(swim_devices::specs::Trails::bytes_more))]
    fn byte(&mut self) -> Byte {
        match self.ready.split_first() {
            Some((byte, rest)) => {
                self.given.note(&(), &[*byte]);
                self.ready = rest;
                Byte::One(*byte)
            }
            None => Byte::End,
        }
    }

    fn ready(&self) -> &[u8] {
        self.ready
    }

    #[tactic(auto, using(swim_devices::specs::Trails::bytes_more))]
    fn skip(&mut self, count: usize) {
        self.given.note(&(), &self.ready[..count]);
        self.ready = &self.ready[count..];
    }
}

impl Polled for Keyboard {
    fn look(&mut self) -> Look {
        if self.typed.waits > 0 {
            self.typed.waits -= 1;
            return Look::Nothing;
        }
        if self.typed.lines.is_empty() {
            return Look::Over;
        }
        self.ready = self.typed.lines;
        self.typed.lines = b"";
        Look::Ready
    }
}

/// The answers that an operator is to get, how many bytes of them came, and whether any other came.
pub struct Seen {
    expected: &'static [u8],
    bytes: AtomicUsize,
    has_other: AtomicBool,
}

// By hand, so that whoever holds one proves a single call where it is dropped, and not each field.
impl Drop for Seen {
    fn drop(self) {
        let Seen {
            expected: _,
            bytes: _,
            has_other: _,
        } = self;
    }
}

impl Seen {
    /// No answer came yet, and these are expected.
    fn expecting(expected: &'static [u8]) -> Seen {
        Seen {
            expected,
            bytes: AtomicUsize::new(0),
            has_other: AtomicBool::new(false),
        }
    }

    /// Whether all the answers came that are expected, and no others.
    pub fn is_all(&self) -> bool {
        self.is_front(self.expected.len())
    }

    /// Whether so many bytes of the expected answers came, and no others.
    pub fn is_front(&self, bytes: usize) -> bool {
        self.bytes.load(Ordering::SeqCst) == bytes && !self.has_other.load(Ordering::SeqCst)
    }

    fn see_all(&self, text: &[u8]) {
        for byte in text {
            self.see(*byte);
        }
    }

    fn see(&self, byte: u8) {
        let place = self.bytes.fetch_add(1, Ordering::SeqCst);
        if self.expected.get(place) != Some(&byte) {
            self.has_other.store(true, Ordering::SeqCst);
        }
    }
}

/// Which operator of a test.
#[derive(Clone, Copy, Debug, PartialEq, Eq)]
pub enum Who {
    First,
    Second,
    Third,
}

/// What up to three operators are to see, and whether the life is over.
pub struct Room {
    pub first: Seen,
    pub second: Seen,
    pub third: Seen,
    pub over: AtomicBool,
}

impl Drop for Room {
    fn drop(self) {
        let Room {
            first: _,
            second: _,
            third: _,
            over: _,
        } = self;
    }
}

impl Room {
    /// A room of one operator, who is to get these answers.
    pub fn of_one(first: &'static [u8]) -> Room {
        Room::of_three(first, b"", b"")
    }

    /// A room of three.
    pub fn of_three(first: &'static [u8], second: &'static [u8], third: &'static [u8]) -> Room {
        Room {
            first: Seen::expecting(first),
            second: Seen::expecting(second),
            third: Seen::expecting(third),
            over: AtomicBool::new(false),
        }
    }

    fn seen(&self, who: Who) -> &Seen {
        match who {
            Who::First => &self.first,
            Who::Second => &self.second,
            Who::Third => &self.third,
        }
    }
}

/// Where an operator's answers go. It notes what was put.
#[derive(Drop)]
pub struct Screen<'s> {
    room: &'s Room,
    who: Who,
    put: Trail<()>,
}

impl<'s> Screen<'s> {
    pub fn new(room: &'s Room, who: Who) -> Screen<'s>
        ensures { Some (flat_map bytes_in result.put.items) ≡ Some [] }
    {
        Screen {
            room,
            who,
            put: Trail::new(),
        }
    }
}

impl<'s> Sink for Screen<'s> {
    ghost written = { λ screen. Some (flat_map bytes_in screen.put.items) };

    ghost failures = { λ screen. 0 };

    ghost held = { λ screen. 0 };

    #[tactic(auto, using(swim_devices::specs::Trails::bytes_more))]
    fn put(&mut self, text: &[u8]) -> bool {
        self.room.seen(self.who).see_all(text);
        self.put.note(&(), text);
        true
    }

    fn flush(&mut self) -> bool {
        true
    }
}
