//! Doors to which nobody comes, or one operator.

ghost use Rattle.std.specs.Prelude.{◌≡◌, None};
ghost use Rattle.std.specs.Io.KnownBytes.{Keeps};
ghost use Rattle.swim_text.specs.Streams.{Puts, failures_if};

use super::noting::{NotingReader, NotingWriter};
use super::signals::{Failing, Signals, TURNS, is_set, pause, set};
use arrayvec::ArrayVec;
use std::rt::Clock;
use std::sync::Wait;
use swim_desk::{Door, Knock};
use swim_doubles::Text;
use swim_text::{Byte, Look, Page, Polled, Sink, Source};

/// The table of members 2 and 3, as `list` answers.
const LIST: &[u8] = b"2 10.0.0.2:7000 up\n3 10.0.0.3:7000 up\n.\n";

/// A door to which nobody comes.
#[derive(Drop)]
pub struct NoDoor<K: Clock + Drop> {
    /// What it waits by.
    pub clock: K,
}

impl<K: Clock + Drop> Door for NoDoor<K> {
    ghost faults = { λ door. None };

    type Reader = Text<'static>;

    type Writer = Page;

    fn next<R: Wait>(&mut self, _rt: &R) -> Knock<Text<'static>, Page> {
        Knock::Idle
    }

    fn wait<R: Wait>(&mut self, _rt: &R) {
        pause(&self.clock);
    }

    fn now(&mut self) -> u64 {
        0
    }
}

/// A door to which one operator comes, once it is open.
#[derive(Drop)]
pub struct OneDoor<'s, K: Clock + Copy + Drop> {
    /// What it waits by.
    pub clock: K,
    /// What it tells.
    pub signals: &'s Signals,
    /// The operator came.
    pub was_open: bool,
}

impl<'s, K: Clock + Copy + Drop> Door for OneDoor<'s, K> {
    ghost faults = { λ door. None };

    type Reader = NotingReader<TwoLines<'s>>;

    type Writer = NotingWriter<Answers<'s>>;

    fn next<R: Wait>(
        &mut self,
        _rt: &R,
    ) -> Knock<NotingReader<TwoLines<'s>>, NotingWriter<Answers<'s>>> {
        if self.signals.fails(Failing::Door) {
            return Knock::Fault;
        }
        if self.was_open || !is_set(&self.signals.is_open) {
            return Knock::Idle;
        }
        self.was_open = true;
        let lines = TwoLines {
            signals: self.signals,
            ready: b"",
            looks: 0,
            given: 0,
        };
        let answers = Answers {
            signals: self.signals,
            text: ArrayVec::new(),
            failures: 0,
        };
        Knock::Conn(NotingReader::over(lines), NotingWriter::over(answers))
    }

    fn wait<R: Wait>(&mut self, _rt: &R) {
        pause(&self.clock);
    }

    fn now(&mut self) -> u64 {
        0
    }
}

/// The lines `list` and `stop`, the second of which comes when the ack was sent.
#[derive(Drop)]
pub struct TwoLines<'s> {
    signals: &'s Signals,
    ready: &'static [u8],
    looks: u32,
    given: u32,
}

impl<'s> Source for TwoLines<'s> {
    ghost left = { λ lines. None };

    ghost ready = { λ lines. lines.ready.now };

    ghost given = { λ lines. None };

    ghost failures = { λ lines. 0 };

    fn byte(&mut self) -> Byte {
        match self.ready.split_first() {
            Some((byte, rest)) => {
                self.ready = rest;
                Byte::One(*byte)
            }
            None => Byte::End,
        }
    }

    fn ready(&self) -> &[u8] {
        self.ready
    }

    fn skip(&mut self, count: usize) {
        self.ready = &self.ready[count..];
    }
}

impl<'s> Polled for TwoLines<'s> {
    fn look(&mut self) -> Look {
        self.looks = self.looks.saturating_add(1);
        if self.signals.fails(Failing::Reader) {
            set(&self.signals.is_broken);
            return Look::Fault;
        }
        if self.given == 0 {
            self.given = 1;
            self.ready = b"list\n";
            return Look::Ready;
        }
        if self.given == 1 && is_set(&self.signals.is_acked) {
            self.given = 2;
            self.ready = b"stop\n";
            return Look::Ready;
        }
        if self.given == 1 && self.looks < TURNS {
            Look::Nothing
        } else {
            Look::Over
        }
    }
}

/// Where the operator's answers go. It tells that the list was answered, and that the life is stopping.
#[derive(Drop)]
pub struct Answers<'s> {
    signals: &'s Signals,
    text: ArrayVec<u8, 128>,
    failures: u64,
}

impl<'s> Sink for Answers<'s> {
    ghost written = { λ answers. None };

    ghost failures = { λ answers. answers.failures };

    ghost held = { λ answers. 0 };

    fn put(&mut self, text: &[u8]) -> bool
        ensures bytes { Puts None None text.now result }
        ensures failures { self.new.failures ≡ failures_if self.old.failures result }
    {
        if self.signals.fails(Failing::Answers) {
            set(&self.signals.is_broken);
            self.failures = self.failures.saturating_add(1);
            return false;
        }
        keep(&mut self.text, text);
        true
    }

    fn flush(&mut self) -> bool
        ensures bytes { Keeps None None }
        ensures failures { self.new.failures ≡ failures_if self.old.failures result }
    {
        let text = self.text.as_slice();
        if *text == *LIST {
            set(&self.signals.is_listed);
        }
        if text.ends_with(b"\n.\nstopping\n") {
            set(&self.signals.is_stopping);
        }
        true
    }
}

// Adds bytes, as far as there is room.
fn keep(kept: &mut ArrayVec<u8, 128>, text: &[u8]) {
    for byte in text {
        let _ = kept.try_push(*byte);
    }
}
