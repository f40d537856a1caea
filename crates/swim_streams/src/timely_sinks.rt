//! A sink that waits for no reader, once it is told to hurry.

ghost use Rattle.std.specs.Prelude.{◌≡◌, true};
ghost use Rattle.swim_text.specs.Streams.{Puts, failures_if};

use crate::readiness::is_taken;
use crate::stream_desks::StreamDoor;
use std::alloc::Global;
use std::cell::Cell;
use std::net::Net;
use std::os::fd::RawFd;
use std::rt::Clock;
use std::sync::Wait;
use swim_text::Sink;

/// How the line begins that is waited for a while: that of the last life.
const CLOSING: &[u8] = b"ended ";

/// How many looks of 10 milliseconds that is: a second.
const CLOSING_LOOKS: u32 = 100;

/// A sink that can be told to wait for nobody.
pub trait Timely: Sink {
    /// From now on no line waits for a reader, or for a disk: one that isn't taken at once is left out. Where memory is
    /// refused to ask whether it is taken, it is written, and may wait.
    fn hurry(&self);

    /// Gets how many lines were left out.
    fn left_out(&self) -> u64;
}

/// A sink over a standard stream. Once it is to hurry, it asks at the beginning of each line whether the stream takes
/// the line without a wait, and hands each line on at its end. A line that isn't taken is left out whole, which is a
/// write that failed. The line of the last life is waited for at most a second.
#[derive(Drop)]
pub struct TimelySink<'r, R, W: Sink + Drop> {
    rt: &'r R,
    alloc: Global,
    descriptor: RawFd,
    door: StreamDoor<'r>,
    sink: W,
    is_hurried: Cell<bool>,
    // Whether a line was begun and has no end yet.
    is_inside: bool,
    left_out: u64,
    failures: u64,
}

impl<'r, R: Net + Clock + Wait, W: Sink + Drop> TimelySink<'r, R, W> {
    /// A sink over the sink of that descriptor, which holds nothing back, with the door to the stream's desk. It waits
    /// for readers, and for the stream's disk.
    pub fn new(
        rt: &'r R,
        alloc: Global,
        descriptor: RawFd,
        door: StreamDoor<'r>,
        sink: W,
    ) -> TimelySink<'r, R, W> {
        TimelySink {
            rt,
            alloc,
            descriptor,
            door,
            sink,
            is_hurried: Cell::new(false),
            is_inside: false,
            left_out: 0,
            failures: 0,
        }
    }

    /// Whether the stream takes a line that begins so.
    fn is_taken_in_time(&self, text: &[u8]) -> bool {
        let looks = if text.starts_with(CLOSING) {
            CLOSING_LOOKS
        } else {
            0
        };
        is_taken(self.rt, self.alloc, self.descriptor, looks) && self.door.has_room(self.rt, looks)
    }

    /// Takes the bytes of a text; where it is to hurry, only if the line that they begin is taken in time.
    #[tactic(auto, using(crate::proofs::Taken::none_put))]
    fn take(&mut self, text: &[u8]) -> bool
        ensures bytes { Puts (W.written self.old.sink) (W.written self.new.sink) text.now result }
        ensures failures { self.new.failures ≡ self.old.failures }
    {
        if text.is_empty() || !self.is_hurried.get() {
            return self.sink.put(text);
        }
        if !self.is_inside && !self.is_taken_in_time(text) {
            self.left_out = self.left_out.saturating_add(1);
            return false;
        }
        self.take_now(text)
    }

    /// Takes the bytes of a text, and hands the line on that they end.
    #[tactic(auto, using(crate::proofs::Taken::put_and_flushed))]
    fn take_now(&mut self, text: &[u8]) -> bool
        ensures bytes { Puts (W.written self.old.sink) (W.written self.new.sink) text.now result }
        ensures failures { self.new.failures ≡ self.old.failures }
    {
        let is_put = self.sink.put(text);
        let is_whole = text.ends_with(b"\n");
        self.is_inside = is_put && !is_whole;
        if !is_put || !is_whole {
            return is_put;
        }
        self.sink.flush()
    }

    /// Counts a failure, where it is one.
    fn count(&mut self, is_done: bool)
        ensures sink { self.new.sink ≡ self.old.sink }
        ensures failures { self.new.failures ≡ failures_if self.old.failures is_done }
    {
        if !is_done {
            self.failures = self.failures.saturating_add(1);
        }
    }
}

impl<'r, R: Net + Clock + Wait, W: Sink + Drop> Sink for TimelySink<'r, R, W> {
    ghost written = { λ s. W.written s.sink };

    ghost failures = { λ s. s.failures };

    ghost held = { λ s. W.held s.sink };

    fn put(&mut self, text: &[u8]) -> bool {
        let is_taken = self.take(text);
        self.count(is_taken);
        is_taken
    }

    fn flush(&mut self) -> bool {
        let is_sent = self.sink.flush();
        self.count(is_sent);
        is_sent
    }
}

impl<'r, R: Net + Clock + Wait, W: Sink + Drop> Timely for TimelySink<'r, R, W> {
    fn hurry(&self) {
        self.is_hurried.set(true);
        self.door.open();
    }

    fn left_out(&self) -> u64 {
        self.left_out
    }
}
