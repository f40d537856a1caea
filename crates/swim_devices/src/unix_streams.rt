//! The two ends of a connection of the control socket. Neither waits: the stream has to be one that doesn't.

ghost use Rattle.std.specs.Prelude.{◌≡◌, ◌<◌, ◌≤◌, [], ◌∷◌, ◌++◌, true, false, length, take, drop, None, Some};
ghost use Rattle.std.specs.Io.KnownBytes.{Keeps, append_known};
ghost use Rattle.swim_text.specs.Streams.{Gives, Puts, failures_then, failures_if, given_then};
ghost use Rattle.swim_text.specs.Polled.{Looks};
ghost use Rattle.swim_devices.specs.Streams.{Finds, Sends, fresh_sink, fresh_source};

use std::alloc::Global;
use std::io::{self, ErrorKind, Read, Write};
use std::marker::Model;
use std::net::Shutdown;
use std::os::unix::net::UnixStream;
use std::sync::Arc;
use swim_text::{Byte, Look, Polled, Sink, Source};
use swim_trail::Trail;

/// How many bytes are read at a time.
const READ_BYTES: usize = 4096;

/// How many writes there are at a time.
const WRITES: u32 = 16;

/// Where an operator's control lines come from. A contract sees what each read of the stream found so far, with the bytes
/// that came. These are, in order, the bytes that were taken and those that are ready: none is lost, and none comes twice.
/// What is to come isn't known.
#[derive(Drop)]
pub struct StreamSource {
    stream: UnixStream,
    bytes: [u8; READ_BYTES],
    start: usize,
    end: usize,
    failures: u64,
    found: Trail<Look>,
    taken: Trail<()>,
}

impl Model for StreamSource {
    ghost use Rattle.std.specs.Prelude.{◌≡◌, ◌≤◌, ◌++◌, slice_range};
    ghost use Rattle.std.specs.List.{flat_map};
    ghost use Rattle.swim_devices.specs.Streams.{AtSource};
    ghost use Rattle.swim_devices.specs.Trails.{bytes_in};

    ghost Value = { AtSource };

    ghost view = { λ s. record {
      found = s.found.items;
      taken = flat_map bytes_in s.taken.items;
      ready = slice_range s.bytes s.start s.end;
      failures = s.failures;
    } };

    ghost invariant = { λ s. (s.start ≤ s.end) × (s.end ≤ 4096) × (flat_map bytes_in s.found.items
        ≡ flat_map bytes_in s.taken.items ++ slice_range s.bytes s.start s.end) };
}

impl StreamSource {
    /// A source over a stream that doesn't wait. It has read nothing yet.
    pub fn new(stream: UnixStream) -> StreamSource
        ensures { result ≡ fresh_source }
    {
        StreamSource {
            stream,
            bytes: [0; READ_BYTES],
            start: 0,
            end: 0,
            failures: 0,
            found: Trail::new(),
            taken: Trail::new(),
        }
    }

    /// Reads the stream once, and notes what was found, with the bytes that came. Nothing else reads or notes that.
    #[tactic(auto, using(crate::proofs::Streamed::found_more))]
    fn read_once(&mut self) -> Look
        requires { length self.old.ready ≡ 0 }
        ensures looks { Looks None None self.new.ready result }
        ensures found { self.new.found ≡ self.old.found ++ (result, self.new.ready) ∷ [] }
        ensures taken { self.new.taken ≡ self.old.taken }
        ensures failures { self.new.failures ≡ self.old.failures }
    {
        let (found, count) = found_by(self.stream.read(&mut self.bytes));
        self.start = 0;
        self.end = count;
        self.found.note(&found, &self.bytes[..count]);
        found
    }

    /// Takes so many of the bytes that are ready, and notes them.
    #[tactic(auto, using(crate::proofs::Streamed::taken_more, crate::proofs::Streamed::less_ready, crate::proofs::Streamed::still_found, crate::proofs::Streamed::within_ready))]
    fn take(&mut self, count: usize)
        requires { count ≤ length self.old.ready }
        ensures found { self.new.found ≡ self.old.found }
        ensures taken { self.new.taken ≡ self.old.taken ++ take count self.old.ready }
        ensures ready { self.new.ready ≡ drop count self.old.ready }
        ensures failures { self.new.failures ≡ self.old.failures }
    {
        let end = self.start + count;
        let bytes: &[u8] = &self.bytes;
        self.taken.note(&(), &bytes[self.start..end]);
        self.start = end;
    }

    /// Takes the next byte that is ready.
    #[tactic(auto, using(crate::proofs::Streamed::first_taken))]
    fn take_next(&mut self) -> u8
        requires { 0 < length self.old.ready }
        ensures found { self.new.found ≡ self.old.found }
        ensures taken { self.new.taken ≡ self.old.taken ++ result ∷ [] }
        ensures failures { self.new.failures ≡ self.old.failures }
    {
        let byte = self.ready()[0];
        self.take(1);
        byte
    }
}

impl Source for StreamSource {
    ghost left = { λ s. None };

    ghost ready = { λ s. s.ready };

    ghost given = { λ s. Some s.taken };

    ghost failures = { λ s. s.failures };

    fn byte(&mut self) -> Byte
        ensures bytes { Gives None None result }
        ensures failures { self.new.failures ≡ failures_then self.old.failures result }
        ensures given { Some self.new.taken ≡ given_then (Some self.old.taken) result }
    {
        match self.look() {
            Look::Ready => Byte::One(self.take_next()),
            Look::Over => Byte::End,
            Look::Nothing | Look::Fault => {
                self.failures = self.failures.saturating_add(1);
                Byte::Fault
            }
        }
    }

    fn ready(&self) -> &[u8]
        ensures bytes { result.now ≡ self.now.ready }
    {
        &self.bytes[self.start..self.end]
    }

    fn skip(&mut self, count: usize)
        requires { count ≤ length self.old.ready }
        ensures ready { self.new.ready ≡ drop count self.old.ready }
        ensures failures { self.new.failures ≡ self.old.failures }
        ensures found { self.new.found ≡ self.old.found }
        ensures given { Some self.new.taken ≡ append_known (Some self.old.taken) (take count self.old.ready) }
    {
        self.take(count);
    }
}

impl Polled for StreamSource {
    #[tactic(auto, using(std::proofs::lemmas::List::nil_from_length))]
    fn look(&mut self) -> Look
        ensures looks { Looks None None self.new.ready result }
        ensures failures { self.new.failures ≡ self.old.failures }
        ensures finds { Finds self.old result self.new }
        ensures given { Some self.new.taken ≡ Some self.old.taken }
    {
        if !self.ready().is_empty() {
            return Look::Ready;
        }
        self.read_once()
    }
}

/// What a read found that answered so, and how many bytes came.
fn found_by(answer: io::Result<usize>) -> (Look, usize)
    ensures some { result.0 ≡ Look.Ready → 0 < result.1 }
    ensures within { result.1 ≤ 4096 }
{
    match answer {
        Ok(0) => (Look::Over, 0),
        Ok(count) => (Look::Ready, count.min(READ_BYTES)),
        Err(fault) => match fault.kind() {
            ErrorKind::WouldBlock | ErrorKind::Interrupted => (Look::Nothing, 0),
            _ => (Look::Fault, 0),
        },
    }
}

/// Where the answers to an operator's control lines go. It holds them back until it is flushed; a flush hands on what
/// the stream takes now. A contract sees all that it took, which is what left it, in order, and then what it holds back;
/// and of what left it whether the system took it.
#[derive(Drop)]
pub struct StreamSink {
    stream: UnixStream,
    // The place of the connection, which it has as long as this stands.
    _place: Arc<()>,
    // In the heap, and empty as long as nothing is held back: the longest answer has some 72 KiB.
    held: Vec<u8>,
    sent: usize,
    failures: u64,
    put: Trail<()>,
    left: Trail<bool>,
}

impl Model for StreamSink {
    ghost use Rattle.std.specs.Prelude.{◌≡◌, ◌≤◌, ◌++◌, drop, length};
    ghost use Rattle.std.specs.List.{flat_map};
    ghost use Rattle.swim_devices.specs.Streams.{AtSink};
    ghost use Rattle.swim_devices.specs.Trails.{bytes_in};

    ghost Value = { AtSink };

    ghost view = { λ s. record {
      put = flat_map bytes_in s.put.items;
      left = s.left.items;
      held = drop s.sent s.held.items;
      failures = s.failures;
    } };

    ghost invariant = { λ s. (s.sent ≤ length s.held.items) × (flat_map bytes_in s.put.items
        ≡ flat_map bytes_in s.left.items ++ drop s.sent s.held.items) };
}

impl StreamSink {
    /// A sink over a stream that doesn't wait, of a connection that has this place. It took nothing yet.
    pub fn new(alloc: Global, stream: UnixStream, place: Arc<()>) -> StreamSink
        ensures { result ≡ fresh_sink }
    {
        StreamSink {
            stream,
            _place: place,
            held: Vec::new(alloc),
            sent: 0,
            failures: 0,
            put: Trail::new(),
            left: Trail::new(),
        }
    }

    /// Hands on what the stream takes now, and answers whether nothing is left to be handed on.
    fn hand_on(&mut self) -> bool
        ensures put { self.new.put ≡ self.old.put }
        ensures failures { self.new.failures ≡ self.old.failures }
        ensures sent { result ≡ true → length self.new.held ≡ 0 }
    {
        for _write in 0..WRITES {
            if self.sent >= self.held.len() {
                self.clear();
                return true;
            }
            match self.write_once() {
                Ok(_) | Err(ErrorKind::Interrupted) => {}
                Err(ErrorKind::WouldBlock) => return false,
                Err(_) => {
                    self.give_up();
                    return true;
                }
            }
        }
        false
    }

    /// Offers the stream once what is held back, and notes what the system took. Nothing else writes, or notes that.
    #[tactic(auto, using(crate::proofs::Streamed::left_more, crate::proofs::Streamed::within_held))]
    fn write_once(&mut self) -> Result<usize, ErrorKind>
        ensures put { self.new.put ≡ self.old.put }
        ensures failures { self.new.failures ≡ self.old.failures }
        ensures sends { Sends self.old result self.new }
    {
        let held = &self.held.as_slice()[self.sent..];
        match self.stream.write(held) {
            Ok(count) => {
                let count = count.min(held.len());
                self.left.note(&true, &held[..count]);
                self.sent += count;
                Ok(count)
            }
            Err(fault) => Err(fault.kind()),
        }
    }

    /// Makes room for what comes next, once all that was held back has left.
    #[tactic(auto, using(crate::proofs::Streamed::none_held))]
    fn clear(&mut self)
        requires { length self.old.held ≡ 0 }
        ensures put { self.new.put ≡ self.old.put }
        ensures left { self.new.left ≡ self.old.left }
        ensures failures { self.new.failures ≡ self.old.failures }
        ensures none { length self.new.held ≡ 0 }
    {
        self.held.clear();
        self.sent = 0;
    }

    /// Lets go of what is held, for nobody takes it any more, and notes that. The lines of the other end are over then too,
    /// so that the connection is closed with its next turn and not only once an answer has waited too long.
    #[tactic(auto, using(crate::proofs::Streamed::all_left))]
    fn give_up(&mut self)
        ensures put { self.new.put ≡ self.old.put }
        ensures left { self.new.left ≡ self.old.left ++ (false, self.old.held) ∷ [] }
        ensures failures { self.new.failures ≡ self.old.failures }
        ensures none { length self.new.held ≡ 0 }
    {
        self.left.note(&false, &self.held.as_slice()[self.sent..]);
        self.held.clear();
        self.sent = 0;
        let _is_shut = self.stream.shutdown(Shutdown::Both);
    }

    /// Holds a text back, if there is memory for it, and notes it.
    #[tactic(auto, using(crate::proofs::Streamed::put_more, crate::proofs::Streamed::none_put, crate::specs::Trails::bytes_more))]
    fn hold(&mut self, text: &[u8]) -> bool
        ensures puts { Puts (Some self.old.put) (Some self.new.put) text.now result }
        ensures left { self.new.left ≡ self.old.left }
        ensures failures { self.new.failures ≡ self.old.failures }
    {
        match self.held.extend_from_slice(text) {
            Ok(()) => {
                self.put.note(&(), text);
                true
            }
            Err(_) => false,
        }
    }

    /// Counts a failure, where it is one.
    fn counted(&mut self, is_done: bool) -> bool
        ensures done { result ≡ is_done }
        ensures same { self.new ≡ record self.old { failures = failures_if self.old.failures is_done } }
    {
        if !is_done {
            self.failures = self.failures.saturating_add(1);
        }
        is_done
    }
}

impl Sink for StreamSink {
    ghost written = { λ s. Some s.put };

    ghost failures = { λ s. s.failures };

    ghost held = { λ s. length s.held };

    fn put(&mut self, text: &[u8]) -> bool
        ensures bytes { Puts (Some self.old.put) (Some self.new.put) text.now result }
        ensures failures { self.new.failures ≡ failures_if self.old.failures result }
        ensures left { self.new.left ≡ self.old.left }
    {
        let is_held = self.hold(text);
        self.counted(is_held)
    }

    fn flush(&mut self) -> bool
        ensures bytes { Keeps (Some self.old.put) (Some self.new.put) }
        ensures failures { self.new.failures ≡ failures_if self.old.failures result }
        ensures sent { result ≡ true → length self.new.held ≡ 0 }
    {
        let is_sent = self.hand_on();
        self.counted(is_sent)
    }
}
