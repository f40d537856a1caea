//! Where text for a standard stream is laid for the thread that writes it, if the stream is a file. The system can't
//! say whether a file takes a text without a wait, and its disk may hang.

ghost use Rattle.std.specs.Prelude.{◌≤◌, length};

use crate::readiness::LOOK_MS;
use std::alloc::{AllocError, Global};
use std::io::{self, ErrorKind, Write};
use std::rt::{Clock, Files};
use std::sync::atomic::{AtomicBool, Ordering};
use std::sync::{Arc, Condvar, Mutex, Wait};
use std::time::Duration;
use std::{fs, mem};

/// How many bytes wait at most.
pub const TEXT_BYTES: usize = 8_192;

/// How much room a line has to find: more than any takes.
const LINE_BYTES: usize = 1_024;

/// Where the system says what standard output is.
const OUTPUT_PATH: &str = "/proc/self/fd/1";

/// The same of standard error.
const ERROR_PATH: &str = "/proc/self/fd/2";

/// What lies on a desk.
#[derive(Drop)]
struct Sheet {
    text: Vec<u8>,
    // Whether nothing more is laid on it.
    is_closed: bool,
}

impl Sheet {
    /// Whether there is room for so many bytes more.
    fn has_room(&self, count: usize) -> bool {
        count <= TEXT_BYTES.saturating_sub(self.text.len())
    }
}

/// A desk between those who write to a stream and the thread that writes what they laid there.
#[derive(Drop)]
pub struct StreamDesk {
    sheet: Mutex<Sheet>,
    changed: Condvar,
    // Whether text is to be laid on it, and whether a thread writes that.
    is_open: AtomicBool,
    is_served: AtomicBool,
}

impl StreamDesk {
    /// Nothing lies on it, and nothing is to be laid on it yet. Its memory is taken here.
    fn new(alloc: Global) -> Result<StreamDesk, AllocError> {
        let text = Vec::with_capacity(alloc, TEXT_BYTES)?;
        Ok(StreamDesk {
            sheet: Mutex::new(Sheet {
                text,
                is_closed: false,
            }),
            changed: Condvar::new(),
            is_open: AtomicBool::new(false),
            is_served: AtomicBool::new(false),
        })
    }

    /// Whether text is laid on it.
    fn is_ready(&self) -> bool {
        self.is_open.load(Ordering::SeqCst) && self.is_served.load(Ordering::SeqCst)
    }

    /// Lays a text on it, and answers whether there was room for all of it. Where there wasn't, none of it lies there.
    fn add<R: Wait>(&self, rt: &R, text: &[u8]) -> bool {
        let mut sheet = self.sheet.lock(rt);
        let is_laid = sheet.has_room(text.len()) && sheet.text.extend_from_slice(text).is_ok();
        // Where there is no room, too: who writes tries again what the stream didn't take.
        self.changed.notify_all();
        is_laid
    }

    /// Whether there is room for a line, now or within so many milliseconds. Where there is none yet, who writes is
    /// woken, to try again what the stream didn't take: no new text would wake it.
    fn has_room_within<R: Wait + Clock>(&self, rt: &R, milliseconds: u64) -> bool {
        let sheet = self.sheet.lock(rt);
        let most = Duration::from_millis(milliseconds);
        if !sheet.has_room(LINE_BYTES) {
            self.changed.notify_all();
        }
        let (sheet, _is_over) = self
            .changed
            .wait_timeout_while(rt, sheet, most, |sheet| !sheet.has_room(LINE_BYTES));
        sheet.has_room(LINE_BYTES)
    }

    /// Nothing more is laid on it: who writes ends once all is written.
    fn close<R: Wait>(&self, rt: &R) {
        self.sheet.lock(rt).is_closed = true;
        self.changed.notify_all();
    }

    /// Writes what is laid on it, by a page of as many bytes, until it is closed and nothing is left. What the stream
    /// doesn't take, as on a full disk, is tried again when something more is laid there, or finds no room.
    pub fn write_on<R: Wait, W: Write + Drop>(&self, rt: &R, page: Vec<u8>, stream: W) {
        let mut page = page;
        let mut stream = stream;
        let mut is_stuck = false;
        self.is_served.store(true, Ordering::SeqCst);
        for _turn in rt.forever() {
            if !self.take(rt, &mut page, is_stuck) {
                return;
            }
            let count = written(&mut stream, page.as_slice());
            is_stuck = count == 0;
            drop_front(&mut page, count);
        }
    }

    /// Waits for something to write, and answers whether there is any: text that lies here, which it takes onto the
    /// page, or the rest that is on the page. If the stream was stuck at that, it first waits for something more.
    fn take<R: Wait>(&self, rt: &R, page: &mut Vec<u8>, is_stuck: bool) -> bool {
        let mut is_stuck = is_stuck;
        let mut sheet = self.sheet.lock(rt);
        for _look in rt.forever() {
            if page.is_empty() && !sheet.text.is_empty() {
                mem::swap(&mut sheet.text, page);
                self.changed.notify_all();
            }
            if !page.is_empty() && !is_stuck {
                return true;
            }
            if sheet.is_closed {
                return false;
            }
            sheet = self.changed.wait(rt, sheet);
            is_stuck = false;
        }
        unreachable!()
    }
}

/// How many bytes a stream takes by one write: none if that fails.
fn written<W: Write>(stream: &mut W, bytes: &[u8]) -> usize
    ensures { result ≤ length bytes.now }
{
    match stream.write(bytes) {
        Ok(count) => count,
        Err(_) => 0,
    }
}

/// Takes the first bytes away. It takes no memory.
fn drop_front(bytes: &mut Vec<u8>, count: usize)
    requires { count ≤ length bytes.old.items }
{
    let left = bytes.len() - count;
    bytes.rotate_left(count);
    bytes.truncate(left);
}

/// The desk of the stream at a path. `None` if that is no file, or memory is refused.
fn desk_for<R: Files>(rt: &R, alloc: Global, path: &str) -> Option<Arc<StreamDesk, Global>> {
    match fs::metadata(rt, path) {
        Ok(metadata) if metadata.is_file() => {
            let desk = StreamDesk::new(alloc).ok()?;
            Arc::new(alloc, desk).ok()
        }
        _ => None,
    }
}

/// The desks of those standard streams that are files.
#[derive(Drop)]
pub struct StreamDesks {
    pub output: Option<Arc<StreamDesk, Global>>,
    pub error: Option<Arc<StreamDesk, Global>>,
}

impl StreamDesks {
    /// Nothing lies on them. A stream has none if memory for it is refused.
    pub fn new<R: Files>(rt: &R, alloc: Global) -> StreamDesks {
        StreamDesks {
            output: desk_for(rt, alloc, OUTPUT_PATH),
            error: desk_for(rt, alloc, ERROR_PATH),
        }
    }

    /// The same, for another thread.
    pub fn shared(&self) -> StreamDesks {
        StreamDesks {
            output: shared(&self.output),
            error: shared(&self.error),
        }
    }

    /// Nothing more is laid on them.
    pub fn close<R: Wait>(&self, rt: &R) {
        close(rt, &self.output);
        close(rt, &self.error);
    }
}

/// A desk for another thread, if there is one.
pub fn shared(desk: &Option<Arc<StreamDesk, Global>>) -> Option<Arc<StreamDesk, Global>> {
    match desk {
        Some(desk) => Arc::try_clone(desk).ok(),
        None => None,
    }
}

/// Nothing more is laid on a desk, if there is one.
fn close<R: Wait>(rt: &R, desk: &Option<Arc<StreamDesk, Global>>) {
    if let Some(desk) = desk {
        desk.close(rt);
    }
}

/// What became of a text for a stream.
#[derive(Clone, Copy)]
enum Fate {
    /// It was laid on the stream's desk.
    Laid,
    /// There was no room for it.
    LeftOut,
    /// Nobody writes what is laid on a desk.
    Unserved,
}

/// The way to the desk of a stream, if it has one.
#[derive(Clone, Copy)]
pub struct StreamDoor<'d> {
    desk: Option<&'d StreamDesk>,
}

impl<'d> StreamDoor<'d> {
    /// That to this desk, if there is one.
    pub fn new(desk: &'d Option<Arc<StreamDesk, Global>>) -> StreamDoor<'d> {
        match desk {
            Some(desk) => StreamDoor {
                desk: Some(&**desk),
            },
            None => StreamDoor { desk: None },
        }
    }

    /// From now on text is laid on the desk, once a thread writes that.
    pub fn open(self) {
        if let Some(desk) = self.desk {
            desk.is_open.store(true, Ordering::SeqCst);
        }
    }

    /// Whether a line would be taken, now or within so many looks of 10 milliseconds each, as far as that is for the
    /// desk to say.
    pub fn has_room<R: Wait + Clock>(self, rt: &R, looks: u32) -> bool {
        match self.desk {
            Some(desk) if desk.is_ready() => {
                desk.has_room_within(rt, LOOK_MS.saturating_mul(u64::from(looks)))
            }
            _ => true,
        }
    }

    /// Lays a text on the desk.
    fn lay<R: Wait>(self, rt: &R, text: &[u8]) -> Fate {
        match self.desk {
            Some(desk) if desk.is_ready() => {
                if desk.add(rt, text) {
                    Fate::Laid
                } else {
                    Fate::LeftOut
                }
            }
            _ => Fate::Unserved,
        }
    }
}

/// A standard stream. Once its desk is open, what is written is laid there, and nobody waits for it: a text for which
/// there is no room is left out whole, and the next flush fails.
#[derive(Drop)]
pub struct DeskStream<'d, R, W: Write + Drop> {
    rt: &'d R,
    door: StreamDoor<'d>,
    stream: W,
    // Whether a text was left out since the last flush.
    is_cut: bool,
}

impl<'d, R, W: Write + Drop> DeskStream<'d, R, W> {
    /// This stream, with the door to its desk.
    pub fn new(rt: &'d R, door: StreamDoor<'d>, stream: W) -> DeskStream<'d, R, W> {
        DeskStream {
            rt,
            door,
            stream,
            is_cut: false,
        }
    }
}

impl<'d, R: Wait, W: Write + Drop> Write for DeskStream<'d, R, W> {
    fn write(&mut self, bytes: &[u8]) -> io::Result<usize> {
        match self.door.lay(self.rt, bytes) {
            Fate::Laid => Ok(bytes.len()),
            Fate::LeftOut => {
                self.is_cut = true;
                Ok(bytes.len())
            }
            Fate::Unserved => self.stream.write(bytes),
        }
    }

    fn flush(&mut self) -> io::Result<()> {
        if self.is_cut {
            self.is_cut = false;
            return Err(io::Error::from(ErrorKind::WouldBlock));
        }
        self.stream.flush()
    }
}
