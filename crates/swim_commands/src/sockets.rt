//! A daemon that is asked, behind its control socket.

ghost use Rattle.std.specs.Prelude.{◌≡◌, None, true};
ghost use Rattle.swim_commands.specs.Answers.{is_answer_to};
ghost use Rattle.swim_trail.specs.Growing.{Grows};

use crate::answers::{ControlAnswer, STOPPING, is_answer, is_answer_to, is_refusal, is_stop};
use crate::askers::{Asker, Came};
use std::io::{self, ErrorKind, Read, Write};
use std::net::{Net, Shutdown};
use std::os::fd::OwnedFd;
use std::os::unix::net::UnixStream;
use std::rt::Clock;
use std::thread;
use std::time::{Duration, Instant};

/// How long to wait, in milliseconds, where as many connections wait at a socket as may.
const PAUSE_MS: u64 = 10;

/// How many bytes of an answer are read at a time.
const READ_BYTES: usize = 4096;

/// After how long a connection over which nothing went is looked at before it is used again, in milliseconds.
const IDLE_MS: u64 = 100;

/// How many lines go over a connection. Of each of their bytes, at most 130, a daemon makes a read, and it makes
/// 1,048,576 for a connection.
const MOST_LINES: u32 = 4096;

/// How long to wait, in milliseconds, between two looks whether a daemon is gone.
const GONE_MS: u64 = 20;

/// A daemon behind its control socket. Lines go there by one connection as long as the daemon leaves it open, and then
/// by another. To connect and to be answered takes no longer than the limit, both together.
#[derive(Drop)]
pub struct ControlSocket<'r, 'p, R: Net + Clock> {
    rt: &'r R,
    path: &'p str,
    limit: Duration,
    // How much of the limit of the next answer was spent already.
    spent: Duration,
    stream: Option<UnixStream>,
    // How many lines went by that connection, and when the last did.
    lines: u32,
    used: Instant,
}

impl<'r, 'p, R: Net + Clock> ControlSocket<'r, 'p, R> {
    /// Connects to the daemon at this path. Each of its answers may take so many seconds, the first one less by what
    /// connecting took. Fails if nobody listens there, or lets nobody in within that time.
    pub fn open(rt: &'r R, path: &'p str, seconds: u64) -> io::Result<ControlSocket<'r, 'p, R>> {
        let limit = Duration::from_secs(seconds);
        let timer = Timer::new(rt, limit)?;
        let stream = connect(rt, path, &timer)?;
        Ok(ControlSocket {
            rt,
            path,
            limit,
            spent: timer.began.elapsed(rt)?,
            stream: Some(stream),
            lines: 0,
            used: timer.began,
        })
    }

    /// Returns the daemon at this path, each of whose answers may take as long as the limit. Nobody has looked for it
    /// yet. Fails if the system can't tell the time.
    pub fn of(rt: &'r R, path: &'p str, limit: Duration) -> io::Result<ControlSocket<'r, 'p, R>> {
        Ok(ControlSocket {
            rt,
            path,
            limit,
            spent: Duration::ZERO,
            stream: None,
            lines: 0,
            used: Instant::now(rt)?,
        })
    }

    /// A connection that is open.
    fn stream(&mut self, timer: &Timer) -> io::Result<UnixStream> {
        let idle = timer.began.duration_since(self.used);
        let is_idle = idle > Duration::from_millis(IDLE_MS);
        self.used = timer.began;
        match self.stream.take() {
            Some(stream) if self.lines < MOST_LINES && (!is_idle || is_open(&stream)) => {
                self.lines += 1;
                Ok(stream)
            }
            _ => {
                self.lines = 1;
                connect(self.rt, self.path, timer)
            }
        }
    }

    /// Sends a line, and takes in what comes.
    fn send(&mut self, line: &[u8], timer: &Timer, answer: &mut ControlAnswer) -> io::Result<()> {
        let stream = self.stream(timer)?;
        // Who took no more of the line may have answered all the same.
        let _is_sent = (&stream).write_all(line);
        if !line.ends_with(b"\n") {
            let _is_shut = stream.shutdown(Shutdown::Write);
        }
        let is_limited = take_answer(self.rt, &stream, timer, answer)?;
        if !is_limited {
            stream.set_read_timeout(Some(self.limit))?;
        }
        // Behind some refusals a daemon closes the connection.
        if !is_refusal(answer.as_slice()) {
            self.stream = Some(stream);
        }
        Ok(())
    }

    /// Sends a line, and takes in what comes. A `stop` behind which the connection ends without a word, and the daemon
    /// too, came while the daemon stopped: it counts as answered.
    fn send_or_see(&mut self, line: &[u8], answer: &mut ControlAnswer) -> io::Result<()> {
        let timer = Timer::new(self.rt, self.limit.saturating_sub(self.spent))?;
        self.spent = Duration::ZERO;
        let Err(fault) = self.send(line, &timer, answer) else {
            return Ok(());
        };
        let is_silent = answer.is_empty() && is_ended(fault.kind());
        if is_stop(line) && is_silent && self.is_gone(&timer) {
            return add(answer, STOPPING);
        }
        Err(fault)
    }

    /// Whether nobody listens at the path any more, or soon, as long as the timer runs.
    fn is_gone(&self, timer: &Timer) -> bool {
        for _look in 0..u64::MAX {
            match mio::net::UnixStream::connect(self.rt, self.path) {
                Err(fault) if !is_passing(fault.kind()) => return is_absence(fault.kind()),
                _ => {}
            }
            if timer.left(self.rt).is_err() {
                return false;
            }
            thread::sleep(self.rt, Duration::from_millis(GONE_MS));
        }
        false
    }

    /// Waits for the end of the connection that was made last.
    fn wait(&mut self) -> io::Result<()> {
        let timer = Timer::new(self.rt, self.limit)?;
        let Some(stream) = self.stream.take() else {
            return Ok(());
        };
        let mut bytes = [0; READ_BYTES];
        for _read in 0..u64::MAX {
            if read_some(self.rt, &stream, &timer, &mut bytes)? == 0 {
                break;
            }
        }
        Ok(())
    }
}

impl<'r, 'p, R: Net + Clock> Asker for ControlSocket<'r, 'p, R> {
    ghost asked = { λ s. None };

    fn ask(&mut self, line: &[u8], answer: &mut ControlAnswer) -> Came {
        answer.clear();
        let came = came_of(self.send_or_see(line, answer));
        match came {
            Came::Answer if !is_answer_to(line, answer.as_slice()) => Came::Nothing,
            _ => came,
        }
    }

    fn leave(&mut self) -> Came {
        match came_of(self.wait()) {
            // A connection that is broken is closed too.
            Came::Nothing => Came::Answer,
            came => came,
        }
    }
}

/// Whether the other end of a connection is open, and nothing lies there that was not asked.
fn is_open(stream: &UnixStream) -> bool {
    let mut bytes = [0; 1];
    let mut reader = stream;
    stream.set_nonblocking(true).is_ok()
        && reader
            .read(&mut bytes)
            .is_err_and(|fault| fault.kind() == ErrorKind::WouldBlock)
        && stream.set_nonblocking(false).is_ok()
}

/// What came, where the system says so.
fn came_of(taken: io::Result<()>) -> Came {
    match taken {
        Ok(()) => Came::Answer,
        Err(fault) if fault.kind() == ErrorKind::TimedOut => Came::Late,
        Err(_) => Came::Nothing,
    }
}

/// Connects to the socket at a path. While as many connections wait there as may, it waits too.
fn connect<R: Net + Clock>(rt: &R, path: &str, timer: &Timer) -> io::Result<UnixStream> {
    for _try in 0..u64::MAX {
        match mio::net::UnixStream::connect(rt, path) {
            Ok(stream) => {
                let stream = UnixStream::from(OwnedFd::from(stream));
                stream.set_nonblocking(false)?;
                let left = timer.left(rt)?;
                stream.set_write_timeout(Some(left))?;
                stream.set_read_timeout(Some(left))?;
                return Ok(stream);
            }
            Err(fault) if is_passing(fault.kind()) => {
                timer.left(rt)?;
                thread::sleep(rt, Duration::from_millis(PAUSE_MS));
            }
            Err(fault) => return Err(fault),
        }
    }
    Err(io::Error::from(ErrorKind::TimedOut))
}

/// Takes in an answer, up to its end. Whether the stream still waits for as long as the limit: to a first read it
/// serves, and others may take what is left.
fn take_answer<R: Clock>(
    rt: &R,
    mut stream: &UnixStream,
    timer: &Timer,
    answer: &mut ControlAnswer,
) -> io::Result<bool> {
    let mut bytes = [0; READ_BYTES];
    let mut read = stream.read(&mut bytes);
    for turn in 0..u64::MAX {
        match read {
            Ok(count) if count > 0 => add(answer, &bytes[..count.min(READ_BYTES)])?,
            Err(fault) if is_passing(fault.kind()) => {}
            Ok(_) => return Err(io::Error::from(ErrorKind::UnexpectedEof)),
            Err(fault) => return Err(fault),
        }
        if is_answer(answer.as_slice()) {
            return Ok(turn == 0);
        }
        read = read_some(rt, stream, timer, &mut bytes);
    }
    Err(io::Error::from(ErrorKind::TimedOut))
}

/// Adds what came of an answer. More than an answer may have is none.
fn add(answer: &mut ControlAnswer, part: &[u8]) -> io::Result<()> {
    match answer.try_extend_from_slice(part) {
        Ok(()) => Ok(()),
        Err(_) => Err(io::Error::from(ErrorKind::InvalidData)),
    }
}

/// Reads what comes, and waits for it as long as the timer runs. No byte comes at the end of the connection.
fn read_some<R: Clock>(
    rt: &R,
    mut stream: &UnixStream,
    timer: &Timer,
    bytes: &mut [u8],
) -> io::Result<usize> {
    for _try in 0..u64::MAX {
        stream.set_read_timeout(Some(timer.left(rt)?))?;
        match stream.read(bytes) {
            Err(fault) if is_passing(fault.kind()) => {}
            read => return read,
        }
    }
    Err(io::Error::from(ErrorKind::TimedOut))
}

/// Whether what failed so may be tried again.
fn is_passing(kind: ErrorKind) -> bool {
    matches!(kind, ErrorKind::WouldBlock | ErrorKind::Interrupted)
}

/// Whether what failed so says that the other end closed the connection.
fn is_ended(kind: ErrorKind) -> bool {
    matches!(
        kind,
        ErrorKind::UnexpectedEof | ErrorKind::ConnectionReset | ErrorKind::BrokenPipe
    )
}

/// Whether a connection that failed so says that nobody listens.
fn is_absence(kind: ErrorKind) -> bool {
    matches!(kind, ErrorKind::ConnectionRefused | ErrorKind::NotFound)
}

/// How long something may still take.
#[derive(Drop)]
struct Timer {
    began: Instant,
    limit: Duration,
}

impl Timer {
    /// From now on, so long.
    fn new<R: Clock>(rt: &R, limit: Duration) -> io::Result<Timer> {
        let began = Instant::now(rt)?;
        Ok(Timer { began, limit })
    }

    /// The time that is left. Where none is, it has timed out.
    fn left<R: Clock>(&self, rt: &R) -> io::Result<Duration> {
        let left = self.limit.saturating_sub(self.began.elapsed(rt)?);
        if left.is_zero() {
            return Err(io::Error::from(ErrorKind::TimedOut));
        }
        Ok(left)
    }
}
