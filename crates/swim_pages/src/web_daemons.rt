//! A daemon that `web` asks.

ghost use Rattle.std.specs.Prelude.{None};

use std::io;
use std::net::Net;
use std::rt::Clock;
use std::time::Duration;
use swim_commands::{Asker, Came, ControlSocket};
use swim_web::{Answer, Daemon, Question};

/// How many seconds an answer may take. Whoever asks for a page waits as long.
const SECONDS: u64 = 1;

/// A daemon behind its control socket.
#[derive(Drop)]
pub struct SocketDaemon<'r, 'p, R: Net + Clock> {
    socket: ControlSocket<'r, 'p, R>,
}

impl<'r, 'p, R: Net + Clock> SocketDaemon<'r, 'p, R> {
    /// Returns the daemon at this path, for whom nobody has looked yet. Fails if the system can't tell the time.
    pub fn of(rt: &'r R, path: &'p str) -> io::Result<SocketDaemon<'r, 'p, R>> {
        let socket = ControlSocket::of(rt, path, Duration::from_secs(SECONDS))?;
        Ok(SocketDaemon { socket })
    }
}

impl<'r, 'p, R: Net + Clock> Daemon for SocketDaemon<'r, 'p, R> {
    ghost asked = { λ s. None };

    fn ask(&mut self, question: Question, answer: &mut Answer) -> bool {
        matches!(self.socket.ask(question.line(), answer), Came::Answer)
    }
}
