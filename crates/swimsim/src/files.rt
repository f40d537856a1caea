//! What a script is read from.

ghost use Rattle.std.specs.Io.{ReadsAtMost};

use crate::notes::NoteTaker;
use crate::overhearing::Overheard;
use std::cell::RefCell;
use std::fs::File;
use std::io::{self, ErrorKind, Read, Stdin};
use swim_text::{Byte, ReadSource, Source};
use swim_verdicts::{Played, TimeTaker};

/// Where a script lies.
#[derive(Drop)]
pub enum Script {
    Standard(Stdin),
    File(File),
}

impl Read for Script {
    fn read(&mut self, buf: &mut [u8]) -> io::Result<usize> {
        match self {
            Script::Standard(input) => input.read(buf),
            Script::File(file) => file.read(buf),
        }
    }
}

/// Opens the file of a script. A folder is refused at once, since nothing can be read from it.
pub fn open(rt: &HostRuntime, path: &str) -> io::Result<File> {
    let file = File::open(rt, path)?;
    if file.metadata()?.is_dir() {
        return Err(io::Error::from(ErrorKind::IsADirectory));
    }
    Ok(file)
}

/// Plays the journal file of that path; `-` is standard input.
pub fn play(rt: &HostRuntime, path: &str) -> io::Result<Played> {
    let script = if path == "-" {
        Script::Standard(rt.stdin())
    } else {
        Script::File(open(rt, path)?)
    };
    Ok(swim_verdicts::play(rt.alloc(), script))
}

/// A script, of which the times are noted that it tells, if somebody wants them.
#[derive(Drop)]
pub struct TimedScript<'a> {
    pub script: Script,
    pub times: Option<&'a RefCell<TimeTaker>>,
}

impl<'a> Read for TimedScript<'a> {
    fn read(&mut self, buf: &mut [u8]) -> io::Result<usize> {
        let count = self.script.read(buf)?;
        if let Some(times) = self.times {
            note_times(times, buf.get(..count).unwrap_or_default());
        }
        Ok(count)
    }
}

/// Notes the times that these bytes tell, which nobody else notes meanwhile.
fn note_times(times: &RefCell<TimeTaker>, bytes: &[u8]) {
    if let Ok(mut times) = times.try_borrow_mut() {
        times.note(bytes);
    }
}

/// A script, as it lies there, or byte by byte with notes of its lines.
#[derive(Drop)]
pub enum Input<'a> {
    Plain(TimedScript<'a>),
    Overheard(Overheard<ReadSource<TimedScript<'a>>, NoteTaker<'a>>),
}

impl<'a> Read for Input<'a> {
    fn read(&mut self, buf: &mut [u8]) -> io::Result<usize> {
        match self {
            Input::Plain(script) => script.read(buf),
            Input::Overheard(script) => read_byte(script, buf),
        }
    }
}

/// Reads one byte, so that what was answered is handed on before the next is heard.
fn read_byte<R: Source>(script: &mut R, buf: &mut [u8]) -> io::Result<usize>
    ensures { ReadsAtMost result buf.new }
{
    if buf.is_empty() {
        return Ok(0);
    }
    match script.byte() {
        Byte::One(byte) => {
            buf[0] = byte;
            Ok(1)
        }
        Byte::End => Ok(0),
        Byte::Fault => Err(io::Error::from(ErrorKind::Other)),
    }
}
