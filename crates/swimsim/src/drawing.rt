//! The picture of a run, in a file.

use crate::options::Options;
use anyhow::{Error, Result, anyhow};
use std::fs::{self, File};
use std::io::{Read, Seek};
use std::process::ExitCode;
use swim_history::Journal;
use swim_text::{Sink, Words, WriteSink};
use swim_timeline::{Span, Times, View, put_timeline};

/// Where a picture may go that isn't written to a file.
const STANDARD_OUTPUT: &str = "/dev/stdout";

/// What the first two lines of a picture begin with.
const FIRST_LINE: &[u8; 39] = b"<svg xmlns=\"http://www.w3.org/2000/svg\"";

const SECOND_LINE: &[u8; 32] = b"<title id=\"title\">Run of member ";

/// What the second line of a picture of a probe begins with.
const PROBE_LINE: &[u8; 34] = b"<title id=\"title\">Probe of member ";

/// They have at most so many bytes together.
const HEAD_BYTES: usize = 512;

/// Draws the run, and these times at which its periods began, into the file that the options name, if they name one, and
/// answers this status. Where the picture can't be made, the error names the file, and the status is that of a failure.
pub fn draw_at(
    rt: &HostRuntime,
    options: &Options<'_>,
    journal: Option<&Journal>,
    times: &Times,
    code: ExitCode,
) -> ExitCode {
    let Some(path) = options.timeline else {
        return code;
    };
    match draw(rt, path, options, journal, times) {
        Ok(()) => code,
        Err(error) => {
            let _ = eprintln!(rt; "swimsim: {path}: {error}");
            ExitCode::FAILURE
        }
    }
}

fn draw(
    rt: &HostRuntime,
    path: &str,
    options: &Options<'_>,
    journal: Option<&Journal>,
    times: &Times,
) -> Result<()> {
    let Some(journal) = journal else {
        return Err(anyhow!("there is no event to be drawn"));
    };
    let Some(span) = Span::of(journal, options.view())? else {
        return Err(nothing_shown(options.view()));
    };
    let file = open_picture(rt, path, options.force)?;
    let mut writer = WriteSink::new(file);
    if put_timeline(rt.alloc(), journal, span, times, &mut writer)? && writer.flush() {
        Ok(())
    } else {
        Err(anyhow!("the picture can't be written"))
    }
}

/// Why there is nothing to be drawn of a run that has an event.
fn nothing_shown(view: View) -> Error {
    match view {
        View::Start => anyhow!("there is no event to be drawn"),
        View::From(number) => anyhow!("the run has no period {number}"),
        View::Around(member) => {
            let id = member.get();
            anyhow!("member {id} was not judged in this run")
        }
        View::At(member, number) => {
            let id = member.get();
            anyhow!("member {id} was not judged in period {number} of this run")
        }
    }
}

/// Opens the file for a picture. It is refused where something else than a file stands, and where what it holds would
/// be lost, unless that is forced.
pub fn open_picture(rt: &HostRuntime, path: &str, is_forced: bool) -> Result<File> {
    if !is_drawn_at(rt, path) {
        return Err(anyhow!("it is no file: a picture is written to a file, or to /dev/stdout"));
    }
    if is_forced {
        Ok(File::create(rt, path)?)
    } else {
        open_unless_lost(rt, path)
    }
}

/// Whether a picture is written to that path: where nothing else than a file stands there. It is looked at before
/// anything is opened, since a pipe may have no reader, and a device may do something of its own.
fn is_drawn_at(rt: &HostRuntime, path: &str) -> bool {
    match fs::metadata(rt, path) {
        Ok(found) => found.is_file() || path == STANDARD_OUTPUT,
        // Nothing stands there, or why it can't be looked at is told as it is opened.
        Err(_) => true,
    }
}

/// Opens the file for a picture, unless what it holds would be lost.
fn open_unless_lost(rt: &HostRuntime, path: &str) -> Result<File> {
    let mut options = File::options();
    options.read(true).write(true).create(true);
    let mut file = options.open(rt, path)?;
    if !make_empty(&mut file)? {
        return Err(anyhow!(
            "it holds something else than a picture of swimsim: --force writes over it"
        ));
    }
    Ok(file)
}

/// Makes the file empty, and answers whether it is to be written: not where it holds something else than a picture,
/// which stays as it is. Standard output may be none that can be made empty.
fn make_empty(file: &mut File) -> Result<bool> {
    let found = file.metadata()?;
    if !found.is_file() || found.len() == 0 {
        return Ok(true);
    }
    let mut head = [0; HEAD_BYTES];
    let count = file.read(&mut head)?;
    if !is_picture(head.get(..count).unwrap_or_default()) {
        return Ok(false);
    }
    file.set_len(0)?;
    file.rewind()?;
    Ok(true)
}

/// Whether a file that begins so has a picture of a run or of a probe.
fn is_picture(head: &[u8]) -> bool {
    let mut lines = Words::split(head, b'\n');
    match (lines.next(), lines.next()) {
        (Some(first), Some(second)) => {
            first.starts_with(FIRST_LINE)
                && (second.starts_with(SECOND_LINE) || second.starts_with(PROBE_LINE))
        }
        _ => false,
    }
}
