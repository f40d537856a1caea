//! The whole lines of a journal file.

ghost use Rattle.std.specs.Prelude.{◌≡◌, ◌<◌, ◌≤◌, None, false, length};
ghost use Rattle.std.specs.Io.{ReadsAtMost, StartsWith};
ghost use Rattle.std.specs.Io.KnownBytes.{Consumes};
ghost use Rattle.swim_text.specs.Lines.{has_feed};
ghost use Rattle.swim_verdicts.specs.Verifying.{end_at, is_front};
ghost use Rattle.swim_verdicts.specs.WholeLines.{EndsBy, EndsIfMet, Moves};

use crate::witness::{FileEnd, Witness};
use arrayvec::ArrayVec;
use memchr::memrchr;
use std::alloc::Global;
use std::cell::RefCell;
use std::io::{self, ErrorKind, Read};
use swim_script::{LINE_BYTES, ScriptFault};
use swim_text::{Byte, LineEnd, ReadSource, Source};

/// The first line of a journal file.
pub(crate) const MARK: &[u8; 9] = b"journal 1";

/// How many bytes of lines are held: what may stand before a line feed that wasn't read yet, and what a source reads at
/// once.
const HELD_BYTES: usize = 8192;

/// Reads a journal file, and gives its lines that have a line feed, as many at once as can be had without waiting.
/// Those that were given are noted by the witness as soon as more is wanted: they were carried out by then.
///
/// Behind a header without a call it gives a line `table`, so that the opening is looked at.
#[derive(Drop)]
pub struct WholeLines<R: Read> {
    source: ReadSource<R>,
    lines: ArrayVec<u8, HELD_BYTES>,
    given: usize,
    stage: GivingStage,
    witness: Witness,
}

/// What is being given.
#[derive(Clone, Copy)]
enum GivingStage {
    /// Nothing so far.
    Begun,
    /// Lines of the file.
    Lines,
    /// The line behind a header.
    Closing,
    /// Nothing more.
    Over,
}

impl<R: Read + Drop> WholeLines<R> {
    /// The lines of that file, of which nothing was read.
    pub fn new(alloc: Global, file: R) -> WholeLines<R> {
        WholeLines {
            source: ReadSource::new(file),
            lines: ArrayVec::new(),
            given: 0,
            stage: GivingStage::Begun,
            witness: Witness::new(alloc),
        }
    }

    /// What the lines tell that were carried out, where they were played with that outcome: those before the line of a
    /// fault.
    pub fn into_witness(self, outcome: Result<(), ScriptFault>) -> Witness {
        let WholeLines {
            lines,
            stage,
            mut witness,
            ..
        } = self;
        if let (GivingStage::Lines, Err(fault)) = (stage, outcome) {
            let before = fault.line.saturating_sub(1);
            let count = before.saturating_sub(witness.lines);
            witness.note_lines(lines.as_slice(), count as usize);
        }
        witness
    }

    /// Goes on to the next lines.
    fn advance(&mut self) -> io::Result<()> {
        let is_first = self.stage == GivingStage::Begun;
        if self.stage == GivingStage::Lines {
            self.witness.note_lines(self.lines.as_slice(), usize::MAX);
        }
        if self.stage == GivingStage::Closing {
            self.stage = GivingStage::Over;
        }
        if self.stage == GivingStage::Over {
            return Ok(());
        }
        self.given = 0;
        let met = take_lines(&mut self.source, &mut self.lines);
        let end = end_at(met, is_first, first_line(self.lines.as_slice()));
        self.witness.end = end;
        self.stage = self.stage_at(end);
        if end == FileEnd::Failed {
            return Err(io::Error::from(ErrorKind::Other));
        }
        if self.stage == GivingStage::Closing {
            self.lines.clear();
            let _fits = self.lines.try_extend_from_slice(b"table\n");
        }
        Ok(())
    }

    /// What is given next, where the file was met to end so.
    fn stage_at(&self, end: FileEnd) -> GivingStage {
        match end {
            FileEnd::Unmet => GivingStage::Lines,
            FileEnd::Whole | FileEnd::Cut if self.witness.is_in_header() => GivingStage::Closing,
            _ => GivingStage::Over,
        }
    }
}

/// Takes the lines that are ready, at least one, and answers what ended the last of them: a line feed, but for a line
/// that has none, which is then the only one.
fn take_lines<R: Source>(reader: &mut R, lines: &mut ArrayVec<u8, HELD_BYTES>) -> LineEnd
    ensures bytes { Consumes (R.left reader.old) (R.left reader.new) lines.new.items }
    ensures ends { EndsBy result lines.new.items }
{
    lines.clear();
    while lines.len() <= LINE_BYTES {
        if let Some(end) = take_part(reader, lines) {
            return end;
        }
    }
    LineEnd::Long
}

/// Takes the bytes that are ready up to the last line feed, or all of them if they have none, and answers what ended
/// the last line if anything did.
fn take_part<R: Source>(reader: &mut R, lines: &mut ArrayVec<u8, HELD_BYTES>) -> Option<LineEnd>
    requires room { length lines.old.items ≤ LINE_BYTES }
    requires unended { has_feed lines.old.items ≡ false }
    ensures bytes { Moves (R.left reader.old) (R.left reader.new) lines.old.items lines.new.items }
    ensures ends { EndsIfMet result lines.new.items }
    ensures grows { result ≡ None → length lines.old.items < length lines.new.items }
{
    if reader.ready().is_empty() {
        return take_byte(reader, lines);
    }
    let ready = reader.ready();
    let most = ready.len().min(lines.remaining_capacity());
    let (part, met) = last_ended(&ready[..most]);
    let count = part.len();
    let _fits = lines.try_extend_from_slice(part);
    reader.skip(count);
    met
}

/// The bytes up to the last line feed, which ends them, or all of them where there is none.
fn last_ended(bytes: &[u8]) -> (&[u8], Option<LineEnd>)
    ensures front { StartsWith bytes.now result.0.now }
    ensures some { 0 < length bytes.now → 0 < length result.0.now }
    ensures ends { EndsIfMet result.1 result.0.now }
{
    match memrchr(b'\n', bytes) {
        Some(last) => (&bytes[..last + 1], Some(LineEnd::Feed)),
        None => (bytes, None),
    }
}

/// Takes one byte, for which it may wait, and answers what ended the line if anything did.
fn take_byte<R: Source>(reader: &mut R, lines: &mut ArrayVec<u8, HELD_BYTES>) -> Option<LineEnd>
    requires room { length lines.old.items ≤ LINE_BYTES }
    requires unended { has_feed lines.old.items ≡ false }
    ensures bytes { Moves (R.left reader.old) (R.left reader.new) lines.old.items lines.new.items }
    ensures ends { EndsIfMet result lines.new.items }
    ensures grows { result ≡ None → length lines.old.items < length lines.new.items }
{
    match reader.byte() {
        Byte::One(byte) => {
            lines.push(byte);
            if byte == b'\n' {
                Some(LineEnd::Feed)
            } else {
                None
            }
        }
        Byte::End if lines.is_empty() => Some(LineEnd::Over),
        Byte::End => Some(LineEnd::Unended),
        Byte::Fault => Some(LineEnd::Failed),
    }
}

/// The first of some lines, without its line feed.
fn first_line(lines: &[u8]) -> &[u8] {
    match lines.iter().position(|byte| *byte == b'\n') {
        Some(end) => &lines[..end],
        None => lines,
    }
}

/// What the reading of a line tells of the file's end; `is_first` says whether it is the file's first line.
fn end_at(met: LineEnd, is_first: bool, line: &[u8]) -> FileEnd
    ensures { result ≡ end_at met is_first line.now }
{
    match met {
        LineEnd::Feed if is_first && line != MARK.as_slice() => FileEnd::Foreign,
        LineEnd::Feed => FileEnd::Unmet,
        LineEnd::Unended if is_first && !is_front(line) => FileEnd::Foreign,
        LineEnd::Unended => FileEnd::Cut,
        LineEnd::Over if is_first => FileEnd::Cut,
        LineEnd::Over => FileEnd::Whole,
        LineEnd::Long if is_first => FileEnd::Foreign,
        LineEnd::Long => FileEnd::Long,
        LineEnd::Spent | LineEnd::Failed | LineEnd::Unsent => FileEnd::Failed,
    }
}

/// Whether the first line of a journal file begins so.
fn is_front(line: &[u8]) -> bool
    ensures { result ≡ is_front line.now }
{
    let (front, _) = MARK.split_at(line.len().min(MARK.len()));
    line == front
}

impl<R: Read + Drop> Read for WholeLines<R> {
    fn read(&mut self, buf: &mut [u8]) -> io::Result<usize> {
        if buf.is_empty() {
            return Ok(0);
        }
        if self.stage == GivingStage::Begun || self.given >= self.lines.len() {
            self.advance()?;
        }
        if self.stage == GivingStage::Over {
            return Ok(0);
        }
        let count = give(self.lines.as_slice(), self.given, buf);
        self.given = self.given.saturating_add(count);
        Ok(count)
    }
}

/// Writes what comes next of some lines, as much as there is room for, and answers how many bytes those are; so many,
/// `given`, were written before.
fn give(lines: &[u8], given: usize, buf: &mut [u8]) -> usize
    ensures { result ≤ length buf.new }
{
    let rest = lines.get(given..).unwrap_or_default();
    let count = rest.len().min(buf.len());
    buf[..count].copy_from_slice(&rest[..count]);
    count
}

/// Whole lines that are read here, and whose witness is asked for afterwards.
#[derive(Drop)]
pub struct LentLines<'a, R: Read> {
    lines: &'a RefCell<WholeLines<R>>,
}

impl<'a, R: Read + Drop> LentLines<'a, R> {
    /// These lines, which nobody else reads meanwhile.
    pub fn new(lines: &'a RefCell<WholeLines<R>>) -> LentLines<'a, R> {
        LentLines { lines }
    }
}

impl<'a, R: Read + Drop> Read for LentLines<'a, R> {
    fn read(&mut self, buf: &mut [u8]) -> io::Result<usize> {
        read_lines(self.lines, buf)
    }
}

/// Reads whole lines, which nobody else reads meanwhile.
fn read_lines<R: Read + Drop>(lines: &RefCell<WholeLines<R>>, buf: &mut [u8]) -> io::Result<usize>
    ensures { ReadsAtMost result buf.new }
{
    match lines.try_borrow_mut() {
        Ok(mut lines) => lines.read(buf),
        Err(_) => Err(io::Error::from(ErrorKind::Other)),
    }
}
