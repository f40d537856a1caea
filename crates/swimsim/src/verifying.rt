//! Journal files that are verified, one after the other.

ghost use Rattle.std.specs.Prelude.{◌≡◌, [], IfOk, map};
ghost use Rattle.std.specs.Process.{exit_status};
ghost use Rattle.swimsim.specs.Sequences.{status_of};
ghost use Rattle.swimsim.specs.Sightings.{AreExamined, Examines, Sees, played_in, sighting_in};

use crate::files::play;
use anyhow::Result;
use std::fmt;
use std::io::{self, ErrorKind};
use std::process::ExitCode;
use swim_evidence::{Link, Seen, Sequence, Standing, Verdict};
use swim_trail::{Remembered, Trail};
use swim_verdicts::{Closing, Extent, FileEnd, JsonReport, Objection, Played, Report};

/// Who plays journal files, and tells what they come to.
pub trait Examiner {
    ghost use Rattle.std.specs.Prelude.{List};
    ghost use Rattle.swimsim.specs.Sightings.{Sighting};

    // the files that it examined so far, oldest first
    ghost examined: { Self → List Sighting };

    /// Plays the file of that path, and answers what is seen of it.
    fn examine(&mut self, path: &str) -> Seen
        ensures { Examines (examined self.old) path.now result (examined self.new) };

    /// Tells what the file that was played last comes to, which is that of this path, and how it stands to the one
    /// before it. `Err` where that can't be written.
    fn tell(&mut self, path: &str, before: &str, link: Link) -> Result<()>
        ensures { examined self.new ≡ examined self.old };
}

/// Verifies journal files, which are to be lives of a daemon in their order, and answers the status with which the
/// program ends: 0 where nothing speaks against any of them; 4 where that isn't known, as memory was refused; else 1.
pub fn verify<E: Examiner>(examiner: &mut E, paths: &[&str]) -> Result<ExitCode>
    ensures { IfOk result (λ code. AreExamined (E.examined examiner.old) (map (λ path. path.now) paths.now)
        (E.examined examiner.new) (exit_status code)) }
{
    Ok(ExitCode::from(verify_each(examiner, paths)?))
}

/// The number of that status.
fn verify_each<E: Examiner>(examiner: &mut E, paths: &[&str]) -> Result<u8>
    ensures { IfOk result (λ status. AreExamined (E.examined examiner.old) (map (λ path. path.now) paths.now)
        (E.examined examiner.new) status) }
{
    let mut sequence = Sequence::new();
    let mut before = "";
    for path in paths {
        let seen = examiner.examine(path);
        let link = sequence.add(seen);
        examiner.tell(path, before, link)?;
        before = *path;
    }
    Ok(status_of(sequence.standing()))
}

/// The status with which the program ends.
pub fn status_of(standing: Standing) -> u8
    ensures { result ≡ status_of standing }
{
    match standing {
        Standing::Sound => 0,
        Standing::Starved => 4,
        Standing::Accused => 1,
    }
}

/// A file that was examined, which the proofs alone know: what was played of it, and what was seen.
#[derive(Drop)]
struct Look {
    played: Remembered<io::Result<Played>>,
    seen: Remembered<Seen>,
}

/// Who plays files of the system. A contract sees which it examined, as `play` answered it.
#[derive(Drop)]
pub struct FileExaminer<'r> {
    rt: &'r HostRuntime,
    /// The file that was played last, or why it can't be read.
    played: Option<io::Result<Played>>,
    examined: Trail<Look>,
    /// Whether what files come to is told as JSON.
    is_json: bool,
}

impl<'r> FileExaminer<'r> {
    /// It has examined nothing yet.
    pub fn new(rt: &'r HostRuntime, is_json: bool) -> FileExaminer<'r>
        ensures { result.examined.items ≡ [] }
    {
        FileExaminer {
            rt,
            is_json,
            played: None,
            examined: Trail::new(),
        }
    }
}

/// What is seen of a file that was played, or can't be read.
fn seen_of(played: &io::Result<Played>) -> Seen
    ensures { Sees (played_in played.now) result }
{
    match played {
        Ok(played) => played.seen(),
        Err(error) if error.kind() == ErrorKind::OutOfMemory => Seen::unread(Standing::Starved),
        Err(_) => Seen::unread(Standing::Accused),
    }
}

impl<'r> Examiner for FileExaminer<'r> {
    ghost examined = { λ e. map sighting_in e.examined.items };

    fn examine(&mut self, path: &str) -> Seen {
        let played = play(self.rt, path);
        let seen = seen_of(&played);
        let look = Look {
            played: Remembered::of(&played),
            seen: Remembered::of(&seen),
        };
        self.examined.note(&look, path.as_bytes());
        self.played = Some(played);
        seen
    }

    fn tell(&mut self, path: &str, before: &str, link: Link) -> Result<()> {
        let is_new_start = link == Link::NewStart;
        if is_new_start && !self.is_json {
            println!(self.rt; "{path}: a new start")?;
        }
        match self.played.take() {
            Some(Ok(played)) => {
                if self.is_json {
                    tell_objects(self.rt, path, &played, is_new_start)?;
                } else {
                    tell_report(self.rt, path, &played, Extent::Evidence)?;
                }
                tell_objection(self.rt, path, &played);
            }
            Some(Err(error)) => tell_unread(self.rt, path, &error),
            None => {}
        }
        tell_link(self.rt, path, before, link);
        Ok(())
    }
}

/// Tells the same as `tell_report` does of a file and its evidence, as JSON.
fn tell_objects(rt: &HostRuntime, path: &str, played: &Played, is_new_start: bool) -> Result<()> {
    if played.witness.end == FileEnd::Foreign {
        return Ok(());
    }
    if let Some(report) = JsonReport::of(path, played, is_new_start) {
        print!(rt; "{report}")?;
    }
    Ok(())
}

/// Tells what a file comes to that was played, as far as it is a journal file.
pub fn tell_report(rt: &HostRuntime, path: &str, played: &Played, extent: Extent) -> Result<()> {
    if played.witness.end == FileEnd::Foreign {
        return Ok(());
    }
    if let Some(report) = Report::of(path, played, extent) {
        let verdict = played.verdict();
        let confirmed = played.witness.confirmations.confirmed;
        let closing = Closing { verdict, confirmed };
        print!(rt; "{report}{closing}")?;
    }
    Ok(())
}

/// Tells what speaks against a file that was played, if anything does.
pub fn tell_objection(rt: &HostRuntime, path: &str, played: &Played) {
    if played.witness.end == FileEnd::Foreign {
        let what = "it is no journal file: its first line isn't `journal 1`";
        object(rt, path, what);
        return;
    }
    let verdict = played.verdict();
    let confirmed = played.witness.confirmations.confirmed;
    match verdict {
        Verdict::Whole | Verdict::Cut => {}
        Verdict::Missed(_) | Verdict::Faulty(_) | Verdict::Starved => {
            object(rt, path, Objection { verdict, confirmed });
        }
    }
}

/// Tells why a file can't be read.
pub fn tell_unread(rt: &HostRuntime, path: &str, error: &io::Error) {
    if error.kind() == ErrorKind::OutOfMemory {
        object(rt, path, "no memory before entry 0");
    } else {
        object(rt, path, format_args!("{error}"));
    }
}

/// Tells where a file doesn't stand behind the one before it.
fn tell_link(rt: &HostRuntime, path: &str, before: &str, link: Link) {
    match link {
        Link::First | Link::NewStart | Link::Follows | Link::Untold => {}
        Link::Breaks(met) => {
            object(rt, path, format_args!("does not follow {before}: {met}"));
        }
        Link::Unknown => {
            let what = format_args!(
                "does not follow {before}: what {before} left isn't known, as it isn't whole"
            );
            object(rt, path, what);
        }
    }
}

/// Tells what is to be said of a file.
pub fn object<T: fmt::Display + Drop>(rt: &HostRuntime, path: &str, what: T) {
    let _ = eprintln!(rt; "swimsim: {path}: {what}");
}
