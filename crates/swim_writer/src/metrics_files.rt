//! The file where metrics are told.

ghost use Rattle.std.specs.Prelude.{◌≡◌, ◌∷◌, [], IfOk, MatchResult, Some, map};
ghost use Rattle.swim_metrics.specs.Texts.{exposition_text};
ghost use Rattle.swim_trail.specs.Growing.{Grows};
ghost use Rattle.swim_writer.specs.Documents.{document, document_in};

use crate::new_files::{GivenText, NewFile};
use arrayvec::ArrayString;
use std::fs;
use std::fs::{File, Permissions};
use std::io::{self, ErrorKind, Read, Write};
use std::os::unix::fs::PermissionsExt;
use std::rt::Files;
use swim_disk::{is_file, make_file};
use swim_metrics::{Measures, Outside, put_exposition};
use swim_text::Sink;
use swim_trail::Trail;

/// The mode of the file: its owner may write it, and all may read it.
const FOR_ALL_TO_READ: u32 = 0o644;

/// How many bytes the path of the new file has at most.
const PATH_BYTES: usize = 128;

/// What a new file is called, behind the path of the old one, until it is whole.
const NEW: &str = ".new";

/// How a metrics file begins.
const HEAD: &[u8] = b"# HELP swimd_";

/// How many bytes that is.
const HEAD_BYTES: usize = 13;

const _: () = prove!(HEAD.len() == HEAD_BYTES);

/// Why metrics weren't written.
#[derive(Clone, Copy, Debug, PartialEq, Eq)]
pub enum Unwritten {
    /// What lies at the path is no metrics file.
    Kept,
    /// The system refused it.
    Refused(ErrorKind),
}

/// The metrics files of a daemon. A contract sees those that were written whole and took the place at their paths, the
/// oldest first.
#[derive(Drop)]
pub struct MetricsFiles<'r, R> {
    rt: &'r R,
    whole: Trail<GivenText>,
}

impl<'r, R: Files<File = File>> MetricsFiles<'r, R> {
    /// None was written yet.
    pub fn new(rt: &'r R) -> MetricsFiles<'r, R>
        ensures { result.whole.items ≡ [] }
    {
        MetricsFiles {
            rt,
            whole: Trail::new(),
        }
    }

    /// Writes the metrics file of that path anew, beside it, and then renames it to it, so that nobody reads half of
    /// it. It takes the place of nothing but a metrics file, by whatever name the path calls what lies there.
    pub fn write(
        &mut self,
        path: &str,
        measures: &Measures,
        outside: &Outside<'_>,
    ) -> Result<(), Unwritten>
        ensures { MatchResult result
            (λ done. Grows (Some (map document_in self.old.whole.items)) (Some (map document_in self.new.whole.items))
            (document path.now (exposition_text measures.now outside.now) ∷ []))
            (λ why. self.new.whole.items ≡ self.old.whole.items) }
    {
        if !is_free(self.rt, path) && !is_of_metrics(self.rt, path) {
            return Err(Unwritten::Kept);
        }
        match replace(self.rt, path, measures, outside) {
            Ok(text) => {
                self.whole.note(&text, path.as_bytes());
                Ok(())
            }
            Err(kind) => Err(Unwritten::Refused(kind)),
        }
    }
}

/// Writes a new file, and gives it that path. The text that it was given.
fn replace<R: Files<File = File>>(
    rt: &R,
    path: &str,
    measures: &Measures,
    outside: &Outside<'_>,
) -> Result<GivenText, ErrorKind>
    ensures { IfOk result (λ text. text ≡ exposition_text measures.now outside.now) }
{
    let mut new = ArrayString::<PATH_BYTES>::new();
    for part in [path, NEW] {
        if new.try_push_str(part).is_err() {
            return Err(ErrorKind::InvalidFilename);
        }
    }
    let file = make(rt, new.as_str()).map_err(|fault| fault.kind())?;
    let mut sink = NewFile::of(&file);
    if !put_exposition(&mut sink, measures, outside) || !sink.flush() {
        return Err(why_unwritten(&file));
    }
    fs::rename(rt, new.as_str(), path).map_err(|fault| fault.kind())?;
    Ok(sink.into_text())
}

/// Makes a file for all to read, whatever the mask of the daemon says: whoever collects metrics is another user. A
/// metrics file that was left at its path goes before. Anything else stays there, and no file is made: by a link what is
/// written would go elsewhere, and at a pipe it would wait for a reader.
fn make<R: Files<File = File>>(rt: &R, path: &str) -> io::Result<File> {
    if is_of_metrics(rt, path) {
        rt.remove_file(path)?;
    }
    let file = make_file(rt, path, FOR_ALL_TO_READ)?;
    file.set_permissions(Permissions::from_mode(FOR_ALL_TO_READ))?;
    Ok(file)
}

/// Whether nothing lies at a path, as far as the system tells.
fn is_free<R: Files>(rt: &R, path: &str) -> bool {
    rt.symlink_metadata(path).is_err()
}

/// Whether a metrics file lies at a path, or a front of one.
fn is_of_metrics<R: Files<File = File>>(rt: &R, path: &str) -> bool {
    if !is_file(rt, path) {
        return false;
    }
    let Ok(mut file) = fs::open(rt, path) else {
        return false;
    };
    let mut bytes = [0; HEAD_BYTES];
    match file.read(&mut bytes) {
        Ok(count) => HEAD.starts_with(&bytes[..count.min(HEAD_BYTES)]),
        Err(_) => false,
    }
}

/// Why the system takes nothing of a file: by one byte more.
fn why_unwritten(mut file: &File) -> ErrorKind {
    match file.write_all(b"\n") {
        Ok(()) => ErrorKind::Other,
        Err(fault) => fault.kind(),
    }
}
