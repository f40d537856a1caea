//! The commands of the program, with its standard streams handed in.

ghost use Rattle.std.specs.Prelude.{◌≡◌, [], codes, map, option_map};
ghost use Rattle.swim_checks.specs.Texts.{Helps};
ghost use Rattle.swimd.specs.Commands.{AsksWanted, Carried, Commanded};
ghost use Rattle.swim_outcomes.specs.Details.{Explains};
ghost use Rattle.swim_commands.specs.Words.{IsAsked, around_of};

use crate::commands::web::serve_web;
use crate::daemon::{Launch, run};
use std::alloc::Global;
use std::fs::File;
use std::net::Net;
use std::random::RandomSource;
use std::rt::{Clock, Files};
use std::sync::Wait;
use std::thread::Threads;
use swim_checks::{Documents, check_file, check_typed, help, make_key};
use swim_commands::{
    Asked, Request, Surroundings, Unasked, ask_daemon, explain_words, read_words, watch_daemon,
};
use swim_config::ConfigFault;
use swim_outcomes::{Details, Outcome, VERSION_LINE, tell_outcome};
use swim_reports::Clerk;
use swim_streams::Timely;
use swim_text::{ReadSource, Sink, Source};

/// The streams of a command: standard input, files by their paths, standard output and standard error.
#[derive(Drop)]
pub struct Streams<'s, 'x, 'w, 'f, S, X, W, F> {
    pub reader: &'s mut S,
    pub documents: &'x mut X,
    pub writer: &'w mut W,
    pub faults: &'f mut F,
}

/// Does what the words after the program's name ask in these surroundings, and answers the status with which the
/// program ends. The log is where a daemon's worker tells people what it threw away: a sink of its own, as those who
/// tell the faults hold theirs. A daemon has the writer and the faults wait for no reader.
pub fn command<
    'a,
    R: Files<File = File> + Net + Clock + RandomSource + Threads + Wait + Sync,
    S: Source,
    X: Documents,
    W: Timely,
    F: Timely,
    G: Sink + Clerk + Drop,
>(
    rt: &R,
    alloc: Global,
    words: &'a [&'a str],
    around: Surroundings<'a>,
    streams: &mut Streams<'_, '_, '_, '_, S, X, W, F>,
    log: G,
) -> u8
    ensures same { (streams.new.reader.ghost_name ≡ streams.old.reader.ghost_name)
        × (streams.new.documents.ghost_name ≡ streams.old.documents.ghost_name)
        × (streams.new.writer.ghost_name ≡ streams.old.writer.ghost_name)
        × (streams.new.faults.ghost_name ≡ streams.old.faults.ghost_name) }
    ensures commanded { Commanded (IsAsked (around_of around.entry) (map (λ word. word.now) words.now))
        (record {
          left = S.left streams.old.reader.now;
          read = X.read streams.old.documents.now;
          written = (W.written streams.old.writer.now, W.failures streams.old.writer.now);
          faults = (F.written streams.old.faults.now, F.failures streams.old.faults.now);
        })
        (record {
          left = S.left streams.new.reader.now;
          read = X.read streams.new.documents.now;
          written = (W.written streams.new.writer.now, W.failures streams.new.writer.now);
          faults = (F.written streams.new.faults.now, F.failures streams.new.faults.now);
        }) result }
{
    let mut details = Details::new();
    let outcome = carry_out(rt, alloc, words, around, streams, log, &mut details);
    tell_outcome(outcome, &details, streams.faults)
}

/// Does what the words ask, and answers how it ended.
#[tactic(auto, using(crate::proofs::Done::wanted_done, crate::proofs::Explained::asked_explains, crate::proofs::Explained::helped_explains, crate::proofs::Explained::made_explains))]
fn carry_out<
    'a,
    R: Files<File = File> + Net + Clock + RandomSource + Threads + Wait + Sync,
    S: Source,
    X: Documents,
    W: Timely,
    F: Timely,
    G: Sink + Clerk + Drop,
>(
    rt: &R,
    alloc: Global,
    words: &'a [&'a str],
    around: Surroundings<'a>,
    streams: &mut Streams<'_, '_, '_, '_, S, X, W, F>,
    log: G,
    details: &mut Details,
) -> Outcome
    requires { details.old ≡ [] }
    ensures same { (streams.new.reader.ghost_name ≡ streams.old.reader.ghost_name)
        × (streams.new.documents.ghost_name ≡ streams.old.documents.ghost_name)
        × (streams.new.writer.ghost_name ≡ streams.old.writer.ghost_name)
        × (streams.new.faults.ghost_name ≡ streams.old.faults.ghost_name) }
    ensures done { Carried (IsAsked (around_of around.entry) (map (λ word. word.now) words.now))
        (record {
          left = S.left streams.old.reader.now;
          read = X.read streams.old.documents.now;
          written = (W.written streams.old.writer.now, W.failures streams.old.writer.now);
          faults = (F.written streams.old.faults.now, F.failures streams.old.faults.now);
        })
        (record {
          left = S.left streams.new.reader.now;
          read = X.read streams.new.documents.now;
          written = (W.written streams.new.writer.now, W.failures streams.new.writer.now);
          faults = (F.written streams.new.faults.now, F.failures streams.new.faults.now);
        }) result }
    ensures explains { Explains result details.new }
{
    match read_words(alloc, words, around) {
        Ok(Asked::Check(is_prompted)) => {
            check_typed(
                alloc,
                is_prompted,
                streams.reader,
                streams.writer,
                streams.faults,
                details,
            )
        }
        Ok(Asked::CheckFile(path)) => {
            check_file(
                alloc,
                path,
                streams.documents,
                streams.writer,
                streams.faults,
                details,
            )
        }
        Ok(Asked::Run(path, is_quiet)) => {
            let mut launch = Launch {
                path,
                is_quiet,
                documents: &mut *streams.documents,
            };
            run(
                rt,
                alloc,
                &mut launch,
                streams.writer,
                streams.faults,
                log,
                details,
            )
        }
        Ok(Asked::Ask(request)) => {
            ask_for(rt, &request, streams.reader, streams.writer, details)
        }
        Ok(Asked::Watch(path, is_json)) => {
            watch_daemon(rt, alloc, path, is_json, streams.writer, details)
        }
        Ok(Asked::Web(request)) => serve_web(rt, alloc, &request, streams.faults, details),
        Ok(Asked::MakeKey) => make_key(rt, streams.writer),
        Ok(Asked::Help(text)) => help(text.as_bytes(), streams.writer),
        Ok(Asked::Version) => version(streams.writer),
        Err(Unasked::Usage) => explain_words(alloc, words, around, details),
        Err(Unasked::NoMemory) => Outcome::Refused(ConfigFault::NoMemory),
    }
}

/// Asks a daemon its line, or those of a reader.
fn ask_for<R: Net + Clock, S: Source, W: Sink>(
    rt: &R,
    request: &Request<'_>,
    reader: &mut S,
    writer: &mut W,
    details: &mut Details,
) -> Outcome
    ensures { AsksWanted request.now.form (option_map (λ line. line.items) request.now.line)
        (S.left reader.old) (S.left reader.new)
        (W.written writer.old) (W.written writer.new) result }
{
    let Request {
        path,
        line,
        seconds,
        form,
    } = request;
    match line {
        None => ask_daemon(rt, path, *seconds, *form, reader, writer, details),
        Some(line) => {
            let mut line = ReadSource::new(line.as_slice());
            ask_daemon(rt, path, *seconds, *form, &mut line, writer, details)
        }
    }
}

/// Writes the version.
fn version<W: Sink>(writer: &mut W) -> Outcome
    ensures helps { Helps (codes "swimd 1.0\n") (W.written writer.old) (W.written writer.new) result }
    ensures sent { result ≡ Outcome.Helped → W.held writer.new ≡ 0 }
{
    help(VERSION_LINE, writer)
}
