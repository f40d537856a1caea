//! The failure detector of one group member: its daemon (`run`), a look at a configuration (`check`, or no command),
//! questions to a daemon that runs (`ask`, `watch`, `web`), and new keys (`key`).
#![tactic(auto)]

ghost use Rattle.std.specs.Prelude.{◌≡◌};

mod commands;
mod daemon;

use commands::given::{take_given, words_in};
use commands::program_commands::{self, Streams};
use commands::stacks::begin_on_own_stack;
use std::alloc::Global;
use std::fs::File;
use std::io::{IsTerminal, Write};
use std::net::Net;
use std::process::ExitCode;
use std::random::RandomSource;
use std::rt::{Clock, Files};
use std::sync::{Arc, Wait};
use std::thread::{JoinHandle, Threads};
use swim_checks::{Documents, SystemDocuments};
use swim_commands::Surroundings;
use swim_config::ConfigFault;
use swim_outcomes::{Details, Outcome, tell_outcome};
use swim_reports::{Clerk, Desks, Log};
use swim_streams::{
    DeskStream, STANDARD_ERROR, STANDARD_OUTPUT, ScreenSink, StreamDesk, StreamDesks, StreamDoor,
    TEXT_BYTES, Timely, TimelySink, shared,
};
use swim_text::{ReadSource, Sink, Source, WriteSink};
use swim_writer::serve_disk;

/// The program runs in a thread with a stack of its own. This one writes journal files meanwhile, others the metrics
/// and those standard streams that are files, as they alone may wait for their disks.
fn main(rt: HostRuntime) -> ExitCode {
    let Some((desks, theirs, written)) = desks(rt.alloc()) else {
        return ExitCode::from(tell_no_memory(&mut WriteSink::new(rt.stderr())));
    };
    let streams = StreamDesks::new(&rt, rt.alloc());
    let told = streams.shared();
    let program = begin_on_own_stack(&rt, move || {
        let status = run_program(&rt, rt, &theirs, &told);
        theirs.close(&rt);
        status
    });
    let status = match program {
        Ok(program) => {
            let metrics = begin_on_own_stack(&rt, move || written.metrics.write_on(&rt));
            if metrics.is_err() {
                desks.metrics.close(&rt);
            }
            let output = begin_writer(rt, rt.alloc(), &streams.output, rt.stdout());
            let error = begin_writer(rt, rt.alloc(), &streams.error, rt.stderr());
            serve_disk(&rt, rt.alloc(), &*desks.journals);
            if let Ok(metrics) = metrics {
                metrics.join(&rt);
            }
            let status = program.join(&rt);
            streams.close(&rt);
            end_writer(&rt, output);
            end_writer(&rt, error);
            status
        }
        Err(_) => tell_no_memory(&mut WriteSink::new(rt.stderr())),
    };
    ExitCode::from(status)
}

/// Begins the thread that writes what is laid on a desk, if there is one. `None` where it can't be had: then nothing is
/// laid there.
fn begin_writer<R: Threads + Wait + Copy + Send + Drop + 'static, W: Write + Send + Drop + 'static>(
    rt: R,
    alloc: Global,
    desk: &Option<Arc<StreamDesk, Global>>,
    stream: W,
) -> Option<JoinHandle<()>> {
    let theirs = shared(desk)?;
    let page = Vec::with_capacity(alloc, TEXT_BYTES).ok()?;
    begin_on_own_stack(&rt, move || theirs.write_on(&rt, page, stream)).ok()
}

/// Waits until all is written that was laid on a desk which is closed.
fn end_writer<R: Threads + Wait>(rt: &R, writer: Option<JoinHandle<()>>) {
    if let Some(writer) = writer {
        writer.join(rt);
    }
}

/// Does what the words after the program's name ask, over the host's streams and these desks. The status with which the
/// program ends.
fn run_program<R: Files<File = File> + Net + Clock + RandomSource + Threads + Wait + Sync>(
    rt: &R,
    host: HostRuntime,
    desks: &Desks,
    told: &StreamDesks,
) -> u8 {
    let alloc = host.alloc();
    let mut reader = ReadSource::new(host.stdin());
    let is_terminal = host.stdout().is_terminal();
    let (output, error) = (StreamDoor::new(&told.output), StreamDoor::new(&told.error));
    let screen = WriteSink::new(DeskStream::new(rt, output, host.stdout()));
    let screen = ScreenSink::new(screen, is_terminal);
    let mut writer = TimelySink::new(rt, alloc, STANDARD_OUTPUT, output, screen);
    let lines = WriteSink::new(DeskStream::new(rt, error, host.stderr()));
    let mut faults = TimelySink::new(rt, alloc, STANDARD_ERROR, error, lines);
    let log = WriteSink::new(DeskStream::new(rt, error, host.stderr()));
    let log = Log::new(log, desks);
    let mut documents = SystemDocuments::new(rt);
    let mut details = Details::new();
    match take_given(&host, &mut details) {
        Ok(given) => {
            let mut streams = Streams {
                reader: &mut reader,
                documents: &mut documents,
                writer: &mut writer,
                faults: &mut faults,
            };
            let around = given.surroundings(host.stdin().is_terminal(), is_terminal);
            run_words(rt, alloc, given.texts(), around, &mut streams, log)
        }
        Err(outcome) => tell_outcome(outcome, &details, &mut faults),
    }
}

/// The desks, for this thread, for the program's, and for that of the metrics. `None` where memory is refused.
fn desks(alloc: Global) -> Option<(Desks, Desks, Desks)> {
    let ours = Desks::new(alloc).ok()?;
    let theirs = ours.shared().ok()?;
    let written = ours.shared().ok()?;
    Some((ours, theirs, written))
}

/// Does what the words of these texts ask in these surroundings. The status with which the program ends.
fn run_words<
    'a,
    R: Files<File = File> + Net + Clock + RandomSource + Threads + Wait + Sync,
    S: Source,
    X: Documents,
    W: Timely,
    F: Timely,
    G: Sink + Clerk + Drop,
>(
    rt: &R,
    alloc: Global,
    texts: &'a [String],
    around: Surroundings<'a>,
    streams: &mut Streams<'_, '_, '_, '_, S, X, W, F>,
    log: G,
) -> u8
    ensures { (streams.new.reader.ghost_name ≡ streams.old.reader.ghost_name)
        × (streams.new.documents.ghost_name ≡ streams.old.documents.ghost_name)
        × (streams.new.writer.ghost_name ≡ streams.old.writer.ghost_name)
        × (streams.new.faults.ghost_name ≡ streams.old.faults.ghost_name) }
{
    match words_in(alloc, texts) {
        Ok(words) => program_commands::command(rt, alloc, words.as_slice(), around, streams, log),
        Err(_) => tell_no_memory(streams.faults),
    }
}

/// Tells that memory was refused before the words were read.
fn tell_no_memory<F: Sink>(faults: &mut F) -> u8 {
    tell_outcome(
        Outcome::Refused(ConfigFault::NoMemory),
        &Details::new(),
        faults,
    )
}
