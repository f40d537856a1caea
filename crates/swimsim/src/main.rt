//! Replays a script of a detector's calls, and prints the replies.
#![tactic(auto)]

ghost use Rattle.std.specs.Prelude.{◌≡◌, if◌then◌else◌};
ghost use Rattle.swim_script.specs.Ends.{unplayed};

mod causes;
mod charting;
mod differences;
mod drawing;
mod draws;
mod expectations;
mod explanations;
mod files;
mod grammar;
mod limits;
mod marks;
mod notes;
mod options;
mod overhearing;
mod reasons;
mod refusals;
mod showing;
mod spelling;
mod summaries;
mod tallies;
mod telling;
mod tracing;
mod verifying;

use anyhow::Result;
use differences::newest_line;
use drawing::draw_at;
use draws::warnings_of;
use explanations::Explanation;
use files::{Input, Script, TimedScript, open};
use notes::{NoteTaker, Notes, Told};
use options::{Options, read_options};
use overhearing::Overheard;
use refusals::{refuse_bytes, refuse_mixed, refuse_twofold, refuse_unplaced, refuse_untraced};
use std::alloc::AllocError;
use std::cell::RefCell;
use std::env;
use std::io::{ErrorKind, Stdout};
use std::process::ExitCode;
use summaries::JournalSummary;
use swim_history::Journal;
use swim_script::{FaultKind, ScriptFault, Session};
use swim_text::{ReadSource, Sink, WriteSink};
use swim_verdicts::TimeTaker;
use telling::WordTeller;
use tracing::trace_files;
use verifying::{FileExaminer, verify};

/// The status where memory is refused before anything is played.
const NO_MEMORY: u8 = 4;

fn main(rt: HostRuntime) -> ExitCode {
    match begin(&rt) {
        Ok(code) => code,
        Err(error) => {
            let _ = eprintln!(rt; "swimsim: {error}");
            ExitCode::FAILURE
        }
    }
}

/// Does what the words of the command line ask.
fn begin(rt: &HostRuntime) -> Result<ExitCode> {
    let words: Vec<String> = match env::args(rt) {
        Ok(words) => match words.collect(rt.alloc()) {
            Ok(words) => words,
            Err(_) => return Ok(refuse_memory(rt)),
        },
        Err(error) if error.kind() == ErrorKind::InvalidData => {
            return print_answer(rt, &refuse_bytes(rt.alloc())?);
        }
        Err(error) if error.kind() == ErrorKind::OutOfMemory => {
            return Ok(refuse_memory(rt));
        }
        Err(error) => return Err(error.into()),
    };
    match read_options(rt.alloc(), words.as_slice()) {
        Ok(options) => obey(rt, &options),
        Err(answer) => print_answer(rt, &answer),
    }
}

/// The answer to words for which memory was refused: nothing is done.
fn refuse_memory(rt: &HostRuntime) -> ExitCode {
    let _ = eprintln!(rt; "swimsim: out of memory");
    ExitCode::from(NO_MEMORY)
}

/// Does what is asked for, where it goes together.
fn obey(rt: &HostRuntime, options: &Options<'_>) -> Result<ExitCode> {
    if options.is_mixed() {
        return print_answer(rt, &refuse_mixed(rt.alloc())?);
    }
    if options.is_unplaced() {
        return print_answer(rt, &refuse_unplaced(rt.alloc())?);
    }
    if options.is_twofold() {
        return print_answer(rt, &refuse_twofold(rt.alloc())?);
    }
    if options.is_untraced() {
        return print_answer(rt, &refuse_untraced(rt.alloc())?);
    }
    if !options.trace.is_empty() {
        return trace_files(rt, options);
    }
    if !options.verify.is_empty() {
        let mut examiner = FileExaminer::new(rt, options.json);
        return verify(&mut examiner, options.verify.as_slice());
    }
    Ok(match options.script {
        Some(path) if path != "-" => play_file(rt, path, options),
        _ => play(rt, Script::Standard(rt.stdin()), options),
    })
}

/// Writes the answer to words that ask for no script: help, the version, or why they are refused.
fn print_answer(rt: &HostRuntime, answer: &clap::Error) -> Result<ExitCode> {
    answer.print(rt)?;
    if answer.kind() == clap::error::ErrorKind::OutOfMemory {
        return Ok(ExitCode::from(NO_MEMORY));
    }
    Ok(ExitCode::from(answer.exit_code() as u8))
}

/// Plays the script of a file. Where it can't be opened, the error names it.
fn play_file(rt: &HostRuntime, path: &str, options: &Options<'_>) -> ExitCode {
    match open(rt, path) {
        Ok(script) => play(rt, Script::File(script), options),
        Err(error) => {
            let _ = eprintln!(rt; "swimsim: {path}: {error}");
            ExitCode::FAILURE
        }
    }
}

/// Plays the script, writes its answers on standard output, and draws its run if the options ask for that.
fn play(rt: &HostRuntime, script: Script, options: &Options<'_>) -> ExitCode {
    let times = RefCell::new(TimeTaker::new(rt.alloc()));
    let script = TimedScript {
        script,
        times: if options.timeline.is_some() {
            Some(&times)
        } else {
            None
        },
    };
    let (code, journal) = if options.decode || options.explain || options.numbers {
        play_in_words(rt, script, options)
    } else {
        play_plainly(rt, script)
    };
    let times = times.into_inner().into_times();
    draw_at(rt, options, journal.as_ref(), &times, code)
}

/// Plays it, and answers the status and what became of its session.
fn play_plainly(rt: &HostRuntime, script: TimedScript<'_>) -> (ExitCode, Option<Journal>) {
    let mut session = Session::new(rt.alloc());
    let input = Input::Plain(script);
    let code = finish(rt, play_between(&mut session, input, rt.stdout()));
    (code, session.into_journal())
}

/// Plays it, and puts into words what the options ask for.
fn play_in_words(
    rt: &HostRuntime,
    script: TimedScript<'_>,
    options: &Options<'_>,
) -> (ExitCode, Option<Journal>) {
    let mut session = Session::new(rt.alloc());
    let mut teller = WordTeller::new(rt.alloc(), options.decode, options.explain, options.numbers);
    let notes = RefCell::new(Notes::new(rt.alloc()));
    let input = Overheard::new(ReadSource::new(script), NoteTaker::new(&notes));
    let input = Input::Overheard(input);
    let outcome = tell_between(&mut session, input, rt.stdout(), &mut teller);
    let code = finish(rt, outcome);
    let journal = session.into_journal();
    if options.explain {
        explain(rt, outcome, journal.as_ref(), &notes.into_inner());
        let tally = teller.tally();
        let _ = eprint!(rt; "{tally}");
    }
    (code, journal)
}

/// Tells the fault of a script, if it has one.
fn finish(rt: &HostRuntime, outcome: Result<(), ScriptFault>) -> ExitCode {
    match outcome {
        Ok(()) => ExitCode::SUCCESS,
        Err(fault) => {
            let _ = rt.eprintln(fault);
            ExitCode::FAILURE
        }
    }
}

/// Explains the fault, if there is one, and tells what the journal says of the run.
fn explain(
    rt: &HostRuntime,
    outcome: Result<(), ScriptFault>,
    journal: Option<&Journal>,
    notes: &Notes,
) {
    if let Err(fault) = outcome {
        let newest = journal.and_then(|journal| newest_line(rt.alloc(), journal));
        let newest = newest.as_ref().map(|line| line.text());
        let explanation = Explanation::of(&fault, notes, newest);
        let _ = eprint!(rt; "{explanation}");
    }
    let Some(journal) = journal else {
        let _ = eprint!(rt; "entries 0\nperiods 0\n");
        return;
    };
    if sum_up(rt, journal, notes.told()).is_err() {
        let _ = eprintln!(rt; "no memory to sum the run up");
    }
}

/// Tells what a journal holds, and what is strange about the orders and places that were told.
fn sum_up(rt: &HostRuntime, journal: &Journal, told: &Told) -> Result<(), AllocError> {
    let summary = JournalSummary::of(journal)?;
    let warnings = warnings_of(rt.alloc(), journal, told)?;
    let _ = eprint!(rt; "{summary}");
    for warning in warnings.as_slice() {
        let _ = rt.eprintln(*warning);
    }
    Ok(())
}

/// Plays a script between that input and that output.
// In a place of its own, since the compiler puts the functions of a run in place.
#[inline(never)]
fn play_between(
    session: &mut Session,
    script: Input<'_>,
    answers: Stdout,
) -> Result<(), ScriptFault>
    requires { session.old ≡ unplayed }
{
    let mut reader = ReadSource::new(script);
    let mut writer = WriteSink::new(answers);
    match swim_script::run(session, &mut reader, &mut writer) {
        Ok(()) => Ok(()),
        Err(fault) => Err(told(fault, writer.flush())),
    }
}

/// Plays it with somebody's words.
#[inline(never)]
fn tell_between(
    session: &mut Session,
    script: Input<'_>,
    answers: Stdout,
    teller: &mut WordTeller,
) -> Result<(), ScriptFault>
    requires { session.old ≡ unplayed }
{
    let mut reader = ReadSource::new(script);
    let mut writer = WriteSink::new(answers);
    match swim_script::play(session, &mut reader, &mut writer, teller) {
        Ok(()) => Ok(()),
        Err(fault) => Err(told(fault, writer.flush())),
    }
}

/// The fault that is told: where what was written before it could not be handed on, that is told instead.
fn told(fault: ScriptFault, handed_on: bool) -> ScriptFault
    ensures { result ≡ (if handed_on then fault else record { line = fault.line; kind = FaultKind.Write }) }
{
    if handed_on {
        fault
    } else {
        ScriptFault {
            line: fault.line,
            kind: FaultKind::Write,
        }
    }
}
