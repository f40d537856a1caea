//! The command that checks a configuration.

ghost use Rattle.std.specs.Prelude.{◌≡◌, not, []};
ghost use Rattle.swim_text.specs.Streams.{failures_if};
ghost use Rattle.swim_checks.specs.CheckedFiles.{ChecksFile};
ghost use Rattle.swim_checks.specs.Checking.{ChecksKnown, ChecksTyped, Prompts, Shows, TakesInput, Warned, is_unread};
ghost use Rattle.swim_checks.specs.Checking.{is_unwritten};
ghost use Rattle.swim_outcomes.specs.Details.{Explains};

use crate::configurations::configuration;
use crate::documents::Documents;
use arrayvec::ArrayVec;
use std::alloc::Global;
use swim_config::{Config, INPUT_BYTES, put_warnings, read_config, read_input, summary};
use swim_outcomes::{Details, Outcome};
use swim_text::{Sink, Source};

/// What people are told who type a configuration.
const WAITS: &[u8] =
    b"swimd waits for a configuration on standard input, up to its end; swimd --help tells its commands\n";

/// Checks the configuration on standard input. If people type it, they are told first that it is waited for.
pub fn check_typed<S: Source, W: Sink, F: Sink>(
    alloc: Global,
    is_prompted: bool,
    reader: &mut S,
    writer: &mut W,
    faults: &mut F,
    details: &mut Details,
) -> Outcome
    requires { details.old ≡ [] }
    ensures checked { ChecksTyped is_prompted (S.left reader.old) (W.written writer.old) (W.written writer.new)
        (F.written faults.old, F.failures faults.old) (F.written faults.new, F.failures faults.new) result }
    ensures writes { W.failures writer.new ≡ failures_if (W.failures writer.old) (not (is_unwritten result)) }
    ensures explains { Explains result details.new }
{
    prompt(is_prompted, faults);
    check(alloc, reader, writer, faults, details)
}

/// Tells people that a configuration is waited for, if they are to be told.
fn prompt<F: Sink>(is_prompted: bool, faults: &mut F)
    ensures { Prompts is_prompted (F.written faults.old, F.failures faults.old)
        (F.written faults.new, F.failures faults.new) }
{
    if is_prompted {
        let _is_put = faults.put(WAITS);
        let _is_sent = faults.flush();
    }
}

/// Checks the configuration in the file of that path.
#[tactic(auto, using(crate::proofs::Checked::none_unwritten, crate::proofs::Explained::shown_explains))]
pub fn check_file<X: Documents, W: Sink, F: Sink>(
    alloc: Global,
    path: &str,
    documents: &mut X,
    writer: &mut W,
    faults: &mut F,
    details: &mut Details,
) -> Outcome
    requires { details.old ≡ [] }
    ensures checked { ChecksFile path.now (X.read documents.old) (X.read documents.new)
        (W.written writer.old) (W.written writer.new)
        (F.written faults.old, F.failures faults.old) (F.written faults.new, F.failures faults.new) result }
    ensures writes { W.failures writer.new ≡ failures_if (W.failures writer.old) (not (is_unwritten result)) }
    ensures explains { Explains result details.new }
{
    match configuration(alloc, documents, path, details) {
        Ok(config) => show(&config, writer, faults),
        Err(outcome) => outcome,
    }
}

/// Reads a configuration, and writes its summary, and then what it warns of. What stands below the line of a fault is
/// told in the details.
pub fn check<S: Source, W: Sink, F: Sink>(
    alloc: Global,
    reader: &mut S,
    writer: &mut W,
    faults: &mut F,
    details: &mut Details,
) -> Outcome
    requires { details.old ≡ [] }
    ensures checked { ChecksKnown (S.left reader.old) (W.written writer.old) (W.written writer.new)
        (F.written faults.old, F.failures faults.old) (F.written faults.new, F.failures faults.new) result }
    ensures taken { TakesInput (S.left reader.old) (S.left reader.new) }
    ensures reads { S.failures reader.new ≡ failures_if (S.failures reader.old) (not (is_unread result)) }
    ensures writes { W.failures writer.new ≡ failures_if (W.failures writer.old) (not (is_unwritten result)) }
    ensures sent { result ≡ Outcome.Checked → W.held writer.new ≡ 0 }
    ensures explains { Explains result details.new }
{
    let mut text = ArrayVec::<u8, INPUT_BYTES>::new();
    if !read_input(reader, &mut text) {
        return Outcome::Unread;
    }
    match read_config(alloc, text.as_slice()) {
        Ok(config) => show(&config, writer, faults),
        Err(fault) => {
            details.explain(alloc, text.as_slice(), fault);
            Outcome::Refused(fault)
        }
    }
}

/// Writes the summary of a configuration, and hands it on; and then what it warns of.
fn show<W: Sink, F: Sink>(config: &Config, writer: &mut W, faults: &mut F) -> Outcome
    ensures shows { Shows config.now (W.written writer.old) (W.written writer.new)
        (F.written faults.old, F.failures faults.old) (F.written faults.new, F.failures faults.new) result }
    ensures writes { W.failures writer.new ≡ failures_if (W.failures writer.old) (not (is_unwritten result)) }
    ensures sent { result ≡ Outcome.Checked → W.held writer.new ≡ 0 }
{
    if !summary(config, writer) {
        return Outcome::Unwritten;
    }
    if !writer.flush() {
        return Outcome::Unwritten;
    }
    warn(config, faults);
    Outcome::Checked
}

/// Writes what a configuration allows and can't work, and hands it on.
pub fn warn<F: Sink>(config: &Config, faults: &mut F)
    ensures { Warned config.now (F.written faults.old, F.failures faults.old)
        (F.written faults.new, F.failures faults.new) }
{
    let _is_put = put_warnings(faults, config);
    let _is_sent = faults.flush();
}
