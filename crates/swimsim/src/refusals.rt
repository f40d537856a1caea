//! The answers to words of the command line that don't go together.

ghost use Rattle.std.specs.Prelude.{◌≡◌, IfOk};
ghost use Rattle.clap.specs.Words.{kind_of};

use crate::options::command_line;
use clap::Error;
use clap::error::ErrorKind;
use std::alloc::{AllocError, Global};

/// The answer to words of which one is no text.
pub fn refuse_bytes(alloc: Global) -> Result<Error, AllocError>
    ensures { IfOk result (λ answer. kind_of answer ≡ ErrorKind.InvalidValue) }
{
    refuse(alloc, ErrorKind::InvalidValue, "a word is not UTF-8")
}

/// The answer to words that ask to verify or trace files, and for something else beside that.
pub fn refuse_mixed(alloc: Global) -> Result<Error, AllocError>
    ensures { IfOk result (λ answer. kind_of answer ≡ ErrorKind.ArgumentConflict) }
{
    refuse(
        alloc,
        ErrorKind::ArgumentConflict,
        "--verify and --trace each stand beside journal files alone",
    )
}

/// The answer to words that name judgements, and neither files to be traced nor a picture round one of them.
pub fn refuse_untraced(alloc: Global) -> Result<Error, AllocError>
    ensures { IfOk result (λ answer. kind_of answer ≡ ErrorKind.MissingRequiredArgument) }
{
    refuse(
        alloc,
        ErrorKind::MissingRequiredArgument,
        "--judged, --period and --json stand beside --trace FILE; --period beside --around ID too, --json beside --verify FILE",
    )
}

/// The answer to words that ask for a part of a picture, and for no picture.
pub fn refuse_unplaced(alloc: Global) -> Result<Error, AllocError>
    ensures { IfOk result (λ answer. kind_of answer ≡ ErrorKind.MissingRequiredArgument) }
{
    refuse(
        alloc,
        ErrorKind::MissingRequiredArgument,
        "--from and --around stand beside --timeline FILE",
    )
}

/// The answer to words that ask for two parts of a picture.
pub fn refuse_twofold(alloc: Global) -> Result<Error, AllocError>
    ensures { IfOk result (λ answer. kind_of answer ≡ ErrorKind.ArgumentConflict) }
{
    refuse(
        alloc,
        ErrorKind::ArgumentConflict,
        "--from and --around don't stand beside each other",
    )
}

/// An answer of this kind.
fn refuse(alloc: Global, kind: ErrorKind, text: &str) -> Result<Error, AllocError>
    ensures { IfOk result (λ answer. kind_of answer ≡ kind) }
{
    let mut command = command_line(alloc)?;
    command.error(kind, text)
}
