//! What is wrong with a script.

use crate::commands::LineFault;
use std::error::Error;
use std::fmt;
use swim_history::OpeningFault;

/// The kinds of faults of a script.
#[derive(Clone, Copy, Debug, PartialEq, Eq)]
pub enum FaultKind {
    /// The script is longer than one of its form may be.
    Size,
    /// The line has more than 2,048 bytes.
    Long,
    /// The words of the line.
    Words(LineFault),
    /// The opening is refused.
    Opening(OpeningFault),
    /// It is refused since a member failed in a period that wasn't used: its number is 0, or beyond the last one.
    Unused,
    /// Memory to keep or to compare what the line tells was refused.
    Memory,
    /// The newest entry stands at another place than the line tells, or was answered otherwise.
    Differs,
    /// The reader failed.
    Read,
    /// The writer failed.
    Write,
}

/// What is wrong with a script, and in which line, counted from 1. The line is 0 for a script with no line
/// that isn't skipped. Where the reader failed it is the line that was waited for, and where the writer failed that
/// or the line that was being answered.
#[derive(Clone, Copy, Debug, PartialEq, Eq)]
pub struct ScriptFault {
    /// The line, from 1, or 0.
    pub line: u32,
    /// What is wrong.
    pub kind: FaultKind,
}

impl Error for ScriptFault {}

/// The line and the kind, as `line 3: word`.
impl fmt::Display for ScriptFault {
    ghost use Rattle.std.specs.Prelude.{Some};
    ghost use Rattle.swim_script.specs.FaultTexts.{fault_text};

    ghost output = { λ fault. Some (fault_text fault) };

    fn fmt<W: fmt::Write>(&self, f: &mut fmt::Formatter<W>) -> fmt::Result {
        let line = self.line;
        let kind = self.kind;
        write!(f, "line {line}: {kind}")
    }
}

/// The word of the kind, of a refused opening with its number.
impl fmt::Display for FaultKind {
    ghost use Rattle.std.specs.Prelude.{Some};
    ghost use Rattle.swim_script.specs.FaultTexts.{kind_text};

    ghost output = { λ kind. Some (kind_text kind) };

    fn fmt<W: fmt::Write>(&self, f: &mut fmt::Formatter<W>) -> fmt::Result {
        match self {
            FaultKind::Size => f.write_str("size"),
            FaultKind::Long => f.write_str("long"),
            FaultKind::Words(fault) => f.write_str(fault.name()),
            FaultKind::Opening(fault) => {
                let number = fault.number();
                write!(f, "opening {number}")
            }
            FaultKind::Unused => f.write_str("opening 6"),
            FaultKind::Memory => f.write_str("memory"),
            FaultKind::Differs => f.write_str("differs"),
            FaultKind::Read => f.write_str("read"),
            FaultKind::Write => f.write_str("write"),
        }
    }
}
