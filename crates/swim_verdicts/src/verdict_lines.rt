//! The lines that tell what a verified file comes to.

use std::fmt;
use swim_evidence::Verdict;
use swim_script::ScriptFault;

/// Where so many confirmed entries end.
#[derive(Clone, Copy)]
pub struct End(pub u32);

impl fmt::Display for End {
    ghost use Rattle.std.specs.Prelude.{Some};
    ghost use Rattle.swim_verdicts.specs.VerdictTexts.{end_text};

    ghost output = { λ end. Some (end_text end.0) };

    fn fmt<W: fmt::Write>(&self, f: &mut fmt::Formatter<W>) -> fmt::Result {
        match self.0.checked_sub(1) {
            Some(entry) => write!(f, "behind entry {entry}"),
            None => f.write_str("before entry 0"),
        }
    }
}

/// The line that ends the report of a file: of one that is cut where it ends, of any other none.
#[derive(Clone, Copy)]
pub struct Closing {
    pub verdict: Verdict<ScriptFault>,
    pub confirmed: u32,
}

impl fmt::Display for Closing {
    ghost use Rattle.std.specs.Prelude.{Some};
    ghost use Rattle.swim_verdicts.specs.VerdictTexts.{closing_text};

    ghost output = { λ c. Some (closing_text c.verdict c.confirmed) };

    fn fmt<W: fmt::Write>(&self, f: &mut fmt::Formatter<W>) -> fmt::Result {
        match self.verdict {
            Verdict::Cut => {
                let place = End(self.confirmed);
                write!(f, "cut {place}\n")
            }
            _ => Ok(()),
        }
    }
}

/// What is to be said of a file that is neither whole nor cut: of any other nothing.
#[derive(Clone, Copy)]
pub struct Objection {
    pub verdict: Verdict<ScriptFault>,
    pub confirmed: u32,
}

impl fmt::Display for Objection {
    ghost use Rattle.std.specs.Prelude.{Some};
    ghost use Rattle.swim_verdicts.specs.VerdictTexts.{objection_text};

    ghost output = { λ o. Some (objection_text o.verdict o.confirmed) };

    fn fmt<W: fmt::Write>(&self, f: &mut fmt::Formatter<W>) -> fmt::Result {
        let place = End(self.confirmed);
        match self.verdict {
            Verdict::Missed(call) => {
                let line = call.line;
                let entry = call.entry;
                write!(
                    f,
                    "line {line}: no answer stands behind the call of entry {entry}"
                )
            }
            Verdict::Faulty(fault) => write!(f, "{fault}, {place}"),
            Verdict::Starved => write!(f, "no memory {place}"),
            Verdict::Whole | Verdict::Cut => Ok(()),
        }
    }
}
