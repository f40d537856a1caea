//! What the program is given: its words, and the paths that its environment names.

ghost use Rattle.std.specs.Prelude.{◌≡◌, [], IfErr};
ghost use Rattle.swim_outcomes.specs.Details.{Explains};

use std::alloc::{AllocError, Global};
use std::env::{self, VarError};
use std::io::ErrorKind;
use swim_commands::{Surroundings, explain_no_text};
use swim_config::ConfigFault;
use swim_outcomes::{Details, Outcome};

/// The variable with the path of the control socket, and that path where there is no such variable.
const CONTROL: &str = "SWIMD_CONTROL";

const USUAL_CONTROL: &str = "/run/swimd/control";

/// The same of the events' socket.
const EVENTS: &str = "SWIMD_EVENTS";

const USUAL_EVENTS: &str = "/run/swimd/events";

/// The program's name and the words after it, and the paths of its environment.
#[derive(Drop)]
pub struct Given {
    texts: Vec<String>,
    control: Option<String>,
    events: Option<String>,
}

impl Given {
    /// The program's name and the words after it.
    pub fn texts(&self) -> &[String] {
        self.texts.as_slice()
    }

    /// Where the program runs, where terminals may be at standard input and at standard output.
    pub fn surroundings(&self, is_typed: bool, is_shown: bool) -> Surroundings<'_> {
        Surroundings {
            control: text_of(&self.control),
            events: text_of(&self.events),
            is_typed,
            is_shown,
        }
    }
}

/// A path, if there is one.
fn text_of(path: &Option<String>) -> Option<&str> {
    match path {
        Some(path) => Some(path.as_str()),
        None => None,
    }
}

/// What the program is given. A word that is no UTF-8 asks nothing, which is told in the details.
#[tactic(auto, using(crate::proofs::Explained::nothing_explains))]
pub fn take_given(rt: &HostRuntime, details: &mut Details) -> Result<Given, Outcome>
    requires { details.old ≡ [] }
    ensures { IfErr result (λ outcome. Explains outcome details.new) }
{
    let Ok((control, events)) = paths_named(rt) else {
        return Err(Outcome::Refused(ConfigFault::NoMemory));
    };
    match words_given(rt, details) {
        Ok(texts) => Ok(Given {
            texts,
            control,
            events,
        }),
        Err(outcome) => Err(outcome),
    }
}

/// The paths of the control socket and of the events' socket.
fn paths_named(rt: &HostRuntime) -> Result<(Option<String>, Option<String>), AllocError> {
    let control = path_named(rt, CONTROL, USUAL_CONTROL)?;
    let events = path_named(rt, EVENTS, USUAL_EVENTS)?;
    Ok((control, events))
}

/// The path that a variable names, or the usual one where there is no such variable; `None` where it is no UTF-8.
fn path_named(rt: &HostRuntime, name: &str, usual: &str) -> Result<Option<String>, AllocError> {
    match env::var(rt, name) {
        Ok(path) => Ok(Some(path)),
        Err(VarError::NotPresent) => Ok(Some(String::from_str(rt.alloc(), usual)?)),
        Err(VarError::NotUnicode) => Ok(None),
        Err(VarError::OutOfMemory) => Err(AllocError),
    }
}

/// The program's name and the words after it. One that is no UTF-8 asks nothing, which is told in the details.
#[tactic(auto, using(crate::proofs::Explained::nothing_explains))]
fn words_given(rt: &HostRuntime, details: &mut Details) -> Result<Vec<String>, Outcome>
    requires { details.old ≡ [] }
    ensures { IfErr result (λ outcome. Explains outcome details.new) }
{
    let no_memory = Outcome::Refused(ConfigFault::NoMemory);
    let texts = match env::args(rt) {
        Ok(texts) => texts,
        Err(fault) if fault.kind() == ErrorKind::OutOfMemory => return Err(no_memory),
        Err(_) => return Err(explain_no_text(details)),
    };
    match texts.collect(rt.alloc()) {
        Ok(words) => Ok(words),
        Err(_) => Err(no_memory),
    }
}

/// The words after the program's name.
pub fn words_in(alloc: Global, texts: &[String]) -> Result<Vec<&str>, AllocError> {
    let mut words = Vec::new(alloc);
    for text in texts.iter().skip(1) {
        words.push(text.as_str())?;
    }
    Ok(words)
}
