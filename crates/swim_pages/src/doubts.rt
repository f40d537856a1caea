//! What speaks against files in which a verdict was looked for, and which don't tell it.

ghost use Rattle.std.specs.Prelude.{◌≡◌, ◌++◌};
ghost use Rattle.swim_pages.specs.Doubts.{IsObjection, doubt_text};
ghost use Rattle.swim_web.specs.declared.shelves.Found.TheVariants as finds;

use std::alloc::Global;
use swim_evidence::Standing;
use swim_text::{Page as Text, Sink};
use swim_verdicts::{Objection, Played};
use swim_web::Found;

/// Returns what is to be said against a file that was played.
pub fn objection_to(played: &Played) -> Objection
    ensures { IsObjection played.now result }
{
    Objection {
        verdict: played.verdict(),
        confirmed: played.witness.confirmations.confirmed,
    }
}

/// Finds nothing in a file with this path, and adds the line that says what speaks against it, if something does, as
/// `swimsim --verify` has it.
pub fn doubt(alloc: Global, path: &str, objection: Objection, text: &mut Text) -> Found
    ensures nothing { result ≡ finds.Nothing →
        text.new.text ≡ text.old.text ++ doubt_text (record { path = path.now; objection = objection }) }
    ensures page { result ≡ finds.Page → ⊥ }
{
    match objection.verdict.standing() {
        Standing::Sound => Found::Nothing,
        Standing::Starved | Standing::Accused => {
            let Ok(line) = format!(in alloc; "{path}: {objection}\n") else {
                return Found::NoMemory;
            };
            if text.put(line.as_str().as_bytes()) {
                Found::Nothing
            } else {
                Found::NoMemory
            }
        }
    }
}
