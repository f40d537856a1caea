//! The configuration that a daemon runs with, in a file.

ghost use Rattle.std.specs.Prelude.{◌≡◌, [], MatchResult};
ghost use Rattle.swim_checks.specs.Configured.{IsConfiguration, IsNoConfiguration, IsWritten};
ghost use Rattle.swim_outcomes.specs.Details.{Explains};

use crate::documents::Documents;
use arrayvec::ArrayVec;
use std::alloc::Global;
use swim_config::{Config, INPUT_BYTES, read_config};
use swim_outcomes::{Details, Outcome};

/// The configuration in the file of that path.
pub fn configuration<X: Documents>(
    alloc: Global,
    documents: &mut X,
    path: &str,
    details: &mut Details,
) -> Result<Config, Outcome>
    requires { details.old ≡ [] }
    ensures read { MatchResult result (IsConfiguration path.now (X.read documents.old) (X.read documents.new))
        (IsNoConfiguration path.now (X.read documents.old) (X.read documents.new)) }
    ensures details { MatchResult result (λ config. details.new ≡ []) (λ outcome. Explains outcome details.new) }
{
    let mut text = ArrayVec::<u8, INPUT_BYTES>::new();
    read_configuration(alloc, documents, path, &mut text, details)
}

/// Reads the configuration in the file of that path, and the file's text.
pub fn read_configuration<X: Documents>(
    alloc: Global,
    documents: &mut X,
    path: &str,
    text: &mut ArrayVec<u8, INPUT_BYTES>,
    details: &mut Details,
) -> Result<Config, Outcome>
    requires text { text.old.items ≡ [] }
    requires details { details.old ≡ [] }
    ensures read { MatchResult result
        (IsWritten path.now text.new.items (X.read documents.old) (X.read documents.new))
        (IsNoConfiguration path.now (X.read documents.old) (X.read documents.new)) }
    ensures details { MatchResult result (λ config. details.new ≡ []) (λ outcome. Explains outcome details.new) }
{
    if let Err(why) = documents.read_text(path, text) {
        details.add_of(path, why);
        return Err(Outcome::Unread);
    }
    match read_config(alloc, text.as_slice()) {
        Ok(config) => Ok(config),
        Err(fault) => {
            details.explain(alloc, text.as_slice(), fault);
            Err(Outcome::Refused(fault))
        }
    }
}
