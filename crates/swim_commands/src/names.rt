//! The names of what a daemon's answers tell by a number.

ghost use Rattle.std.specs.Prelude.{◌≡◌};
ghost use Rattle.swim_commands.specs.Forms.{fault_name, name_of, refusal_name};

/// The name behind an answer's number; empty where it tells none.
pub fn name_of(answer: &[u8]) -> &'static str
    ensures { result.now ≡ name_of answer.now }
{
    if answer.starts_with(b"joined ") {
        "the place in the round"
    } else if answer.starts_with(b"fault ") {
        fault_name(answer)
    } else {
        refusal_name(answer)
    }
}

/// What is wrong with a line that was answered so.
fn fault_name(answer: &[u8]) -> &'static str
    ensures { result.now ≡ fault_name answer.now }
{
    if answer == b"fault 1\n".as_slice() {
        "the line is too long"
    } else if answer == b"fault 2\n".as_slice() {
        "unknown word"
    } else if answer == b"fault 3\n".as_slice() {
        "the id is missing or refused"
    } else if answer == b"fault 4\n".as_slice() {
        "the address is missing or refused"
    } else if answer == b"fault 5\n".as_slice() {
        "words are left over"
    } else if answer == b"fault 6\n".as_slice() {
        "the input ended within the line"
    } else {
        ""
    }
}

/// Why a call was refused that was answered so, in the words of the detector's reasons.
fn refusal_name(answer: &[u8]) -> &'static str
    ensures { result.now ≡ refusal_name answer.now }
{
    if answer == b"refused 1\n".as_slice() {
        "myself"
    } else if answer == b"refused 2\n".as_slice() {
        "listed"
    } else if answer == b"refused 3\n".as_slice() {
        "full"
    } else if answer == b"refused 4\n".as_slice() {
        "unknown"
    } else if answer == b"refused 5\n".as_slice() {
        "the period numbers are used up"
    } else {
        ""
    }
}
