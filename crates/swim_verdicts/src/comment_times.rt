//! The times that comments of journal files tell.

ghost use Rattle.std.specs.Prelude.{◌≡◌, ◌+◌, ◌≤◌, IfSome};
ghost use Rattle.swim_verdicts.specs.CommentTimes.{IsDigits, time_text};

use swim_text::read_number;
use swim_timeline::StartTime;

/// Returns the time that a comment tells, if it is a number of seconds and nothing else, or such a number and behind it
/// a point and exactly three digits.
pub(crate) fn read_time(comment: &[u8]) -> Option<StartTime>
    ensures { IfSome result (λ time. comment.now ≡ time_text time) }
{
    match comment {
        [seconds @ .., b'.', hundreds, tens, ones] => Some(StartTime {
            seconds: read_number(seconds, u64::MAX)?,
            milliseconds: Some(milliseconds_of(*hundreds, *tens, *ones)?),
        }),
        seconds => Some(StartTime {
            seconds: read_number(seconds, u64::MAX)?,
            milliseconds: None,
        }),
    }
}

/// Returns the number that three digits are.
fn milliseconds_of(hundreds: u8, tens: u8, ones: u8) -> Option<u16>
    ensures { IfSome result (IsDigits hundreds tens ones) }
{
    Some(100 * digit(hundreds)? + 10 * digit(tens)? + digit(ones)?)
}

/// Returns the number that a digit is.
fn digit(byte: u8) -> Option<u16>
    ensures { IfSome result (λ number. (byte ≡ 48 + number) × (number ≤ 9)) }
{
    if byte.is_ascii_digit() {
        Some(u16::from(byte - b'0'))
    } else {
        None
    }
}
