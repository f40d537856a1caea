mod alone;
mod causes;
mod configurations;
mod events;
mod fences;
mod hiding;
mod journal_times;
mod keys;
mod modes;
mod paths;
mod refusals;
mod rejoins;
mod versions;

use std::fmt::Debug;
use std::process::Abort;

// The two are the same. A call of this is proved at once, and an `assert_eq!` in some seconds.
fn assert_same<T: PartialEq + Debug, R: Abort>(rt: &R, left: &T, right: &T) {
    assert_eq!(rt; *left, *right);
}

// The same, of what these lines of a document say.
fn assert_same_at<T: PartialEq + Debug, R: Abort>(rt: &R, lines: &str, left: &T, right: &T) {
    assert_eq!(rt; *left, *right, "at {lines}");
}
