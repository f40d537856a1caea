use std::fmt::Debug;
use std::process::Abort;

mod keys;
mod vectors;

// The two are the same. A call of this is proved at once, and an `assert_eq!` in some seconds.
fn assert_same<T: PartialEq + Debug, R: Abort>(rt: &R, left: &T, right: &T) {
    assert_eq!(rt; *left, *right);
}
