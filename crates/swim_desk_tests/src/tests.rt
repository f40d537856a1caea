mod doors;
mod examples;
mod faults;
mod lives;
mod operators;
mod refusals;
mod speakers;
mod stops;

use self::doors::Row;
use self::lives::{Lived, live};
use self::operators::{Room, Typed, Who};
use self::speakers::Teller;
use std::alloc::Global;
use std::fmt::Debug;
use std::process::Abort;
use std::sync::Wait;
use std::test::*;
use swim_desk::{Controller, Hall};
use swim_work::Why;

// The two are the same. A call of this is proved at once, and an `assert_eq!` in some seconds.
fn assert_same<T: PartialEq + Debug, R: Abort>(rt: &R, left: &T, right: &T) {
    assert_eq!(rt; *left, *right);
}

// A controller at that door.
fn controller<'s>(alloc: Global, door: Row<'s>) -> Controller<Row<'s>, Teller> {
    Controller {
        alloc,
        hall: Hall::new(alloc, door),
        speaker: Teller::new(),
    }
}
