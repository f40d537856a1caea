mod at_once;
mod crews;
mod endings;
mod keepers;
mod recorders;
mod refusals;
mod single;
mod successions;
mod views;
mod workers;

use self::crews::{crew, opening};
use self::keepers::NotingKeeper;
use self::recorders::CountingRecorder;
use self::workers::{Then, TickingWorker};
use std::alloc::{AllocError, Global};
use std::fmt::Debug;
use std::process::Abort;
use std::rt::Clock;
use std::sync::Wait;
use std::sync::atomic::{AtomicBool, AtomicU32, Ordering};
use std::test::*;
use std::thread::{Threads, sleep, yield_now};
use std::time::Duration;
use swim_crew::{Crew, Keeper, LivesEnd, Past, Terms, live, run_lives};
use swim_history::{Journal, Opening, OpeningFault};
use swim_node::{Follower, Naming, Node, OpenFault, Seat, Viewer};
use swim_targets::Seeded;
use swim_text::{Page, Sink, put_numbered};
use swim_wire::{Id, Peer, Version};
use swim_work::{Caller, Counts, Done, End, Meter, Meters, Post, Recorder, Why, Worker};

// The two are the same. A call of this is proved at once, and an `assert_eq!` in some seconds.
fn assert_same<T: PartialEq + Debug, R: Abort>(rt: &R, left: &T, right: &T) {
    assert_eq!(rt; *left, *right);
}
