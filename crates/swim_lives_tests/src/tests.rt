mod crews;
mod failing;
mod files;
mod gates;
mod lives;
mod members;
mod operators;
mod posts;
mod readers;
mod refusals;
mod reporters;
mod returning;
mod sending;
mod shelves;
mod short_lives;
mod showing;
mod successions;
mod two;
mod watching;

use self::crews::{Gates, Mute, Quiet, crew, live_over, quiet};
use self::gates::{
    ACK, AckPost, Never, NoDoor, OneDoor, PING, PingLine, Signals, StopPace, TURNS, TakingPost,
    is_set, line, pace, pause, post, set,
};
use self::members::{at, chooser, id, opening, pair};
use std::alloc::Global;
use std::fmt::Debug;
use std::process::Abort;
use std::rt::Clock;
use std::sync::Wait;
use std::sync::atomic::{AtomicBool, Ordering};
use std::test::*;
use std::thread::Threads;
use swim_crew::{Crew, LivesEnd, Past, Terms, live, run_lives};
use swim_desk::{Controller, Door, Hall};
use swim_events::Gallery;
use swim_history::{Journal, Opening, Probe, Reply};
use swim_receiver::{Receiver, Returning};
use swim_recorder::{JournalRecorder, NoEntrance, NoOutlet, NoReporter};
use swim_text::Page;
use swim_ticker::Ticker;
use swim_wire::{Peer, Version};
use swim_work::{Beat, Got, Line, Pace, Post, RejoinLookup, TidingsBoard, Why};

// The two are the same. A call of this is proved at once, and an `assert_eq!` in some seconds.
fn assert_same<T: PartialEq + Debug, R: Abort>(rt: &R, left: &T, right: &T) {
    assert_eq!(rt; *left, *right);
}
