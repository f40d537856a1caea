mod at_once;
mod calls;
mod draws;
mod following;
mod gaps;
mod holding;
mod jobs;
mod nodes;
mod plans;
mod refusals;
mod replays;
mod soak;
mod steps;
mod threads;
mod trials;
mod values;
mod views;

use self::at_once::{Asked, Work, four_at_once, four_working, two_at_once};
use self::calls::make;
use self::draws::Draws;
use self::jobs::{Job, all_eight, all_four, both};
use self::nodes::{Four, Opened, close, open, seats_of, two_by_two, unseen};
use self::trials::{Trial, try_on_node};
use self::values::{at, id, message, no_script, opening, order_of, up};
use std::alloc::Global;
use std::fmt::Debug;
use std::marker::Brand;
use std::process::Abort;
use std::sync::Wait;
use std::test::*;
use std::thread::Threads;
use swim_history::{
    Call, Journal, Kept, Opening, OpeningFault, Probe, Reply, Row, RowState, Table,
};
use swim_node::*;
use swim_targets::{Chooser, Order, Scripted};
use swim_wire::{Id, Kind, Message, Peer, PeriodNumber, Version, encode};

// The two are the same. A call of this is proved at once, and an `assert_eq!` in some seconds.
fn assert_same<T: PartialEq + Debug, R: Abort>(rt: &R, left: &T, right: &T) {
    assert_eq!(rt; *left, *right);
}
