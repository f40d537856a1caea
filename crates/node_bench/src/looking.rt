//! Looks at a node's member table, again and again.

use crate::fours::Four;
use crate::jobs::Job;
use crate::nodes::other;
use std::sync::atomic::{AtomicBool, Ordering};
use swim_history::Table;
use swim_node::{Naming, Viewer};

/// Looks at the table until it is over, or so many times, and says how often member 2 stood in it.
pub(crate) fn list<N: Naming>(viewer: Viewer<N>, looks: u32, over: &AtomicBool) -> u32 {
    let mut viewer = viewer;
    let mut table = Table::new();
    let mut seen = 0_u32;
    for _look in 0..looks {
        if over.load(Ordering::SeqCst) || !viewer.look(&mut table) {
            break;
        }
        if table.as_slice().iter().any(|row| row.id == other()) {
            seen = seen.saturating_add(1);
        }
    }
    seen
}

/// A viewer that lists the table.
#[derive(Drop)]
pub(crate) struct Listing<'o, N: Naming> {
    pub(crate) viewer: Viewer<N>,
    pub(crate) looks: u32,
    pub(crate) over: &'o AtomicBool,
}

impl<'o, N: Naming> Job for Listing<'o, N> {
    type Done = u32;

    fn carry_out(self) -> u32 {
        let Listing {
            viewer,
            looks,
            over,
        } = self;
        list(viewer, looks, over)
    }
}

/// Four viewers that list the table until it is over.
pub(crate) fn four_listing<'o, N: Naming>(
    viewers: Four<Viewer<N>>,
    over: &'o AtomicBool,
) -> Four<Listing<'o, N>> {
    let (some, others) = viewers;
    (two_listing(some, over), two_listing(others, over))
}

fn two_listing<'o, N: Naming>(
    viewers: (Viewer<N>, Viewer<N>),
    over: &'o AtomicBool,
) -> (Listing<'o, N>, Listing<'o, N>) {
    let (first, second) = viewers;
    (until_over(first, over), until_over(second, over))
}

fn until_over<'o, N: Naming>(viewer: Viewer<N>, over: &'o AtomicBool) -> Listing<'o, N> {
    Listing {
        viewer,
        looks: u32::MAX,
        over,
    }
}
