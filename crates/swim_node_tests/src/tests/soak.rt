//! Four callers and four readers at once, and then the closing journal, replayed call by call.

ghost use Rattle.std.specs.Prelude.{◌≡◌, List};
ghost use Rattle.swim_history.specs.declared.entries.Entry.{Entry};

use super::replays::{Watched, assert_replays};
use super::*;
use swim_targets::Seeded;

const CALLS: u32 = 100_000;

const LOOKS: u32 = 250_000;

// A reader keeps so many tables at most.
const TABLES: usize = 1_000;

#[test]
fn four_callers_and_four_readers(rt: HostRuntime) -> Result<(), Fail> {
    let alloc = rt.alloc();
    let start = opening(1)?;
    let parts = Parts::make(alloc, 4 * CALLS)?;
    let (journal, lists) = soaked::<Brand, _>(rt, alloc, parts, start)?;
    assert_same(&rt, &journal.len(), &(4 * CALLS));
    assert_replays(&rt, alloc, opening(1)?, &journal, in_a_row(lists))
}

fn soaked<N: Naming + Send + Sync, R: Threads + Wait + Send + Sync + Copy + Drop>(
    rt: R,
    alloc: Global,
    parts: Parts,
    start: Opening,
) -> Result<(Journal, Four<Watched>), OpenFault>
    requires parts { parts ≡ record { limit = N.limit; ledgers = N.ledgers; log = N.log; cells = N.cells } }
    requires opening { start ≡ N.opening }
    requires limit { N.limit ≡ 400000 }
    requires drawn { (h : List Entry) → N.drawn h }
{
    let opened = open::<N, Seeded, R>(rt, alloc, parts, start, Seeded::new([7; 32]), 4 * CALLS)?;
    Ok(call_and_close(&rt, alloc, opened))
}

fn call_and_close<N: Naming + Send + Sync, R: Threads + Wait + Send + Sync + Copy + Drop>(
    rt: &R,
    alloc: Global,
    opened: Opened<N, Seeded, R>,
) -> (Journal, Four<Watched>)
    requires listening { (opened.1.0.0.number ≡ 0) × (opened.1.0.1.number ≡ 1) }
    requires changing { (opened.1.1.0.number ≡ 2) × (opened.1.1.1.number ≡ 3) }
{
    let (node, callers, readers) = opened;
    let (callers, lists) = call_and_look(rt, alloc, &node, callers, readers);
    let (journal, callers) = close(rt, node, callers);
    drop(callers);
    (journal, lists)
}

fn in_a_row(lists: Four<Watched>) -> [Watched; 4] {
    let ((one, two), (three, four)) = lists;
    [one, two, three, four]
}

// Calls of a seat, drawn from this seed.
fn drawn(seed: u64) -> Work {
    Work::of(Asked::Drawn(Draws::new(seed)), CALLS)
}

fn call_and_look<N: Naming + Send + Sync, R: Threads + Wait + Send + Sync + Copy + Drop>(
    rt: &R,
    alloc: Global,
    node: &Node<N, Seeded, R>,
    callers: Four<Seat<N>>,
    readers: Four<Viewer<N>>,
) -> (Four<Seat<N>>, Four<Watched>)
    ensures first { result.0.0.0.number ≡ callers.0.0.number }
    ensures second { result.0.0.1.number ≡ callers.0.1.number }
    ensures third { result.0.1.0.number ≡ callers.1.0.number }
    ensures fourth { result.0.1.1.number ≡ callers.1.1.number }
{
    let works = ((drawn(1), drawn(2)), (drawn(3), drawn(4)));
    let callers = four_working(*rt, node, callers, works);
    all_eight(rt, callers, four_looking(alloc, readers))
}

// A reader who looks at the table again and again.
#[derive(Drop)]
struct Looking<N: Naming> {
    alloc: Global,
    viewer: Viewer<N>,
}

impl<N: Naming + Send + Sync> Job for Looking<N> {
    type Done = Watched;

    ghost does = { λ job watched. Unit {0} };

    fn carry_out(self) -> Watched {
        let Looking { alloc, viewer } = self;
        look_often(alloc, viewer)
    }
}

fn four_looking<N: Naming>(alloc: Global, viewers: Four<Viewer<N>>) -> Four<Looking<N>> {
    let (some, others) = viewers;
    (two_looking(alloc, some), two_looking(alloc, others))
}

fn two_looking<N: Naming>(
    alloc: Global,
    viewers: (Viewer<N>, Viewer<N>),
) -> (Looking<N>, Looking<N>) {
    let (one, two) = viewers;
    (
        Looking { alloc, viewer: one },
        Looking { alloc, viewer: two },
    )
}

// The tables that a reader sees, but for those that are as the one before.
fn look_often<N: Naming>(alloc: Global, viewer: Viewer<N>) -> Watched {
    let mut viewer = viewer;
    let mut tables: Vec<Table> = Vec::new(alloc);
    for _look in 0..LOOKS {
        let Some(table) = viewer.list() else { break };
        let is_new = match tables.as_slice().last() {
            Some(last) => last.as_slice() != table.as_slice(),
            None => true,
        };
        if is_new && tables.len() < TABLES {
            let _ = tables.push(table);
        }
    }
    Watched::new(tables)
}
