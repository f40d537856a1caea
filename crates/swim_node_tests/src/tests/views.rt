ghost use Rattle.std.specs.Prelude.{◌≡◌};

use super::steps::{Step, take_steps};
use super::*;

// A member joins, and is listed by who learns of it; when the node is closed, nobody lists anything.
#[derive(Drop)]
struct Joining {}

impl<R: Wait + Abort + Copy + Drop> Trial<R> for Joining {
    type Told = ();

    fn run<N: Naming>(self, rt: &R, opened: Opened<N, Scripted, R>)
        requires listening { (opened.1.0.0.number ≡ 0) × (opened.1.0.1.number ≡ 1) }
        requires changing { (opened.1.1.0.number ≡ 2) × (opened.1.1.1.number ≡ 3) }
    {
        let (node, callers, readers) = opened;
        let ((first, second), (third, fourth)) = callers;
        let ((other, viewer), others) = readers;
        drop(others);
        let (third, viewer) = join_and_list(rt, &node, third, viewer);
        let first = take_steps(rt, &node, first, &[probes_the_joiner()]);
        let (journal, callers) = close(rt, node, ((first, second), (third, fourth)));
        drop(callers);
        lists_nothing(rt, other);
        lists_nothing(rt, viewer);
        assert_same(rt, &journal.len(), &2);
    }
}

#[test]
fn a_viewer_lists_a_join_it_learnt_of(rt: HostRuntime) -> Result<(), Fail> {
    let alloc = rt.alloc();
    try_on_node(rt, alloc, 1000, opening(1)?, no_script(alloc), Joining {})?;
    Ok(())
}

// Member 5 joins last in the round, and is seen at once by who learns of it, also later.
fn join_and_list<N: Naming, R: Wait + Abort + Copy + Drop>(
    rt: &R,
    node: &Node<N, Scripted, R>,
    seat: Seat<N>,
    viewer: Viewer<N>,
) -> (Seat<N>, Viewer<N>)
    ensures { result.0.number ≡ seat.number }
{
    let mut seat = seat;
    let mut viewer = viewer;
    let answer = make(rt, node, &mut seat, &Call::Join(id(5), at(5)));
    learn(rt, &mut viewer, answer, &Reply::Joined { place: 2 });
    assert_lists(rt, &mut viewer);
    assert_lists(rt, &mut viewer);
    (seat, viewer)
}

// The viewer learns of a call that was answered so.
fn learn<N: Naming, R: Abort>(
    rt: &R,
    viewer: &mut Viewer<N>,
    answer: Result<Receipt<N>, CallFault>,
    expected: &Reply,
) {
    match answer {
        Ok(receipt) => {
            assert_same(rt, &receipt.reply, expected);
            viewer.learn(&receipt.news);
        }
        Err(_) => panic!(rt; "a receipt"),
    }
}

fn assert_lists<N: Naming, R: Abort>(rt: &R, viewer: &mut Viewer<N>) {
    let rows = [up(2), up(3), up(5)];
    match viewer.list() {
        Some(table) => assert_same(rt, &table.as_slice(), &rows.as_slice()),
        None => panic!(rt; "a list"),
    }
    let mut table = Table::new();
    assert!(rt; viewer.look(&mut table));
    assert_same(rt, &table.as_slice(), &rows.as_slice());
}

// The joiner was put among those to be probed, so the first period probes it.
fn probes_the_joiner() -> Step {
    let probe = Probe {
        target: id(5),
        peer: at(5),
        number: 1,
    };
    let started = Reply::Started {
        judged: None,
        probe: Some(probe),
    };
    Step::Told(Call::Tick, started)
}

fn lists_nothing<N: Naming, R: Abort>(rt: &R, viewer: Viewer<N>) {
    let mut viewer = viewer;
    assert!(rt; viewer.list().is_none());
    let mut table = Table::new();
    table.push(up(9));
    assert!(rt; !viewer.look(&mut table));
    assert_same(rt, &table.as_slice(), &[up(9)].as_slice());
}

// A member joins, and the last call makes no change: who learns its news lists all that the journal's rows show.
#[derive(Drop)]
struct Waiting {}

impl<R: Wait + Abort + Copy + Drop> Trial<R> for Waiting {
    type Told = ();

    fn run<N: Naming>(self, rt: &R, opened: Opened<N, Scripted, R>)
        requires listening { (opened.1.0.0.number ≡ 0) × (opened.1.0.1.number ≡ 1) }
        requires changing { (opened.1.1.0.number ≡ 2) × (opened.1.1.1.number ≡ 3) }
    {
        let (node, callers, readers) = opened;
        let ((first, second), changing) = callers;
        let ((viewer, other), others) = readers;
        drop((other, others));
        let (first, table) = join_and_wait(rt, &node, first, viewer);
        let (journal, callers) = close(rt, node, ((first, second), changing));
        drop(callers);
        assert_shows(rt, &journal, &table);
    }
}

#[test]
fn the_last_news_shows_all(rt: HostRuntime) -> Result<(), Fail> {
    let alloc = rt.alloc();
    try_on_node(rt, alloc, 1000, opening(1)?, no_script(alloc), Waiting {})?;
    Ok(())
}

fn assert_shows<R: Abort>(rt: &R, journal: &Journal, table: &Table) {
    assert_same(rt, &journal.rows().as_slice(), &table.as_slice());
    assert_same(rt, &table.len(), &3);
}

// A period begins, a member joins, and two ticks pass, of which the last is quiet.
fn join_and_wait<N: Naming, R: Wait + Abort + Copy + Drop>(
    rt: &R,
    node: &Node<N, Scripted, R>,
    seat: Seat<N>,
    viewer: Viewer<N>,
) -> (Seat<N>, Table)
    ensures { result.0.number ≡ seat.number }
{
    let steps = [
        Step::Made(Call::Tick),
        Step::Made(Call::Tick),
        Step::Made(Call::Join(id(5), at(5))),
    ];
    let mut seat = take_steps(rt, node, seat, &steps);
    let mut viewer = viewer;
    let answer = make(rt, node, &mut seat, &Call::Tick);
    learn(rt, &mut viewer, answer, &Reply::Quiet);
    (seat, viewer.list().unwrap_or_default())
}
