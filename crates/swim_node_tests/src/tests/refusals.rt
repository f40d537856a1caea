//! Calls that are refused memory. tests/node/refusals runs these with one request for memory refused, the first, the
//! second and so on; else none is. Whatever is refused changes nothing, and made again it is answered as where none was
//! refused. Where a test met a refusal of what it names, it writes a line.

ghost use Rattle.std.specs.Prelude.{◌≡◌};

use super::plans::*;
use super::*;

fn tell(rt: &HostRuntime, refused: Result<bool, Fail>) -> Result<(), Fail> {
    if refused? {
        println!(rt; "a call was refused")?;
    }
    Ok(())
}

#[test]
fn parts_are_made_again(rt: HostRuntime) -> Result<(), Fail> {
    let refused = Parts::make(rt.alloc(), 8).is_err();
    assert!(rt; !refused || Parts::make(rt.alloc(), 8).is_ok());
    tell(&rt, Ok(refused))
}

// Parts, opening and chooser are made anew, equal to the first.
#[test]
fn a_node_is_opened_again(rt: HostRuntime) -> Result<(), Fail> {
    let plan = Plan {
        limit: 8,
        entries: 0,
        changing: &[],
        listening: &[],
        full: &[],
        rows: &[up(2), up(3)],
    };
    tell(&rt, open_again(rt, rt.alloc(), &plan))
}

// Whether the first try was refused. The second one isn't.
fn open_again<R: Wait + Abort + Copy + Drop>(
    rt: R,
    alloc: Global,
    plan: &Plan,
) -> Result<bool, Fail> {
    let opened = open_and_call(rt, alloc, plan)?.is_some();
    assert!(rt; opened || open_and_call(rt, alloc, plan)? == Some(false));
    Ok(!opened)
}

#[test]
fn ticks_are_made_again(rt: HostRuntime) -> Result<(), Fail> {
    let (ticks, rows) = (four_ticks(), [failed(2, 1), up(3)]);
    let plan = Plan {
        limit: 8,
        entries: 4,
        changing: &[],
        listening: &ticks,
        full: &[],
        rows: &rows,
    };
    tell(&rt, make_again(rt, rt.alloc(), &plan))
}

#[test]
fn a_relayed_ack_is_heard_again(rt: HostRuntime) -> Result<(), Fail> {
    let (heard, rows) = (relayed_ack(), [up(2), up(3)]);
    let plan = Plan {
        limit: 8,
        entries: 3,
        changing: &[],
        listening: &heard,
        full: &[],
        rows: &rows,
    };
    tell(&rt, make_again(rt, rt.alloc(), &plan))
}

#[test]
fn a_join_is_made_again(rt: HostRuntime) -> Result<(), Fail> {
    let (joined, started) = ([join_of_5()], [probe_after_change(5)]);
    let rows = [up(2), up(3), up(5)];
    let plan = Plan {
        limit: 8,
        entries: 2,
        changing: &joined,
        listening: &started,
        full: &[],
        rows: &rows,
    };
    tell(&rt, make_again(rt, rt.alloc(), &plan))
}

#[test]
fn a_removal_is_made_again(rt: HostRuntime) -> Result<(), Fail> {
    let (removed, started) = ([removal_of_2()], [probe_after_change(3)]);
    let plan = Plan {
        limit: 8,
        entries: 2,
        changing: &removed,
        listening: &started,
        full: &[],
        rows: &[up(3)],
    };
    tell(&rt, make_again(rt, rt.alloc(), &plan))
}

// Whatever is refused: each call is answered that the journal is full.
#[test]
fn a_full_journal_is_told_without_memory(rt: HostRuntime) -> Result<(), Fail> {
    let [first, second, _, _] = four_ticks();
    let (ticks, rows) = ([first, second], [up(2), up(3)]);
    let plan = Plan {
        limit: 2,
        entries: 2,
        changing: &[],
        listening: &ticks,
        full: &each_call(),
        rows: &rows,
    };
    tell(&rt, make_again(rt, rt.alloc(), &plan))
}

// Whether a call was refused. Where no node was opened, as memory was refused to that, one is opened in a second try.
fn make_again<R: Wait + Abort + Copy + Drop>(
    rt: R,
    alloc: Global,
    plan: &Plan,
) -> Result<bool, Fail> {
    match open_and_call(rt, alloc, plan)? {
        Some(refused) => Ok(refused),
        None => {
            assert!(rt; open_and_call(rt, alloc, plan)? == Some(false));
            Ok(false)
        }
    }
}

// Whether a call was refused. None where no node was opened.
fn open_and_call<R: Wait + Abort + Copy + Drop>(
    rt: R,
    alloc: Global,
    plan: &Plan,
) -> Result<Option<bool>, Fail> {
    match try_on_node(
        rt,
        alloc,
        plan.limit,
        opening(1)?,
        no_script(alloc),
        Carried { plan },
    ) {
        Ok(refused) => Ok(Some(refused)),
        Err(fault) => {
            assert_same(&rt, &fault, &OpenFault::NoMemory);
            Ok(None)
        }
    }
}

// A plan that is carried out: the third seat changes, then the first one listens, and at last it meets a full journal.
#[derive(Drop)]
struct Carried<'p, 'a> {
    plan: &'p Plan<'a>,
}

impl<'p, 'a, R: Wait + Abort + Copy + Drop> Trial<R> for Carried<'p, 'a> {
    // Whether a call was refused.
    type Told = bool;

    fn run<N: Naming>(self, rt: &R, opened: Opened<N, Scripted, R>) -> bool
        requires listening { (opened.1.0.0.number ≡ 0) × (opened.1.0.1.number ≡ 1) }
        requires changing { (opened.1.1.0.number ≡ 2) × (opened.1.1.1.number ≡ 3) }
    {
        let plan = self.plan;
        let (node, callers, viewers) = opened;
        let ((first, second), (third, fourth)) = callers;
        let ((other, viewer), others) = viewers;
        drop((other, others));
        let (third, viewer, changing) = answer_all(rt, &node, third, viewer, plan.changing);
        let (first, viewer, listening) = answer_all(rt, &node, first, viewer, plan.listening);
        let (first, viewer) = meet_full(rt, &node, first, viewer, plan);
        assert_listed_twice(rt, viewer, plan.rows);
        let (journal, callers) = close(rt, node, ((first, second), (third, fourth)));
        drop(callers);
        assert_journal(rt, &journal, plan);
        changing || listening
    }
}

// Whether one of the calls was refused.
fn answer_all<N: Naming, R: Wait + Abort + Copy + Drop>(
    rt: &R,
    node: &Node<N, Scripted, R>,
    seat: Seat<N>,
    viewer: Viewer<N>,
    calls: &[Kept],
) -> (Seat<N>, Viewer<N>, bool)
    ensures { result.0.number ≡ seat.number }
{
    let (mut seat, mut viewer, mut refused) = (seat, viewer, false);
    for place in 0..calls.len() {
        let (before, wanted) = (&calls[..place], &calls[place]);
        refused = answer(rt, node, &mut seat, &mut viewer, before, wanted) || refused;
    }
    (seat, viewer, refused)
}

// The call is answered so, at once or after one refusal, which leaves the seat's calls and the table as they were.
fn answer<N: Naming, R: Wait + Abort + Copy + Drop>(
    rt: &R,
    node: &Node<N, Scripted, R>,
    seat: &mut Seat<N>,
    viewer: &mut Viewer<N>,
    before: &[Kept],
    wanted: &Kept,
) -> bool
    ensures { seat.new.number ≡ seat.old.number }
{
    let rows = listed(rt, viewer);
    let answered = make(rt, node, seat, &wanted.call);
    let refused = matches!(answered, Err(CallFault::NoMemory));
    if refused {
        assert_calls(rt, seat, before);
        assert_listed(rt, viewer, rows.as_slice());
        let again = make(rt, node, seat, &wanted.call);
        assert_receipt(rt, again, viewer, wanted);
    } else {
        assert_receipt(rt, answered, viewer, wanted);
    }
    refused
}

fn assert_receipt<N: Naming, R: Abort>(
    rt: &R,
    answer: Result<Receipt<N>, CallFault>,
    viewer: &mut Viewer<N>,
    wanted: &Kept,
) {
    match answer {
        Ok(receipt) => {
            assert_answered(rt, &receipt, wanted);
            viewer.learn(&receipt.news);
        }
        Err(_) => panic!(rt; "a receipt"),
    }
}

fn assert_answered<N: Naming, R: Abort>(rt: &R, receipt: &Receipt<N>, wanted: &Kept) {
    assert_same(rt, &receipt.position, &wanted.position);
    assert_same(rt, &receipt.number, &wanted.number);
    assert_same(rt, &receipt.call, &wanted.call);
    assert_same(rt, &receipt.reply, &wanted.reply);
}

// Each of the calls that meet a full journal is told so, and changes nothing.
fn meet_full<N: Naming, R: Wait + Abort + Copy + Drop>(
    rt: &R,
    node: &Node<N, Scripted, R>,
    seat: Seat<N>,
    viewer: Viewer<N>,
    plan: &Plan,
) -> (Seat<N>, Viewer<N>)
    ensures { result.0.number ≡ seat.number }
{
    let (mut seat, mut viewer) = (seat, viewer);
    for call in plan.full {
        assert_full(rt, make(rt, node, &mut seat, call));
        assert_calls(rt, &seat, plan.listening);
        assert_listed(rt, &mut viewer, plan.rows);
    }
    (seat, viewer)
}

// A call is refused, as the journal is full.
fn assert_full<N: Naming, R: Abort>(rt: &R, answer: Result<Receipt<N>, CallFault>) {
    assert!(rt; matches!(answer, Err(CallFault::JournalFull)));
}

fn listed<N: Naming, R: Abort>(rt: &R, viewer: &mut Viewer<N>) -> Table {
    match viewer.list() {
        Some(table) => table,
        None => panic!(rt; "a list"),
    }
}

fn assert_listed<N: Naming, R: Abort>(rt: &R, viewer: &mut Viewer<N>, rows: &[Row]) {
    assert_same(rt, &listed(rt, viewer).as_slice(), &rows);
}

fn assert_listed_twice<N: Naming, R: Abort>(rt: &R, viewer: Viewer<N>, rows: &[Row]) {
    let mut viewer = viewer;
    assert_listed(rt, &mut viewer, rows);
    assert_listed(rt, &mut viewer, rows);
}

// The seat was answered these calls, and no more.
fn assert_calls<N: Naming, R: Abort>(rt: &R, seat: &Seat<N>, wanted: &[Kept]) {
    let calls = seat.calls();
    assert_same(rt, &calls.len(), &wanted.len());
    for place in 0..calls.len() {
        let kept = &calls[place];
        assert!(rt; wanted.get(place).is_some_and(|it| is_same(kept, it)));
    }
}
