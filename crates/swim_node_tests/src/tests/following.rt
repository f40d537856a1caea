ghost use Rattle.std.specs.Prelude.{◌≡◌, List, true};
ghost use mathlib.Core.List.{IsPrefix};
ghost use Rattle.swim_history.specs.declared.entries.Entry.{Entry};
ghost use Rattle.swim_node.specs.Following.{filings_of};

use super::*;

// What was read of a journal, and who read it.
#[derive(Drop)]
struct Reading<N: Naming> {
    follower: Follower<N>,
    read: Vec<Followed>,
}

// One thread ticks while another reads what was called, and what comes later is read later: all of it was read.
#[test]
fn reading_while_ticking(rt: HostRuntime) -> Result<(), Fail> {
    follow(rt, rt.alloc(), 0)
}

// Calls that nobody read are no loss: the journal is handed back all the same.
#[test]
fn a_call_that_is_not_read(rt: HostRuntime) -> Result<(), Fail> {
    follow(rt, rt.alloc(), 1)
}

fn follow<R: Threads + Wait + Abort + Send + Sync + Copy + Drop>(
    rt: R,
    alloc: Global,
    unread: u32,
) -> Result<(), Fail> {
    let opening = opening(1)?;
    let parts = Parts::make(alloc, 1000)?;
    read_in_threads::<Brand, R>(rt, alloc, parts, opening, unread)?;
    Ok(())
}

fn read_in_threads<N: Naming + Send + Sync, R: Threads + Wait + Abort + Send + Sync + Copy + Drop>(
    rt: R,
    alloc: Global,
    parts: Parts,
    opening: Opening,
    unread: u32,
) -> Result<(), OpenFault>
    requires parts { parts ≡ record { limit = N.limit; ledgers = N.ledgers; log = N.log; cells = N.cells } }
    requires opening { opening ≡ N.opening }
    requires limit { N.limit ≡ 1000 }
    requires drawn { (h : List Entry) → N.drawn h }
{
    let opened = open::<N, Scripted, R>(rt, alloc, parts, opening, no_script(alloc), 1000)?;
    assert_closed(&rt, read_and_close(&rt, alloc, opened, unread), unread);
    Ok(())
}

// All but so many calls were read, and whether that is all is told.
fn assert_closed<R: Abort>(rt: &R, closed: (Journal, Vec<Followed>, bool), unread: u32) {
    let (journal, read, is_whole) = closed;
    assert_same(rt, &is_whole, &(unread == 0));
    assert_all_read(rt, &journal, read.as_slice(), unread);
}

fn assert_all_read<R: Abort>(rt: &R, journal: &Journal, read: &[Followed], unread: u32) {
    assert_same(rt, &read.len(), &90);
    assert_same(rt, &u64::from(journal.len()), &(90 + u64::from(unread)));
    assert_read(rt, journal, read);
}

fn read_and_close<N: Naming + Send + Sync, R: Threads + Wait + Send + Sync + Copy + Drop>(
    rt: &R,
    alloc: Global,
    opened: Opened<N, Scripted, R>,
    unread: u32,
) -> (Journal, Vec<Followed>, bool)
    requires listening { (opened.1.0.0.number ≡ 0) × (opened.1.0.1.number ≡ 1) }
    requires changing { (opened.1.1.0.number ≡ 2) × (opened.1.1.1.number ≡ 3) }
{
    let (node, callers, readers) = opened;
    let (looking, others) = readers;
    drop(others);
    let reading = Reading {
        follower: node.follower(alloc),
        read: Vec::new(alloc),
    };
    let ((first, second), others) = callers;
    let (first, reading) = tick_and_read(rt, &node, first, reading);
    let reading = read_often(rt, &node, reading, 100);
    let first = tick_often(rt, &node, first, unread);
    close_read(rt, node, ((first, second), others), reading, looking)
}

// A seat that ticks so often.
#[derive(Drop)]
struct Ticking<'n, N: Naming, R: Wait + Copy + Drop> {
    rt: R,
    node: &'n Node<N, Scripted, R>,
    seat: Seat<N>,
    times: u32,
}

impl<'n, N: Naming + Send + Sync, R: Wait + Copy + Drop> Job for Ticking<'n, N, R> {
    type Done = Seat<N>;

    ghost does = { λ job seat. seat.number ≡ job.seat.number };

    fn carry_out(self) -> Seat<N> {
        let Ticking {
            rt,
            node,
            seat,
            times,
        } = self;
        tick_often(&rt, node, seat, times)
    }
}

// Who reads so often what comes next.
#[derive(Drop)]
struct Following<'n, N: Naming, R: Wait + Copy + Drop> {
    rt: R,
    node: &'n Node<N, Scripted, R>,
    reading: Reading<N>,
    times: u32,
}

impl<'n, N: Naming + Send + Sync, R: Wait + Copy + Drop> Job for Following<'n, N, R> {
    type Done = Reading<N>;

    ghost does = { λ job reading. Unit {0} };

    fn carry_out(self) -> Reading<N> {
        let Following {
            rt,
            node,
            reading,
            times,
        } = self;
        read_often(&rt, node, reading, times)
    }
}

fn tick_and_read<N: Naming + Send + Sync, R: Threads + Wait + Send + Sync + Copy + Drop>(
    rt: &R,
    node: &Node<N, Scripted, R>,
    first: Seat<N>,
    reading: Reading<N>,
) -> (Seat<N>, Reading<N>)
    ensures { result.0.number ≡ first.number }
{
    let ticking = Ticking {
        rt: *rt,
        node,
        seat: first,
        times: 90,
    };
    let following = Following {
        rt: *rt,
        node,
        reading,
        times: 200,
    };
    both(rt, ticking, following)
}

fn tick_often<N: Naming, R: Wait + Copy + Drop>(
    rt: &R,
    node: &Node<N, Scripted, R>,
    seat: Seat<N>,
    times: u32,
) -> Seat<N>
    ensures { result.number ≡ seat.number }
{
    let mut seat = seat;
    for _turn in 0..times {
        let _ = node.tick(rt, &mut seat);
    }
    seat
}

fn read_often<N: Naming, R: Wait + Copy + Drop>(
    rt: &R,
    node: &Node<N, Scripted, R>,
    reading: Reading<N>,
    times: u32,
) -> Reading<N> {
    let mut reading = reading;
    for _turn in 0..times {
        if let Some(next) = node.follow(rt, &mut reading.follower) {
            let _is_kept = reading.read.push(next);
        }
    }
    reading
}

// The journal at its end, what was read before, and whether that is all of it. One of the viewers has looked.
fn close_read<N: Naming, R: Wait + Copy + Drop>(
    rt: &R,
    node: Node<N, Scripted, R>,
    callers: Four<Seat<N>>,
    reading: Reading<N>,
    viewers: (Viewer<N>, Viewer<N>),
) -> (Journal, Vec<Followed>, bool)
    requires listening { (callers.0.0.number ≡ 0) × (callers.0.1.number ≡ 1) }
    requires changing { (callers.1.0.number ≡ 2) × (callers.1.1.number ≡ 3) }
    ensures begins { IsPrefix reading.follower (filings_of result.0.past) }
    ensures whole { result.2 ≡ true → reading.follower ≡ filings_of result.0.past }
{
    let Reading { follower, read } = reading;
    let count = follower.len();
    let (looking, other) = viewers;
    let mut looking = looking;
    let _table = looking.list();
    let viewers = [looking, other];
    let (journal, _seats, _news) = node.close_followed(rt, seats_of(callers), follower, &viewers);
    let is_whole = journal.len() as usize == count;
    (journal, read, is_whole)
}

// What was read are the journal's first entries.
fn assert_read<R: Abort>(rt: &R, journal: &Journal, read: &[Followed]) {
    for (place, followed) in read.iter().enumerate() {
        assert_same(rt, &(followed.kept.position as usize), &place);
        match journal.entry(followed.kept.position) {
            Some(entry) => assert_is(rt, followed, &entry),
            None => panic!(rt; "no entry"),
        }
    }
}

fn assert_is<R: Abort>(rt: &R, followed: &Followed, entry: &swim_history::Entry) {
    assert_same(rt, &followed.seat, &entry.seat);
    assert_same(rt, &followed.kept.number, &entry.number);
    assert_same(rt, &followed.kept.call, &entry.call);
    assert_same(rt, &followed.kept.reply, &entry.reply);
}
