ghost use Rattle.std.specs.Prelude.{◌≡◌, List};
ghost use Rattle.swim_history.specs.declared.entries.Entry.{Entry};

use super::*;
use swim_history::{Judged, Refusal};

// One thread hears pings while another ticks. Members 2 and 3 never answer.
#[test]
fn two_threads(rt: HostRuntime) -> Result<(), Fail> {
    let opening = opening(1)?;
    let parts = Parts::make(rt.alloc(), 1000)?;
    two_in_threads::<Brand, _>(rt, rt.alloc(), parts, opening)?;
    Ok(())
}

fn two_in_threads<N: Naming + Send + Sync, R: Threads + Wait + Abort + Send + Sync + Copy + Drop>(
    rt: R,
    alloc: Global,
    parts: Parts,
    opening: Opening,
) -> Result<(), OpenFault>
    requires parts { parts ≡ record { limit = N.limit; ledgers = N.ledgers; log = N.log; cells = N.cells } }
    requires opening { opening ≡ N.opening }
    requires limit { N.limit ≡ 1000 }
    requires drawn { (h : List Entry) → N.drawn h }
{
    let opened = open::<N, Scripted, R>(rt, alloc, parts, opening, no_script(alloc), 1000)?;
    call_by_two(&rt, opened);
    Ok(())
}

fn call_by_two<N: Naming + Send + Sync, R: Threads + Wait + Abort + Send + Sync + Copy + Drop>(
    rt: &R,
    opened: Opened<N, Scripted, R>,
)
    requires listening { (opened.1.0.0.number ≡ 0) × (opened.1.0.1.number ≡ 1) }
    requires changing { (opened.1.1.0.number ≡ 2) × (opened.1.1.1.number ≡ 3) }
{
    let (node, callers) = unseen(opened);
    let (listening, others) = callers;
    let listening = two_at_once(rt, &node, listening, (pings(), ticks()));
    let (journal, callers) = close(rt, node, (listening, others));
    assert_two_called(rt, callers);
    assert_judged(rt, &journal);
}

fn pings() -> Work {
    Work::of(Asked::Pings, 100)
}

fn ticks() -> Work {
    Work::of(Asked::Same(Call::Tick), 90)
}

fn joins() -> Work {
    Work::of(Asked::Same(Call::Join(id(4), at(4))), 50)
}

fn removals() -> Work {
    Work::of(Asked::Same(Call::Remove(id(9))), 50)
}

fn assert_two_called<N: Naming, R: Abort>(rt: &R, callers: Four<Seat<N>>) {
    let ((first, second), _others) = &callers;
    assert_calls(rt, first, 0, 100);
    assert_calls(rt, second, 1, 90);
}

fn assert_judged<R: Abort>(rt: &R, journal: &Journal) {
    assert_same(rt, &journal.len(), &190);
    match journal.judgements() {
        Ok(judgements) => assert_same(rt, &judgements.as_slice(), &judged().as_slice()),
        Err(_) => panic!(rt; "memory"),
    }
}

fn judged() -> [Judged; 2] {
    [
        Judged {
            member: id(2),
            number: 1,
        },
        Judged {
            member: id(3),
            number: 2,
        },
    ]
}

// The seat's calls are numbered in order.
fn assert_calls<N: Naming, R: Abort>(rt: &R, seat: &Seat<N>, number: u8, count: usize) {
    assert_same(rt, &seat.number(), &number);
    assert_same(rt, &seat.calls().len(), &count);
    assert_in_order(rt, seat.calls());
}

fn assert_in_order<R: Abort>(rt: &R, calls: &[Kept]) {
    for (number, kept) in calls.iter().enumerate() {
        assert_same(rt, &(kept.number as usize), &number);
    }
}

// Four threads at once: pings, ticks, joins of a member that joined already, removals of one that nobody knows.
#[test]
fn four_threads(rt: HostRuntime) -> Result<(), Fail> {
    let opening = opening(1)?;
    let parts = Parts::make(rt.alloc(), 1000)?;
    four_in_threads::<Brand, _>(rt, rt.alloc(), parts, opening)?;
    Ok(())
}

fn four_in_threads<N: Naming + Send + Sync, R: Threads + Wait + Abort + Send + Sync + Copy + Drop>(
    rt: R,
    alloc: Global,
    parts: Parts,
    opening: Opening,
) -> Result<(), OpenFault>
    requires parts { parts ≡ record { limit = N.limit; ledgers = N.ledgers; log = N.log; cells = N.cells } }
    requires opening { opening ≡ N.opening }
    requires limit { N.limit ≡ 1000 }
    requires drawn { (h : List Entry) → N.drawn h }
{
    let opened = open::<N, Scripted, R>(rt, alloc, parts, opening, no_script(alloc), 1000)?;
    call_by_four(&rt, opened);
    Ok(())
}

fn call_by_four<N: Naming + Send + Sync, R: Threads + Wait + Abort + Send + Sync + Copy + Drop>(
    rt: &R,
    opened: Opened<N, Scripted, R>,
)
    requires listening { (opened.1.0.0.number ≡ 0) × (opened.1.0.1.number ≡ 1) }
    requires changing { (opened.1.1.0.number ≡ 2) × (opened.1.1.1.number ≡ 3) }
{
    let (node, callers) = unseen(opened);
    let callers = four_at_once(rt, &node, callers, four_works());
    let (journal, callers) = close(rt, node, callers);
    assert_four_called(rt, callers);
    assert_same(rt, &journal.len(), &290);
}

fn four_works() -> Four<Work> {
    ((pings(), ticks()), (joins(), removals()))
}

fn assert_four_called<N: Naming, R: Abort>(rt: &R, callers: Four<Seat<N>>) {
    let ((first, second), (third, fourth)) = &callers;
    assert_calls(rt, first, 0, 100);
    assert_calls(rt, second, 1, 90);
    assert_calls(rt, third, 2, 50);
    assert_calls(rt, fourth, 3, 50);
    assert_joined(rt, third);
    assert_unknown(rt, fourth);
}

fn assert_joined<N: Naming, R: Abort>(rt: &R, seat: &Seat<N>) {
    match seat.calls().first() {
        Some(first) => {
            assert!(rt; matches!(first.reply, Reply::Joined { place } if place <= 2));
        }
        None => panic!(rt; "a call"),
    }
}

fn assert_unknown<N: Naming, R: Abort>(rt: &R, seat: &Seat<N>) {
    for kept in seat.calls() {
        assert_same(rt, &kept.reply, &Reply::Refused(Refusal::Unknown));
    }
}
