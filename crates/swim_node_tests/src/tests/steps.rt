//! What a seat asks of a node, as data: a test that writes down steps is proved soon, and one loop takes them.

ghost use Rattle.std.specs.Prelude.{◌≡◌};

use super::*;
use swim_history::Gap;

/// What a seat asks of its node, or what it finds.
#[derive(Drop)]
pub(crate) enum Step {
    /// A call that gets some reply.
    Made(Call),
    /// A call that gets this reply.
    Told(Call, Reply),
    /// A period: a start, the ack of member 1's probe of this member, with this number, and the two ticks after it.
    Acked(u32, u64),
    /// The widest gap of a member, if there is one.
    Gap(Id, Option<Gap>),
}

/// The seat takes these steps.
pub(crate) fn take_steps<N: Naming, R: Wait + Abort + Copy + Drop>(
    rt: &R,
    node: &Node<N, Scripted, R>,
    seat: Seat<N>,
    steps: &[Step],
) -> Seat<N>
    ensures { result.number ≡ seat.number }
{
    let mut seat = seat;
    for step in steps {
        take(rt, node, &mut seat, step);
    }
    seat
}

fn take<N: Naming, R: Wait + Abort + Copy + Drop>(
    rt: &R,
    node: &Node<N, Scripted, R>,
    seat: &mut Seat<N>,
    step: &Step,
)
    ensures { seat.new.number ≡ seat.old.number }
{
    match step {
        Step::Made(call) => assert_made(rt, make(rt, node, seat, call)),
        Step::Told(call, reply) => assert_told(rt, make(rt, node, seat, call), reply),
        Step::Acked(target, number) => take_period(rt, node, seat, *target, *number),
        Step::Gap(member, gap) => assert_gap(rt, node.gap(rt, seat, *member), gap),
    }
}

fn take_period<N: Naming, R: Wait + Abort + Copy + Drop>(
    rt: &R,
    node: &Node<N, Scripted, R>,
    seat: &mut Seat<N>,
    target: u32,
    number: u64,
)
    ensures { seat.new.number ≡ seat.old.number }
{
    let ack = Call::Hear(at(2), message(Kind::Ack, 1, target, number));
    assert_made(rt, make(rt, node, seat, &Call::Tick));
    assert_made(rt, make(rt, node, seat, &ack));
    assert_made(rt, make(rt, node, seat, &Call::Tick));
    assert_made(rt, make(rt, node, seat, &Call::Tick));
}

fn assert_gap<R: Abort>(rt: &R, gap: Option<Gap>, expected: &Option<Gap>) {
    assert_same(rt, &gap, expected);
}

fn assert_made<N: Naming, R: Abort>(rt: &R, answer: Result<Receipt<N>, CallFault>) {
    assert!(rt; answer.is_ok());
}

fn assert_told<N: Naming, R: Abort>(
    rt: &R,
    answer: Result<Receipt<N>, CallFault>,
    expected: &Reply,
) {
    match answer {
        Ok(receipt) => assert_same(rt, &receipt.reply, expected),
        Err(_) => panic!(rt; "a receipt"),
    }
}

/// The first two seats take these steps, one after the other.
#[derive(Drop)]
pub(crate) struct ByTwo<'s> {
    pub steps: &'s [Step],
    pub others_steps: &'s [Step],
}

impl<'s, R: Wait + Abort + Copy + Drop> Trial<R> for ByTwo<'s> {
    type Told = Journal;

    fn run<N: Naming>(self, rt: &R, opened: Opened<N, Scripted, R>) -> Journal
        requires listening { (opened.1.0.0.number ≡ 0) × (opened.1.0.1.number ≡ 1) }
        requires changing { (opened.1.1.0.number ≡ 2) × (opened.1.1.1.number ≡ 3) }
    {
        let (node, callers) = unseen(opened);
        let ((first, second), others) = callers;
        let first = take_steps(rt, &node, first, self.steps);
        let second = take_steps(rt, &node, second, self.others_steps);
        let (journal, callers) = close(rt, node, ((first, second), others));
        drop(callers);
        journal
    }
}
