//! Seats that call a node at once, each in a thread of its own.

ghost use Rattle.std.specs.Prelude.{◌≡◌};

use super::*;
use swim_targets::Seeded;

/// What a seat asks again and again.
#[derive(Drop)]
pub(crate) enum Asked {
    /// Pings of member 2, with the numbers from 1 on.
    Pings,
    /// The same call.
    Same(Call),
    /// Calls that are drawn.
    Drawn(Draws),
}

impl Asked {
    // After so many others.
    fn next(&mut self, turn: u32) -> Call {
        match self {
            Asked::Pings => Call::Hear(at(2), message(Kind::Ping, 2, 1, u64::from(turn) + 1)),
            Asked::Same(call) => *call,
            Asked::Drawn(draws) => draws.call(),
        }
    }
}

/// What a seat asks, and how often.
#[derive(Drop)]
pub(crate) struct Work {
    /// What it asks.
    pub asked: Asked,
    /// So many calls.
    pub times: u32,
}

impl Work {
    /// That, so often.
    pub(crate) fn of(asked: Asked, times: u32) -> Work {
        Work { asked, times }
    }
}

/// A seat, and the work that it does.
#[derive(Drop)]
pub(crate) struct Working<'n, N: Naming, C: Chooser, R: Wait + Copy + Drop> {
    /// What it waits by.
    pub rt: R,
    /// Whom it calls.
    pub node: &'n Node<N, C, R>,
    /// By which seat.
    pub seat: Seat<N>,
    /// What it asks.
    pub work: Work,
}

// What is sent to a thread may not rest on `Chooser` as a bound, so there is one for each chooser.
impl<'n, N: Naming + Send + Sync, R: Wait + Copy + Drop> Job for Working<'n, N, Scripted, R> {
    type Done = Seat<N>;

    ghost does = { λ job seat. seat.number ≡ job.seat.number };

    fn carry_out(self) -> Seat<N> {
        let Working {
            rt,
            node,
            seat,
            work,
        } = self;
        do_work(&rt, node, seat, work)
    }
}

impl<'n, N: Naming + Send + Sync, R: Wait + Copy + Drop> Job for Working<'n, N, Seeded, R> {
    type Done = Seat<N>;

    ghost does = { λ job seat. seat.number ≡ job.seat.number };

    fn carry_out(self) -> Seat<N> {
        let Working {
            rt,
            node,
            seat,
            work,
        } = self;
        do_work(&rt, node, seat, work)
    }
}

/// Two seats, and the work of each.
pub(crate) fn two_working<'n, N: Naming, C: Chooser, R: Wait + Copy + Drop>(
    rt: R,
    node: &'n Node<N, C, R>,
    seats: (Seat<N>, Seat<N>),
    works: (Work, Work),
) -> (Working<'n, N, C, R>, Working<'n, N, C, R>)
    ensures first { result.0.seat ≡ seats.0 }
    ensures second { result.1.seat ≡ seats.1 }
{
    let (first, second) = seats;
    let (some, others) = works;
    let one = Working {
        rt,
        node,
        seat: first,
        work: some,
    };
    let other = Working {
        rt,
        node,
        seat: second,
        work: others,
    };
    (one, other)
}

/// Four seats, and the work of each.
pub(crate) fn four_working<'n, N: Naming, C: Chooser, R: Wait + Copy + Drop>(
    rt: R,
    node: &'n Node<N, C, R>,
    seats: Four<Seat<N>>,
    works: Four<Work>,
) -> Four<Working<'n, N, C, R>>
    ensures listening { (result.0.0.seat ≡ seats.0.0) × (result.0.1.seat ≡ seats.0.1) }
    ensures changing { (result.1.0.seat ≡ seats.1.0) × (result.1.1.seat ≡ seats.1.1) }
{
    let (listening, changing) = seats;
    let (some, others) = works;
    (
        two_working(rt, node, listening, some),
        two_working(rt, node, changing, others),
    )
}

/// Each of two seats does its work.
pub(crate) fn two_at_once<N: Naming + Send + Sync, R: Threads + Wait + Send + Sync + Copy + Drop>(
    rt: &R,
    node: &Node<N, Scripted, R>,
    seats: (Seat<N>, Seat<N>),
    works: (Work, Work),
) -> (Seat<N>, Seat<N>)
    ensures { (result.0.number ≡ seats.0.number) × (result.1.number ≡ seats.1.number) }
{
    let (one, other) = two_working(*rt, node, seats, works);
    both(rt, one, other)
}

/// Each of four seats does its work.
pub(crate) fn four_at_once<N: Naming + Send + Sync, R: Threads + Wait + Send + Sync + Copy + Drop>(
    rt: &R,
    node: &Node<N, Scripted, R>,
    seats: Four<Seat<N>>,
    works: Four<Work>,
) -> Four<Seat<N>>
    ensures listening { (result.0.0.number ≡ seats.0.0.number) × (result.0.1.number ≡ seats.0.1.number) }
    ensures changing { (result.1.0.number ≡ seats.1.0.number) × (result.1.1.number ≡ seats.1.1.number) }
{
    all_four(rt, four_working(*rt, node, seats, works))
}

fn do_work<N: Naming, C: Chooser, R: Wait + Copy + Drop>(
    rt: &R,
    node: &Node<N, C, R>,
    seat: Seat<N>,
    work: Work,
) -> Seat<N>
    ensures { result.number ≡ seat.number }
{
    let mut seat = seat;
    let mut asked = work.asked;
    for turn in 0..work.times {
        let call = asked.next(turn);
        let _ = make(rt, node, &mut seat, &call);
    }
    seat
}
