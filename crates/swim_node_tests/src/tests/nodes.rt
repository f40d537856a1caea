//! Nodes that are opened and closed.

ghost use Rattle.std.specs.Prelude.{◌≡◌, IfOk, List};
ghost use Rattle.swim_history.specs.declared.entries.Entry.{Entry};
ghost use Rattle.swim_node.specs.Seats.{AreTheSeats};

use super::*;

/// Four values, two by two.
pub(crate) type Four<T> = ((T, T), (T, T));

/// The first and the second of four, and the third and the fourth.
pub(crate) fn two_by_two<T>(all: [T; 4]) -> Four<T> {
    let [first, second, third, fourth] = all;
    ((first, second), (third, fourth))
}

/// The seats of a node two by two, those that listen and those that change.
pub(crate) fn callers_of<N: Naming>(seats: [Seat<N>; 4]) -> Four<Seat<N>>
    requires { AreTheSeats seats }
    ensures listening { (result.0.0.number ≡ 0) × (result.0.1.number ≡ 1) }
    ensures changing { (result.1.0.number ≡ 2) × (result.1.1.number ≡ 3) }
{
    let [first, second, third, fourth] = seats;
    ((first, second), (third, fourth))
}

/// The seats in a row again, as `close` wants them.
pub(crate) fn seats_of<N: Naming>(callers: Four<Seat<N>>) -> [Seat<N>; 4]
    requires listening { (callers.0.0.number ≡ 0) × (callers.0.1.number ≡ 1) }
    requires changing { (callers.1.0.number ≡ 2) × (callers.1.1.number ≡ 3) }
    ensures { AreTheSeats result }
{
    let ((first, second), (third, fourth)) = callers;
    [first, second, third, fourth]
}

/// A node that was just opened, with its seats and its viewers.
pub(crate) type Opened<N, C, R> = (Node<N, C, R>, Four<Seat<N>>, Four<Viewer<N>>);

/// A node of these parts, with its seats and its viewers.
pub(crate) fn open<N: Naming, C: Chooser, R: Wait + Copy + Drop>(
    rt: R,
    alloc: Global,
    parts: Parts,
    opening: Opening,
    chooser: C,
    limit: u32,
) -> Result<Opened<N, C, R>, OpenFault>
    requires parts { parts ≡ record { limit = N.limit; ledgers = N.ledgers; log = N.log; cells = N.cells } }
    requires opening { opening ≡ N.opening }
    requires limit { limit ≡ N.limit }
    requires drawn { (h : List Entry) → N.drawn h }
    ensures { IfOk result (λ o. (o.1.0.0.number ≡ 0) × (o.1.0.1.number ≡ 1)
        × (o.1.1.0.number ≡ 2) × (o.1.1.1.number ≡ 3)) }
{
    let (node, seats, viewers) = Node::<N, C, R>::open(alloc, rt, parts, opening, chooser, limit)?;
    Ok((node, callers_of(seats), two_by_two(viewers)))
}

/// The same without its viewers.
pub(crate) fn unseen<N: Naming, C: Chooser, R: Wait + Copy + Drop>(
    opened: Opened<N, C, R>,
) -> (Node<N, C, R>, Four<Seat<N>>)
    ensures { result.1 ≡ opened.1 }
{
    let (node, callers, viewers) = opened;
    drop(viewers);
    (node, callers)
}

/// The journal of a node at its end, and its seats.
pub(crate) fn close<N: Naming, C: Chooser, R: Wait + Copy + Drop>(
    rt: &R,
    node: Node<N, C, R>,
    callers: Four<Seat<N>>,
) -> (Journal, Four<Seat<N>>)
    requires listening { (callers.0.0.number ≡ 0) × (callers.0.1.number ≡ 1) }
    requires changing { (callers.1.0.number ≡ 2) × (callers.1.1.number ≡ 3) }
{
    let (journal, seats, _news) = node.close(rt, seats_of(callers));
    (journal, two_by_two(seats))
}
