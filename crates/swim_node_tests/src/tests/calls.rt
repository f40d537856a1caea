//! What a seat asks of its node.

ghost use Rattle.std.specs.Prelude.{◌≡◌};

use super::*;

/// A call of the seat, made by the node's function for it.
pub(crate) fn make<N: Naming, C: Chooser, R: Wait + Copy + Drop>(
    rt: &R,
    node: &Node<N, C, R>,
    seat: &mut Seat<N>,
    call: &Call,
) -> Result<Receipt<N>, CallFault>
    ensures { seat.new.number ≡ seat.old.number }
{
    match call {
        Call::Tick => node.tick(rt, seat),
        Call::Hear(source, message) => node.hear(rt, seat, encode(message).as_slice(), *source),
        Call::Join(id, peer) => node.join(rt, seat, *id, *peer),
        Call::Remove(id) => node.remove(rt, seat, *id),
    }
}
