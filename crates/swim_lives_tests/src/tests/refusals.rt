//! A life that is refused memory. tests/node/refusals runs it with one request for memory refused, the first, the
//! second and so on; else none is. Where a call was refused, which is counted and made again, it writes a line.

ghost use Rattle.std.specs.Prelude.{None};
ghost use Rattle.swim_work.specs.Gates.{FitsInto};

use super::lives::assert_ended;
use super::*;

/// How many turns the pace waits for what may not come where memory was refused.
const PATIENCE: u32 = 10_000;

/// A line that gives its ping until the ack of it was handed to the post. It is idle until the list was answered, and
/// when the ack was sent.
#[derive(Drop)]
struct InsistentLine<'s, K: Clock + Drop> {
    clock: K,
    signals: &'s Signals,
}

impl<'s, K: Clock + Drop> Line for InsistentLine<'s, K> {
    ghost received = { λ line. None };

    ghost listed = { λ line. None };

    fn receive<R: Wait>(&mut self, _rt: &R, bytes: &mut [u8]) -> Got
        ensures { FitsInto result bytes.new }
    {
        pause(&self.clock);
        if !is_set(&self.signals.is_listed) || is_set(&self.signals.is_acked) {
            return Got::Idle;
        }
        match bytes.get_mut(..24) {
            Some(front) => {
                front.copy_from_slice(&PING);
                Got::Datagram(24, at(2))
            }
            None => Got::Fault,
        }
    }

    fn list(&mut self, _members: &[Peer]) {}
}

// An operator lists the members, then a ping comes until its ack was sent, and then the operator stops the life. Each
// wait ends by itself. `None`: there was no memory for the crew, or for a node.
fn insist<'s, R: Threads + Wait + Clock + Send + Sync + Copy + Drop>(
    rt: R,
    alloc: Global,
    opening: Opening,
    signals: &'s Signals,
) -> Option<Past> {
    let mut pace = pace(rt, &signals.is_stopping, 0);
    pace.turns = TURNS - PATIENCE;
    let line = InsistentLine { clock: rt, signals };
    let door = OneDoor {
        clock: rt,
        signals,
        was_open: false,
    };
    let gates = (line, post(signals), pace, door);
    live_over(&rt, alloc, opening, 1000, gates).ok().flatten()
}

// A refused call is counted, and the life goes on: the ping is heard when it comes again. Where a worker couldn't be
// started the life ends, and where no node was to be had it is opened again.
#[test]
fn a_life_goes_on(rt: HostRuntime) -> Result<(), Fail> {
    let signals = Signals::new(false);
    let Some(past) = insist(rt, rt.alloc(), opening()?, &signals) else {
        let again = Signals::new(false);
        let past = insist(rt, rt.alloc(), opening()?, &again);
        assert_ended(&rt, past, Why::Stopped, 1, 0);
        return Ok(());
    };
    let is_refused = past.refused() > 0;
    assert!(rt; past.refused() < 2);
    assert!(rt; past.why == Why::Stopped || (past.why == Why::NoMemory && !is_refused));
    assert!(rt; is_set(&signals.is_acked) || !is_refused);
    let heard = u32::from(is_set(&signals.is_acked));
    assert_same(&rt, &past.journal.len(), &heard);
    assert_same(&rt, &past.unsent(), &0);
    if is_refused {
        println!(rt; "a call was refused")?;
    }
    Ok(())
}
