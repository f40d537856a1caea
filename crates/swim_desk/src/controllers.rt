//! The controller: it serves the connections of a hall, each in its turn. It reads the shared flag once a turn.

ghost use Rattle.std.specs.Prelude.{◌≡◌, ◌<◌, Some};
ghost use Rattle.swim_desk.specs.Controlling.{HasControlled, IsControlTurn, at_control};

use crate::doors::Door;
use crate::halls::Hall;
use crate::node_desk::NodeDesk;
use crate::serving::serve_next;
use crate::speakers::Speaker;
use std::alloc::Global;
use std::sync::Wait;
use std::sync::atomic::{AtomicBool, Ordering};
use swim_node::{Naming, Node, Seat, Viewer};
use swim_targets::Seeded;
use swim_work::{Counts, Done, End, Faults, Meter, Why, Worker};

/// Lets operators in by the door of a hall, and serves all connections side by side. No reply to a control line sends a
/// datagram. The connections go on from life to life.
#[derive(Drop)]
pub struct Controller<D: Door + Drop, K: Speaker + Drop> {
    /// Where connections get their memory.
    pub alloc: Global,
    /// Where operators come in.
    pub hall: Hall<D>,
    /// By which operators are told what was counted, and people what is due.
    pub speaker: K,
}

impl<D: Door + Drop, K: Speaker + Drop> Worker for Controller<D, K> {
    ghost use Rattle.swim_desk.specs.Controlling.{ControlsLife};

    ghost works = { λ old o limit seat seen end new. ControlsLife o limit (D.faults old.hall.door)
        (D.faults new.hall.door) old.hall.connections seat seen end new.hall.connections };

    fn work<N: Naming, H: Wait + Drop, R: Wait>(
        &mut self,
        rt: &R,
        node: &Node<N, Seeded, H>,
        over: &AtomicBool,
        seat: Seat<N>,
        viewer: Viewer<N>,
        meter: &Meter,
    ) -> Done<N> {
        let mut controlling = Controlling {
            desk: NodeDesk::new(node, seat, viewer, &mut self.speaker),
            faults: Faults::none(),
        };
        let why = serve_on(
            rt,
            self.alloc,
            over,
            &mut controlling,
            &mut self.hall,
            meter,
        );
        controlling.desk.show(meter);
        done(controlling, why)
    }
}

/// What the controller is in a life: the desk of its node, and how many faults its door gave in a row.
#[derive(Drop)]
struct Controlling<'n, 'k, N: Naming, H: Wait + Drop, K> {
    desk: NodeDesk<'n, 'k, N, H, K>,
    faults: Faults,
}

/// Hands back the seat and the viewer.
fn done<N: Naming, H: Wait + Drop, K>(
    controlling: Controlling<'_, '_, N, H, K>,
    why: Option<Why>,
) -> Done<N>
    ensures seat { result.seat ≡ controlling.entry.desk.seat }
    ensures viewer { result.viewer ≡ controlling.entry.desk.seen }
    ensures end { result.end ≡ record {
      why = why;
      counts = record { unsent = 0; wire = 0; refused = controlling.entry.desk.refused };
    } }
{
    let Controlling { desk, faults: _ } = controlling;
    let (seat, viewer, refused) = desk.leave();
    let counts = Counts {
        refused,
        ..Counts::none()
    };
    Done {
        seat,
        viewer,
        end: End { why, counts },
    }
}

/// Serves until the life is over (`None`), or until the controller ends it, and why.
#[tactic(auto, using(crate::proofs::Controlled::none_controlled, crate::proofs::Controlled::more_controlled))]
fn serve_on<N: Naming, H: Wait + Drop, R: Wait, D: Door + Drop, K: Speaker>(
    rt: &R,
    alloc: Global,
    over: &AtomicBool,
    controlling: &mut Controlling<'_, '_, N, H, K>,
    hall: &mut Hall<D>,
    meter: &Meter,
) -> Option<Why>
    ensures controlled { HasControlled N.opening N.limit (D.faults hall.old.door) (D.faults hall.new.door)
        (at_control hall.old.connections controlling.old.desk controlling.old.faults.in_a_row) result
        (at_control hall.new.connections controlling.new.desk controlling.new.faults.in_a_row) }
    ensures number { controlling.new.desk.seat.number ≡ controlling.old.desk.seat.number }
    ensures full { result ≡ Some Why.JournalFull → 0 < controlling.new.desk.seat.full }
{
    for _turn in rt.forever() {
        if over.load(Ordering::SeqCst) {
            return None;
        }
        if let Some(end) = tell_and_serve(rt, alloc, controlling, hall, meter) {
            return Some(end);
        }
    }
    unreachable!()
}

/// Shows and tells what is to be told. Then a turn of the controller; why it ends, if it does.
fn tell_and_serve<N: Naming, H: Wait + Drop, R: Wait, D: Door + Drop, K: Speaker>(
    rt: &R,
    alloc: Global,
    controlling: &mut Controlling<'_, '_, N, H, K>,
    hall: &mut Hall<D>,
    meter: &Meter,
) -> Option<Why>
    ensures turn { IsControlTurn N.opening N.limit (D.faults hall.old.door) (D.faults hall.new.door)
        (at_control hall.old.connections controlling.old.desk controlling.old.faults.in_a_row) result
        (at_control hall.new.connections controlling.new.desk controlling.new.faults.in_a_row) }
    ensures number { controlling.new.desk.seat.number ≡ controlling.old.desk.seat.number }
    ensures full { result ≡ Some Why.JournalFull → 0 < controlling.new.desk.seat.full }
{
    let Controlling { desk, faults } = controlling;
    desk.show(meter);
    desk.tell(rt, hall.turned_away);
    serve_next(rt, alloc, desk, faults, hall)
}
