//! A turn of the controller: who comes is let in, and each connection has its turns.

ghost use Rattle.std.specs.Prelude.{◌≡◌, ◌<◌, ℕ, Some, Err, IfErr, IfSome};
ghost use Rattle.swim_desk.specs.Controlling.{IsControlTurn, LetsIn, Serves, ShutsOut, at_control};
ghost use Rattle.swim_desk.specs.Ending.{end_of, why_at};

use crate::doors::{Door, Knock};
use crate::halls::Hall;
use crate::node_desk::NodeDesk;
use crate::speakers::Speaker;
use std::alloc::Global;
use std::sync::Wait;
use swim_control::{Served, Stand};
use swim_node::Naming;
use swim_work::{Faults, Why};

/// How many rounds of turns there are for each time that the door and the clock are asked.
const ROUNDS: u32 = 16;

/// Takes in who came, and gives each connection its turns; why the controller ends, if it does. Where nothing came it
/// waits a moment.
#[tactic(auto, using(crate::proofs::Controlled::let_in_and_served, crate::proofs::Controlled::let_in_last))]
pub(crate) fn serve_next<N: Naming, H: Wait + Drop, R: Wait, D: Door + Drop, K: Speaker>(
    rt: &R,
    alloc: Global,
    desk: &mut NodeDesk<'_, '_, N, H, K>,
    faults: &mut Faults,
    hall: &mut Hall<D>,
) -> Option<Why>
    ensures turn { IsControlTurn N.opening N.limit (D.faults hall.old.door) (D.faults hall.new.door)
        (at_control hall.old.connections desk.old faults.old.in_a_row) result
        (at_control hall.new.connections desk.new faults.new.in_a_row) }
    ensures number { desk.new.seat.number ≡ desk.old.seat.number }
    ensures full { result ≡ Some Why.JournalFull → 0 < desk.new.seat.full }
{
    let is_there = match let_in(rt, alloc, faults, hall) {
        Ok(is_there) => is_there,
        Err(why) => return Some(why),
    };
    match serve_rounds(rt, alloc, desk, hall) {
        Ok(is_busy) => {
            rest(rt, hall, is_busy || is_there);
            None
        }
        Err(why) => Some(why),
    }
}

/// Waits a moment, unless something came.
fn rest<R: Wait, D: Door + Drop>(rt: &R, hall: &mut Hall<D>, is_busy: bool)
    ensures door { D.faults hall.new.door ≡ D.faults hall.old.door }
    ensures connections { hall.new.connections ≡ hall.old.connections }
{
    if !is_busy {
        hall.door.wait(rt);
    }
}

/// Takes in a connection, where there is a place and one has come: whether one has, or why the controller ends.
#[tactic(auto, using(crate::proofs::Controlled::lets_nobody_in, crate::proofs::Controlled::nobody_came, crate::proofs::Controlled::somebody_came, crate::proofs::Controlled::out_of_order))]
fn let_in<R: Wait, D: Door + Drop>(
    rt: &R,
    alloc: Global,
    faults: &mut Faults,
    hall: &mut Hall<D>,
) -> Result<bool, Why>
    ensures lets { LetsIn (D.faults hall.old.door) (D.faults hall.new.door) hall.old.connections faults.old.in_a_row
        (end_of result) hall.new.connections faults.new.in_a_row }
    ensures socket { IfErr result (λ why. why ≡ Why.Socket) }
{
    if hall.connections.is_full() {
        return Ok(false);
    }
    match hall.door.next(rt) {
        Knock::Conn(reader, writer) => {
            faults.clear();
            let now = hall.door.now();
            let _is_in = hall.connections.add(alloc, reader, writer, now);
            Ok(true)
        }
        Knock::Idle => {
            faults.clear();
            Ok(false)
        }
        Knock::Refused => {
            faults.clear();
            hall.turned_away = hall.turned_away.saturating_add(1);
            Ok(true)
        }
        Knock::Fault => match shut_out(faults, hall.connections.len()) {
            Some(why) => Err(why),
            None => Ok(false),
        },
    }
}

/// What comes of a fault of the door while so many connections are open. While there are some, operators are served, so
/// the fault doesn't count then, and the door is asked again.
fn shut_out(faults: &mut Faults, connections: usize) -> Option<Why>
    ensures shuts { ShutsOut connections faults.old.in_a_row result faults.new.in_a_row }
    ensures socket { IfSome result (λ why. why ≡ Why.Socket) }
{
    if connections > 0 {
        return None;
    }
    faults.more()
}

/// Turns of each connection, round after round while something comes of one: whether something came, or why the
/// controller ends. Neither the door nor the clock is asked between rounds, so that many short lines don't wait for
/// them.
#[tactic(auto, using(crate::proofs::Controlled::none_served))]
fn serve_rounds<N: Naming, H: Wait + Drop, R: Wait, D: Door + Drop, K: Speaker>(
    rt: &R,
    alloc: Global,
    desk: &mut NodeDesk<'_, '_, N, H, K>,
    hall: &mut Hall<D>,
) -> Result<bool, Why>
    ensures serves { (row : ℕ) → Serves N.opening N.limit (at_control hall.old.connections desk.old row) (end_of result)
        (at_control hall.new.connections desk.new row) }
    ensures number { desk.new.seat.number ≡ desk.old.seat.number }
    ensures full { result ≡ Err Why.JournalFull → 0 < desk.new.seat.full }
    ensures door { D.faults hall.new.door ≡ D.faults hall.old.door }
{
    let now = hall.door.now();
    for round in 0..ROUNDS {
        let is_up = match serve_each(rt, alloc, now, desk, hall) {
            Ok(is_up) => is_up,
            Err(why) => return Err(why),
        };
        if !is_up {
            return Ok(round > 0);
        }
    }
    Ok(true)
}

/// A turn of each connection: whether something came of one, or why the controller ends. The others have their turns
/// later then, maybe in the next life.
#[tactic(auto, using(crate::proofs::Controlled::none_served))]
fn serve_each<N: Naming, H: Wait + Drop, R: Wait, D: Door + Drop, K: Speaker>(
    rt: &R,
    alloc: Global,
    now: u64,
    desk: &mut NodeDesk<'_, '_, N, H, K>,
    hall: &mut Hall<D>,
) -> Result<bool, Why>
    ensures serves { (row : ℕ) → Serves N.opening N.limit (at_control hall.old.connections desk.old row) (end_of result)
        (at_control hall.new.connections desk.new row) }
    ensures number { desk.new.seat.number ≡ desk.old.seat.number }
    ensures full { result ≡ Err Why.JournalFull → 0 < desk.new.seat.full }
    ensures door { hall.new.door ≡ hall.old.door }
{
    let mut is_busy = false;
    for _place in 0..hall.connections.len() {
        let is_up = match serve_one(rt, alloc, now, desk, hall) {
            Ok(is_up) => is_up,
            Err(why) => return Err(why),
        };
        is_busy = is_busy || is_up;
    }
    Ok(is_busy)
}

/// The turn of one connection: whether something came of it, or why the controller ends.
#[tactic(auto, using(crate::proofs::Numbered::turned_same, crate::proofs::Controlled::no_turn))]
fn serve_one<N: Naming, H: Wait + Drop, R: Wait, D: Door + Drop, K: Speaker>(
    rt: &R,
    alloc: Global,
    now: u64,
    desk: &mut NodeDesk<'_, '_, N, H, K>,
    hall: &mut Hall<D>,
) -> Result<bool, Why>
    ensures serves { (row : ℕ) → Serves N.opening N.limit (at_control hall.old.connections desk.old row) (end_of result)
        (at_control hall.new.connections desk.new row) }
    ensures number { desk.new.seat.number ≡ desk.old.seat.number }
    ensures full { result ≡ Err Why.JournalFull → 0 < desk.new.seat.full }
    ensures door { hall.new.door ≡ hall.old.door }
{
    match hall.connections.turn(rt, alloc, now, desk) {
        None => Ok(false),
        Some(stand) => match why_at(stand) {
            Some(why) => Err(why),
            None => Ok(stand != Stand::Idle),
        },
    }
}

/// Why a life ends with a turn of a connection after which it stands so, if it does.
fn why_at(stand: Stand) -> Option<Why>
    ensures { result ≡ why_at stand }
{
    match stand {
        Stand::Ended(Served::Stopped) => Some(Why::Stopped),
        Stand::Ended(Served::JournalFull) => Some(Why::JournalFull),
        _ => None,
    }
}
