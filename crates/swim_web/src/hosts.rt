//! The host: guests are let in, and served for good.

ghost use Rattle.std.specs.Prelude.{◌≡◌, ◌≤◌, ◌==◌, box_value};
ghost use Rattle.swim_web.specs.Asked.{OnlyLooks};
ghost use Rattle.swim_web.specs.Recent.{Notes};

use crate::daemons::Daemon;
use crate::guests::Guest;
use crate::limits::{GUESTS, most_for};
use crate::recent::listen;
use crate::rooms::Room;
use crate::services::Web;
use crate::shelves::Shelf;
use crate::tellers::Teller;
use mio::net::{TcpListener, TcpStream};
use mio::{Events, Interest, Poll, Token};
use std::alloc::Global;
use std::hash::RandomState;
use std::io;
use std::net::Net;
use std::random::RandomSource;
use std::rt::Clock;
use std::sync::Wait;
use std::time::{Duration, Instant};

/// How long the system is waited for, in milliseconds, if no guest has anything to do.
const WAIT_MS: u64 = 100;

/// How long a daemon that owed an answer isn't asked, in milliseconds. Each question that it doesn't answer makes all
/// guests wait.
const LATE_MS: u64 = 1_000;

/// Serves guests for good, up to an error of the system, which may refuse to say the time or to wait.
#[tactic(auto, using(crate::proofs::Looking::looks_none, crate::proofs::Listening::notes_none))]
pub fn run<R: Net + Clock + RandomSource + Wait, D: Daemon + Drop, S: Shelf + Drop, T: Teller>(
    rt: &R,
    alloc: Global,
    listener: &mut TcpListener,
    web: &mut Web<D, S>,
    teller: &mut T,
) -> io::Result<()>
    // Whatever comes in, the daemon is only looked at,
    ensures looks { OnlyLooks (D.asked (box_value web.old.daemon)) (D.asked (box_value web.new.daemon)) }

    // of the events that are heard the last are kept,
    ensures notes { Notes (T.heard teller.old) (T.heard teller.new) web.old.recent web.new.recent }

    // and the host has the names that it had.
    ensures names { web.new.names ≡ web.old.names }
{
    let mut poll = Poll::new(rt)?;
    let mut events = Events::with_capacity(alloc, GUESTS)?;
    poll.registry()
        .register(listener, Token(0), Interest::READABLE)?;
    let mut room = Room::new(alloc)?;
    let mut late_since = None;
    for _turn in rt.forever() {
        poll.poll(&mut events, Some(wait_for(&room)))?;
        let now = Instant::now(rt)?;
        take_turn(rt, listener, &poll, &mut room, web, teller, now);
        web.is_late = is_still_late(rt, web.is_late, &mut late_since);
    }
    unreachable!()
}

/// Has the turn that begins at this moment: what can be heard is noted, each guest has its turn, those whose connection
/// is over leave, and those who wait are let in, as long as there are places.
pub fn take_turn<R: RandomSource, D: Daemon + Drop, S: Shelf + Drop, T: Teller>(
    rt: &R,
    listener: &TcpListener,
    poll: &Poll,
    room: &mut Room,
    web: &mut Web<D, S>,
    teller: &mut T,
    now: Instant,
)
    // Whatever comes in, the daemon is only looked at,
    ensures looks { OnlyLooks (D.asked (box_value web.old.daemon)) (D.asked (box_value web.new.daemon)) }

    // of the events that are heard the last are kept,
    ensures notes { Notes (T.heard teller.old) (T.heard teller.new) web.old.recent web.new.recent }

    // the host has the names that it had,
    ensures names { web.new.names ≡ web.old.names }

    // and there are at most 32 guests. With so many all places are taken, and in the next turn connections are closed
    // behind their responses.
    ensures places { room.new ≤ 32 }
    ensures full { web.new.is_full ≡ (room.new == 32) }
{
    listen(teller, &mut web.recent);
    let most = most_for(web.is_full);
    room.take_turns(web, now, most);
    let_in(rt, web.alloc, listener, poll, room);
    web.is_full = room.is_full();
}

/// Returns how long the system may be waited for.
fn wait_for(room: &Room) -> Duration {
    if room.is_busy() {
        Duration::ZERO
    } else {
        Duration::from_millis(WAIT_MS)
    }
}

/// Returns whether a daemon that owed an answer isn't to be asked yet. `since` is since when that is known.
fn is_still_late<K: Clock>(clock: &K, was_late: bool, since: &mut Option<Instant>) -> bool {
    let from = if was_late { *since } else { None };
    *since = None;
    let Ok(now) = Instant::now(clock) else {
        return false;
    };
    let from = from.unwrap_or(now);
    let is_late = was_late && now.duration_since(from) < Duration::from_millis(LATE_MS);
    if is_late {
        *since = Some(from);
    }
    is_late
}

/// Lets in those who wait, as long as there are places.
fn let_in<R: RandomSource>(
    rt: &R,
    alloc: Global,
    listener: &TcpListener,
    poll: &Poll,
    room: &mut Room,
) {
    for _place in 0..GUESTS {
        if room.is_full() {
            return;
        }
        let Ok((stream, _address)) = listener.accept() else {
            return;
        };
        if let Some(guest) = guest_at(rt, alloc, poll, stream) {
            room.admit(guest);
        }
    }
}

/// Returns a guest with this stream, unless the system refuses to watch it, or to give random numbers.
fn guest_at<R: RandomSource>(
    rt: &R,
    alloc: Global,
    poll: &Poll,
    stream: TcpStream,
) -> Option<Guest> {
    let mut stream = stream;
    let both = Interest::READABLE | Interest::WRITABLE;
    poll.registry().register(&mut stream, Token(1), both).ok()?;
    let keys = RandomState::new(rt).ok()?;
    Some(Guest::new(alloc, keys, stream))
}
