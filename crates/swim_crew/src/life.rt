//! A life: a node with its crew, until they have ended and it is closed.

ghost use Rattle.std.specs.Prelude.{◌≡◌, ◌≤◌, ◌<◌, [], ◌∷◌, length, Some, box_value};
ghost use Rattle.swim_history.specs.Changes.{changes};
ghost use Rattle.swim_node.specs.Following.{filings_of};
ghost use Rattle.swim_node.specs.News.{HaveSeen, SawNothing};
ghost use Rattle.swim_node.specs.OneHistory.{AreFullWhereMet, IsOneHistory};
ghost use Rattle.swim_node.specs.Seats.{AreNew, AreTheSeats};
ghost use Rattle.swim_work.specs.Callers.{fresh_seat};
ghost use Rattle.swim_crew.specs.Ends.{why_ended};
ghost use Rattle.swim_crew.specs.Life.{WorkedIn};

use crate::crews::{Crew, Seats, seats_of};
use crate::jobs::Read;
use crate::pasts::{Ends, Past};
use crate::working::{Over, work};
use std::alloc::Global;
use std::sync::Wait;
use std::thread::Threads;
use swim_node::{Naming, Node, Seat, Viewer};
use swim_targets::Seeded;
use swim_work::{Meters, Recorder, Why, Worker};

/// What a life leaves behind.
#[derive(Drop)]
pub struct Life<N: Naming, A: Worker, B: Worker, C: Worker, D: Recorder> {
    /// Its journal, and how it ended.
    pub past: Past,
    /// The seats of its node.
    pub seats: Seats<N>,
    /// Its crew.
    pub crew: Crew<A, B, C, D>,
}

/// Runs a node with its crew until one of the workers ends, and the others with it, and closes the node. Whatever the
/// crew is, and in whatever order their threads run: the journal is one run of the detector. Its calls are those of the
/// three workers, each of which did what it does with the calls of its own seat, and by the changes of the member table
/// that the journal makes; nobody called with the fourth seat. The recorder has recorded all of the journal.
pub fn run_life<
    N: Naming + Send + Sync,
    H: Wait + Drop + Send,
    R: Threads + Wait + Sync,
    A: Worker + Send,
    B: Worker + Send,
    C: Worker,
    D: Recorder + Send,
>(
    rt: &R,
    alloc: Global,
    node: Node<N, Seeded, H>,
    seats: [Seat<N>; 4],
    viewers: [Viewer<N>; 4],
    crew: Crew<A, B, C, D>,
) -> Life<N, A, B, C, D>
    requires seats { AreNew seats }
    requires viewers { SawNothing viewers }
    ensures opening { result.past.journal.opening ≡ N.opening }
    ensures within { length result.past.journal.past ≤ N.limit }
    ensures seats { let s = result.seats in AreTheSeats (s.first ∷ s.second ∷ s.third ∷ s.fourth ∷ []) }
    ensures history { let s = result.seats in IsOneHistory N.opening result.past.journal.past
        (s.first ∷ s.second ∷ s.third ∷ s.fourth ∷ []) (changes N.opening result.past.journal.past) }
    ensures met { let s = result.seats in AreFullWhereMet N.limit result.past.journal.past
        (s.first ∷ s.second ∷ s.third ∷ s.fourth ∷ []) }
    ensures drawn { N.drawn result.past.journal.past }
    ensures first { WorkedIn A.works N.opening N.limit result.past.journal.past (box_value crew.first)
        result.seats.first result.past.ends.first (box_value result.crew.first) }
    ensures second { WorkedIn B.works N.opening N.limit result.past.journal.past (box_value crew.second)
        result.seats.second result.past.ends.second (box_value result.crew.second) }
    ensures third { WorkedIn C.works N.opening N.limit result.past.journal.past (box_value crew.third)
        result.seats.third result.past.ends.third (box_value result.crew.third) }
    ensures fourth { result.seats.fourth ≡ fresh_seat 3 }
    ensures recorder { D.records (box_value crew.recorder) N.opening (filings_of result.past.journal.past)
        (box_value result.crew.recorder) }
    ensures why { result.past.why ≡ why_ended result.past.ends }
    ensures full { result.past.why ≡ Why.JournalFull → length result.past.journal.past ≡ N.limit }
{
    let meters = Meters::new();
    let over = work(rt, alloc, &node, &meters, seats, viewers, crew);
    closed(rt, node, &meters, over)
}

/// Closes the node after its crew has ended, and lets the recorder read the rest of the journal.
fn closed<N: Naming, H: Wait + Drop, R: Wait, A: Worker, B: Worker, C: Worker, D: Recorder>(
    rt: &R,
    node: Node<N, Seeded, H>,
    meters: &Meters,
    over: Over<N, A, B, C, D>,
) -> Life<N, A, B, C, D>
    requires first { (over.first.seat.number ≡ 0)
        × (over.first.end.why ≡ Some Why.JournalFull → 0 < over.first.seat.full) }
    requires second { (over.second.seat.number ≡ 1)
        × (over.second.end.why ≡ Some Why.JournalFull → 0 < over.second.seat.full) }
    requires third { (over.third.seat.number ≡ 2)
        × (over.third.end.why ≡ Some Why.JournalFull → 0 < over.third.seat.full) }
    requires fourth { over.fourth.number ≡ 3 }
    ensures opening { result.past.journal.opening ≡ N.opening }
    ensures within { length result.past.journal.past ≤ N.limit }
    ensures seats { let s = result.seats in AreTheSeats (s.first ∷ s.second ∷ s.third ∷ s.fourth ∷ []) }
    ensures history { let s = result.seats in IsOneHistory N.opening result.past.journal.past
        (s.first ∷ s.second ∷ s.third ∷ s.fourth ∷ []) (changes N.opening result.past.journal.past) }
    ensures met { let s = result.seats in AreFullWhereMet N.limit result.past.journal.past
        (s.first ∷ s.second ∷ s.third ∷ s.fourth ∷ []) }
    ensures drawn { N.drawn result.past.journal.past }
    ensures first { (result.seats.first ≡ over.first.seat) × (result.past.ends.first ≡ over.first.end)
        × (box_value result.crew.first ≡ box_value over.first.worker) }
    ensures second { (result.seats.second ≡ over.second.seat) × (result.past.ends.second ≡ over.second.end)
        × (box_value result.crew.second ≡ box_value over.second.worker) }
    ensures third { (result.seats.third ≡ over.third.seat) × (result.past.ends.third ≡ over.third.end)
        × (box_value result.crew.third ≡ box_value over.third.worker) }
    ensures fourth { result.seats.fourth ≡ over.fourth }
    ensures seen { HaveSeen (changes N.opening result.past.journal.past)
        (over.first.viewer ∷ over.second.viewer ∷ over.third.viewer ∷ []) }
    ensures recorder { (old : D) → D.records old N.opening over.read.follower (box_value over.read.recorder)
        → D.records old N.opening (filings_of result.past.journal.past) (box_value result.crew.recorder) }
    ensures why { result.past.why ≡ why_ended result.past.ends }
    ensures full { result.past.why ≡ Why.JournalFull → length result.past.journal.past ≡ N.limit }
{
    let Over {
        first,
        second,
        third,
        read,
        fourth,
        all_began,
    } = over;
    let Read { recorder, follower } = read;
    let mut recorder = recorder;
    let count = follower.len();
    let seats = [first.seat, second.seat, third.seat, fourth];
    let viewers = [first.viewer, second.viewer, third.viewer];
    let (journal, seats, _news) = node.close_followed(rt, seats, follower, &viewers);
    recorder.finish(rt, &journal, count, meters);
    let ends = Ends {
        first: first.end,
        second: second.end,
        third: third.end,
        all_began,
    };
    let why = ends.why();
    Life {
        past: Past { journal, why, ends },
        seats: seats_of(seats),
        crew: Crew {
            first: first.worker,
            second: second.worker,
            third: third.worker,
            recorder,
        },
    }
}
