//! The crew of a life at work.

ghost use denote.Param.Send.{IsSend};
ghost use Rattle.std.specs.Prelude.{◌≡◌, [], box_value};
ghost use Rattle.swim_node.specs.News.{SawNothing};
ghost use Rattle.swim_node.specs.Seats.{AreNew};
ghost use Rattle.swim_crew.specs.Working.{IsDone, IsUncalled};

use crate::crews::Crew;
use crate::jobs::{Began, Job, Opened, Read, Reading, Worked, run_job, run_reading};
use crate::threads::run_beside;
use std::alloc::Global;
use std::snapshot::Snapshot;
use std::sync::Wait;
use std::sync::atomic::AtomicBool;
use std::thread::Threads;
use swim_node::{Naming, Node, Seat, Viewer};
use swim_targets::Seeded;
use swim_work::{Meters, Recorder, Worker};

/// What a crew brings back, the seat that nobody called with, and whether the first and the second worker got threads.
#[derive(Drop)]
pub(crate) struct Over<N: Naming, A: Worker, B: Worker, C: Worker, D: Recorder> {
    pub(crate) first: Worked<N, A>,
    pub(crate) second: Worked<N, B>,
    pub(crate) third: Worked<N, C>,
    pub(crate) read: Read<N, D>,
    pub(crate) fourth: Seat<N>,
    pub(crate) all_began: bool,
}

/// The seats of a node that nobody has called, each with its number.
fn new_seats<N: Naming>(seats: [Seat<N>; 4]) -> (Seat<N>, Seat<N>, Seat<N>, Seat<N>)
    requires { AreNew seats }
    ensures first { IsUncalled 0 result.0 }
    ensures second { IsUncalled 1 result.1 }
    ensures third { IsUncalled 2 result.2 }
    ensures fourth { IsUncalled 3 result.3 }
{
    let [one, two, three, fourth] = seats;
    (one, two, three, fourth)
}

/// The viewers of the three workers. Nobody looks through the fourth.
fn viewers_of<N: Naming>(viewers: [Viewer<N>; 4]) -> (Viewer<N>, Viewer<N>, Viewer<N>)
    requires { SawNothing viewers }
    ensures first { result.0 ≡ [] }
    ensures second { result.1 ≡ [] }
    ensures third { result.2 ≡ [] }
{
    let [first, second, third, _fourth] = viewers;
    (first, second, third)
}

/// Runs the crew at a node until all of them have ended. One of them ends the others.
pub(crate) fn work<
    N: Naming + Send + Sync,
    H: Wait + Drop + Send,
    R: Threads + Wait + Sync,
    A: Worker + Send,
    B: Worker + Send,
    C: Worker,
    D: Recorder + Send,
>(
    rt: &R,
    alloc: Global,
    node: &Node<N, Seeded, H>,
    meters: &Meters,
    seats: [Seat<N>; 4],
    viewers: [Viewer<N>; 4],
    crew: Crew<A, B, C, D>,
) -> Over<N, A, B, C, D>
    requires seats { AreNew seats }
    requires viewers { SawNothing viewers }
    ensures first { IsDone A.works N.opening N.limit 0 (box_value crew.first) result.first.seat result.first.viewer
        result.first.end (box_value result.first.worker) }
    ensures second { IsDone B.works N.opening N.limit 1 (box_value crew.second) result.second.seat result.second.viewer
        result.second.end (box_value result.second.worker) }
    ensures third { IsDone C.works N.opening N.limit 2 (box_value crew.third) result.third.seat result.third.viewer
        result.third.end (box_value result.third.worker) }
    ensures fourth { IsUncalled 3 result.fourth }
    ensures read { D.records (box_value crew.recorder) N.opening result.read.follower (box_value result.read.recorder) }
{
    let flag = AtomicBool::new(false);
    let over = &flag;
    let (one, two, three, fourth) = new_seats(seats);
    let (first_view, second_view, third_view) = viewers_of(viewers);
    let Crew {
        first,
        second,
        third,
        recorder,
    } = crew;
    let promise = Began {
        worker: Snapshot::of(&*first),
        number: 0,
    };
    let first = Job::new(node, over, &meters.first, first, one, first_view);
    let second = Job::new(node, over, &meters.second, second, two, second_view);
    let third = Job::new(node, over, &meters.third, third, three, third_view);
    let reading = Reading::new(node, over, meters, recorder, alloc);
    let (first, rest, has_begun) = run_beside(
        rt,
        over,
        true,
        promise,
        move || run_job(rt, first),
        move || -> Rest<N, B, C, D>
            requires { IsSend N.row × IsSend H.row × IsSend B.row × IsSend D.row × IsUncalled 1 second.seat
                × IsUncalled 2 third.seat × (reading.follower ≡ []) }
        { work_on(rt, over, second, third, reading) },
    );
    Over {
        first,
        second: rest.second,
        third: rest.third,
        read: rest.read,
        fourth,
        all_began: has_begun && rest.has_begun,
    }
}

/// What the second and the third worker and the recorder bring back, and whether the second got a thread.
#[derive(Drop)]
struct Rest<N: Naming, B: Worker, C: Worker, D: Recorder> {
    second: Worked<N, B>,
    third: Worked<N, C>,
    read: Read<N, D>,
    has_begun: bool,
}

/// Runs the second and the third worker and the recorder.
fn work_on<
    N: Naming + Send + Sync,
    H: Wait + Drop + Send,
    R: Threads + Wait + Sync,
    B: Worker + Send,
    C: Worker,
    D: Recorder + Send,
>(
    rt: &R,
    over: &AtomicBool,
    second: Job<N, H, B>,
    third: Job<N, H, C>,
    reading: Reading<N, H, D>,
) -> Rest<N, B, C, D>
    requires second { IsUncalled 1 second.seat }
    requires third { IsUncalled 2 third.seat }
    requires read { reading.follower ≡ [] }
    ensures second { IsDone B.works N.opening N.limit 1 (box_value second.entry.worker) result.second.seat
        result.second.viewer result.second.end (box_value result.second.worker) }
    ensures third { IsDone C.works N.opening N.limit 2 (box_value third.entry.worker) result.third.seat
        result.third.viewer result.third.end (box_value result.third.worker) }
    ensures read { D.records (box_value reading.entry.recorder) N.opening result.read.follower
        (box_value result.read.recorder) }
{
    let promise = Began {
        worker: Snapshot::of(&*second.worker),
        number: 1,
    };
    let (second, (third, read), has_begun) = run_beside(
        rt,
        over,
        true,
        promise,
        move || run_job(rt, second),
        move || -> (Worked<N, C>, Read<N, D>)
            requires { IsSend N.row × IsSend H.row × IsSend D.row × IsUncalled 2 third.seat × (reading.follower ≡ []) }
        { work_and_read(rt, over, third, reading) },
    );
    Rest {
        second,
        third,
        read,
        has_begun,
    }
}

/// Runs the third worker in this thread, and the recorder. A life goes on if the recorder gets no thread: what isn't
/// read of the journal while it grows is read once it is closed.
fn work_and_read<
    N: Naming + Send + Sync,
    H: Wait + Drop + Send,
    R: Threads + Wait + Sync,
    C: Worker,
    D: Recorder + Send,
>(
    rt: &R,
    over: &AtomicBool,
    third: Job<N, H, C>,
    reading: Reading<N, H, D>,
) -> (Worked<N, C>, Read<N, D>)
    requires third { IsUncalled 2 third.seat }
    requires read { reading.follower ≡ [] }
    ensures third { IsDone C.works N.opening N.limit 2 (box_value third.entry.worker) result.0.seat result.0.viewer
        result.0.end (box_value result.0.worker) }
    ensures read { D.records (box_value reading.entry.recorder) N.opening result.1.follower
        (box_value result.1.recorder) }
{
    let promise = Opened {
        recorder: Snapshot::of(&*reading.recorder),
    };
    let (read, third, _has_begun) = run_beside(
        rt,
        over,
        false,
        promise,
        move || run_reading(rt, reading),
        move || run_job(rt, third),
    );
    (third, read)
}
