//! What a worker and a recorder take into their threads, and what they bring back.

ghost use Rattle.std.specs.Prelude.{◌≡◌, [], box_value};
ghost use Rattle.swim_crew.specs.Working.{IsDone};

use std::alloc::Global;
use std::snapshot::Snapshot;
use std::sync::Wait;
use std::sync::atomic::{AtomicBool, Ordering};
use std::thread::Promise;
use swim_node::{Follower, Naming, Node, Seat, Viewer};
use swim_targets::Seeded;
use swim_work::{End, Meter, Meters, Recorder, Worker};

/// What a worker takes into its thread.
#[derive(Drop)]
pub(crate) struct Job<'n, 'o, 'm, N: Naming, H: Wait + Drop, A: Worker> {
    pub(crate) node: &'n Node<N, Seeded, H>,
    pub(crate) over: &'o AtomicBool,
    pub(crate) meter: &'m Meter,
    pub(crate) worker: Box<A>,
    pub(crate) seat: Seat<N>,
    pub(crate) viewer: Viewer<N>,
    ghost unseen: { viewer ≡ [] },
}

impl<'n, 'o, 'm, N: Naming, H: Wait + Drop, A: Worker> Job<'n, 'o, 'm, N, H, A> {
    /// The job of this worker at a node, with a seat of the node, and a viewer that has seen nothing.
    pub(crate) fn new(
        node: &'n Node<N, Seeded, H>,
        over: &'o AtomicBool,
        meter: &'m Meter,
        worker: Box<A>,
        seat: Seat<N>,
        viewer: Viewer<N>,
    ) -> Job<'n, 'o, 'm, N, H, A>
        requires { viewer ≡ [] }
        ensures worker { box_value result.worker ≡ box_value worker }
        ensures seat { result.seat ≡ seat }
    {
        Job {
            node,
            over,
            meter,
            worker,
            seat,
            viewer,
        }
    }
}

/// What a worker brings back.
#[derive(Drop)]
pub(crate) struct Worked<N: Naming, A: Worker> {
    pub(crate) worker: Box<A>,
    pub(crate) seat: Seat<N>,
    pub(crate) viewer: Viewer<N>,
    pub(crate) end: End,
}

/// A worker before its work, and the number of its seat. It promises that what comes back is that worker after its work
/// with that seat.
#[derive(Drop)]
pub(crate) struct Began<A> {
    pub(crate) worker: Snapshot<A>,
    pub(crate) number: u8,
}

impl<N: Naming, A: Worker> Promise<Worked<N, A>> for Began<A> {
    ghost use Rattle.std.specs.Prelude.{box_value};
    ghost use Rattle.swim_crew.specs.Working.{IsDone};

    ghost kept_by = { λ p r. IsDone A.works N.opening N.limit p.number p.worker.value r.seat r.viewer r.end
        (box_value r.worker) };
}

/// Lets a worker work, and then ends the others.
pub(crate) fn run_job<'n, 'o, 'm, N: Naming, H: Wait + Drop, A: Worker, R: Wait>(
    rt: &R,
    job: Job<'n, 'o, 'm, N, H, A>,
) -> Worked<N, A>
    requires { (job.seat.calls ≡ []) × (job.seat.full ≡ 0) }
    ensures { IsDone A.works N.opening N.limit job.entry.seat.number (box_value job.entry.worker) result.seat
        result.viewer result.end (box_value result.worker) }
{
    let Job {
        node,
        over,
        meter,
        worker,
        seat,
        viewer,
    } = job;
    let mut worker = worker;
    let done = worker.work(rt, node, over, seat, viewer, meter);
    over.store(true, Ordering::SeqCst);
    Worked {
        worker,
        seat: done.seat,
        viewer: done.viewer,
        end: done.end,
    }
}

/// What a recorder takes into its thread.
#[derive(Drop)]
pub(crate) struct Reading<'n, 'o, 'm, N: Naming, H: Wait + Drop, D: Recorder> {
    pub(crate) node: &'n Node<N, Seeded, H>,
    pub(crate) over: &'o AtomicBool,
    pub(crate) meters: &'m Meters,
    pub(crate) recorder: Box<D>,
    pub(crate) follower: Follower<N>,
}

impl<'n, 'o, 'm, N: Naming, H: Wait + Drop, D: Recorder> Reading<'n, 'o, 'm, N, H, D> {
    /// The job of this recorder at a node: it has read nothing yet.
    pub(crate) fn new(
        node: &'n Node<N, Seeded, H>,
        over: &'o AtomicBool,
        meters: &'m Meters,
        recorder: Box<D>,
        alloc: Global,
    ) -> Reading<'n, 'o, 'm, N, H, D>
        ensures recorder { box_value result.recorder ≡ box_value recorder }
        ensures follower { result.follower ≡ [] }
    {
        Reading {
            node,
            over,
            meters,
            recorder,
            follower: node.follower(alloc),
        }
    }
}

/// What a recorder brings back: its follower knows what was read.
#[derive(Drop)]
pub(crate) struct Read<N: Naming, D: Recorder> {
    pub(crate) recorder: Box<D>,
    pub(crate) follower: Follower<N>,
}

/// A recorder before it read anything. It promises that what comes back is that recorder after it read what its
/// follower knows.
#[derive(Drop)]
pub(crate) struct Opened<D> {
    pub(crate) recorder: Snapshot<D>,
}

impl<N: Naming, D: Recorder> Promise<Read<N, D>> for Opened<D> {
    ghost use Rattle.std.specs.Prelude.{box_value};

    ghost kept_by = { λ p r. D.records p.recorder.value N.opening r.follower (box_value r.recorder) };
}

/// Lets a recorder read until the life is over.
pub(crate) fn run_reading<'n, 'o, 'm, N: Naming, H: Wait + Drop, D: Recorder, R: Wait>(
    rt: &R,
    reading: Reading<'n, 'o, 'm, N, H, D>,
) -> Read<N, D>
    requires { reading.follower ≡ [] }
    ensures { D.records (box_value reading.entry.recorder) N.opening result.follower (box_value result.recorder) }
{
    let Reading {
        node,
        over,
        meters,
        recorder,
        follower,
    } = reading;
    let mut recorder = recorder;
    let follower = recorder.record(rt, node, over, meters, follower);
    Read { recorder, follower }
}
