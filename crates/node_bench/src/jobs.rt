//! Jobs in threads. A function that gives a thread a closure with a seat or a node in it is proved slowly, so those
//! here do so for jobs of any type, and for them alone.

use crate::fours::Four;
use std::sync::atomic::{AtomicBool, Ordering};
use std::thread::{Threads, join};

/// What is done in a thread.
pub(crate) trait Job {
    /// What comes of it.
    type Done: Send;

    fn carry_out(self) -> Self::Done;
}

/// Does two jobs at once.
pub(crate) fn both<R: Threads, A: Job + Send + Drop, B: Job + Send + Drop>(
    rt: &R,
    one: A,
    other: B,
) -> (A::Done, B::Done) {
    join(rt, move || one.carry_out(), move || other.carry_out())
}

/// Does four jobs at once.
pub(crate) fn all_four<R: Threads + Sync, A: Job + Send + Drop>(
    rt: &R,
    jobs: Four<A>,
) -> Four<A::Done> {
    let (some, others) = jobs;
    join(
        rt,
        move || both(rt, some.0, some.1),
        move || both(rt, others.0, others.1),
    )
}

/// Does a job, and four others at once beside it.
pub(crate) fn one_and_four<R: Threads + Sync, A: Job + Send + Drop, B: Job + Send + Drop>(
    rt: &R,
    one: A,
    others: Four<B>,
) -> (A::Done, Four<B::Done>) {
    join(rt, move || one.carry_out(), move || all_four(rt, others))
}

/// A job at whose end it is over for others.
#[derive(Drop)]
pub(crate) struct Ending<'o, A> {
    pub(crate) job: A,
    pub(crate) over: &'o AtomicBool,
}

impl<'o, A: Job> Job for Ending<'o, A> {
    type Done = A::Done;

    fn carry_out(self) -> A::Done {
        let Ending { job, over } = self;
        let done = job.carry_out();
        over.store(true, Ordering::SeqCst);
        done
    }
}
