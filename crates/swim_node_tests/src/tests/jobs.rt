//! Jobs in threads. A function that gives a thread a closure with a seat or a node in it is proved slowly, so those
//! here do so for jobs of any type, and for them alone.

use super::Four;
use std::thread::{Threads, join};

/// What is done in a thread.
pub(crate) trait Job {
    /// What comes of it.
    type Done: Send;

    /// What is known of what comes of a job.
    ghost does: { Self → Self.Done → Type 0 };

    /// Does it.
    fn carry_out(self) -> Self::Done
        ensures { does self result };
}

/// Does two jobs at once.
pub(crate) fn both<R: Threads, A: Job + Send + Drop, B: Job + Send + Drop>(
    rt: &R,
    one: A,
    other: B,
) -> (A::Done, B::Done)
    ensures one { A.does one result.0 }
    ensures other { B.does other result.1 }
{
    join(
        rt,
        move || -> A::Done
            ensures { A.does one result }
        { one.carry_out() },
        move || -> B::Done
            ensures { B.does other result }
        { other.carry_out() },
    )
}

/// Does four jobs at once.
pub(crate) fn all_four<R: Threads + Sync, A: Job + Send + Drop>(
    rt: &R,
    jobs: Four<A>,
) -> Four<A::Done>
    ensures some { A.does jobs.0.0 result.0.0 × A.does jobs.0.1 result.0.1 }
    ensures others { A.does jobs.1.0 result.1.0 × A.does jobs.1.1 result.1.1 }
{
    let (some, others) = jobs;
    join(
        rt,
        move || -> (A::Done, A::Done)
            ensures { A.does some.0 result.0 × A.does some.1 result.1 }
        { both(rt, some.0, some.1) },
        move || -> (A::Done, A::Done)
            ensures { A.does others.0 result.0 × A.does others.1 result.1 }
        { both(rt, others.0, others.1) },
    )
}

/// Does four jobs and four others at once.
pub(crate) fn all_eight<R: Threads + Sync, A: Job + Send + Drop, B: Job + Send + Drop>(
    rt: &R,
    jobs: Four<A>,
    others: Four<B>,
) -> (Four<A::Done>, Four<B::Done>)
    ensures some { A.does jobs.0.0 result.0.0.0 × A.does jobs.0.1 result.0.0.1 }
    ensures others { A.does jobs.1.0 result.0.1.0 × A.does jobs.1.1 result.0.1.1 }
{
    join(
        rt,
        move || -> Four<A::Done>
            ensures { A.does jobs.0.0 result.0.0 × A.does jobs.0.1 result.0.1
                × A.does jobs.1.0 result.1.0 × A.does jobs.1.1 result.1.1 }
        { all_four(rt, jobs) },
        move || all_four(rt, others),
    )
}
