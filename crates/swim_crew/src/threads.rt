//! Two jobs at the same time: one in a thread of its own, and one in the thread that starts it.

ghost use Rattle.std.specs.Prelude.{◌≡◌, IfErr, IfOk};

use core::thread::Stack;
use std::sync::Wait;
use std::sync::atomic::{AtomicBool, Ordering};
use std::thread;
use std::thread::{Promise, PromisedHandle, Scope, SpawnError, Threads};

/// How many bytes the stack of a thread has: more than the deepest calls of a worker take.
const STACK_BYTES: usize = 524_288;

/// Runs `beside` in a thread of its own while `here` runs in this thread. Returns the results of both, and whether
/// there was a thread. The result of `beside` keeps the promise.
///
/// If there is no memory for a thread, `beside` runs after `here`, in this thread. If it is needed, the flag that ends
/// the others is set in that case before `here` runs.
pub(crate) fn run_beside<
    R: Threads + Wait + Sync,
    P: Promise<S> + Drop,
    F: FnOnce() -> S + Send,
    S: Send + Drop,
    G: FnOnce() -> T,
    T: Drop,
>(rt: &R, over: &AtomicBool, is_needed: bool, promise: P, beside: F, here: G) -> (S, T, bool)
    requires beside { F.pre beside }
    requires keeps { (r : S) → F.post beside r → P.kept_by promise r }
    requires here { G.pre here }
    ensures beside { P.kept_by promise result.0 }
    ensures here { G.post here result.1 }
{
    thread::scope(
        thread::scope_env(),
        rt,
        move |scope| -> (S, T, bool)
            requires { F.pre beside × ((r : S) → F.post beside r → P.kept_by promise r) × G.pre here }
            ensures beside { P.kept_by promise result.0 }
            ensures here { G.post here result.1 }
        {
            let began = begin(scope, promise, beside);
            let has_begun = began.is_ok();
            end_others(over, is_needed && !has_begun);
            let own = here();
            let other = match began {
                Ok(handle) => handle.join(rt),
                Err(refused) => (refused.value)(),
            };
            (other, own, has_begun)
        },
    )
}

/// Sets the flag that ends the others, if a job is missing.
fn end_others(over: &AtomicBool, is_missing: bool) {
    if is_missing {
        over.store(true, Ordering::SeqCst);
    }
}

/// Begins a job in a thread of this scope. Its stack has a size of its own, because the one that the limit of stacks
/// gives a thread may be too small. Hands the job back if there is no memory for the thread.
fn begin<'s, E, P: Promise<T> + Drop, F: FnOnce() -> T + Send + 's, T: Send + Drop + 's>(
    scope: &Scope<'s, E>,
    promise: P,
    job: F,
) -> Result<PromisedHandle<T, P>, SpawnError<F>>
    requires runs { F.pre job }
    requires keeps { (r : T) → F.post job r → P.kept_by promise r }
    ensures ok { IfOk result (λ handle. handle.promise ≡ promise) }
    ensures err { IfErr result (λ refused. refused.value ≡ job) }
{
    Stack::new()
        .stack_size(STACK_BYTES)
        .spawn_scoped_with(scope, promise, job)
}
