//! The stack on which the program runs.

use std::io;
use std::thread::{Builder, JoinHandle, Threads};

/// How many bytes that stack has: more than the deepest calls of a daemon take.
const STACK_BYTES: usize = 2_097_152;

/// Begins a job on a stack of its own. The limit of stacks (`ulimit -s`) may leave the first thread too little, and the
/// system ends a program whose stack is full without a word. `Err` where no such stack is to be had: then the job isn't
/// run.
pub fn begin_on_own_stack<
    R: Threads,
    F: FnOnce() -> T + Send + Drop + 'static,
    T: Send + Drop + 'static,
>(rt: &R, job: F) -> io::Result<JoinHandle<T>>
    requires { F.pre job }
{
    Builder::new().stack_size(STACK_BYTES).spawn(rt, job)
}
