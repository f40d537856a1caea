//! Calls a node as often as it is told, so that a measuring program can see what its calls cost, and writes how many
//! calls were answered. It has three arguments: what is done, how often, and by how many threads beside the first.
#![tactic(auto)]

mod calling;
mod fours;
mod jobs;
mod looking;
mod nodes;
mod recording;
mod tasks;
mod working;

use std::alloc::Global;
use std::env::{self, Args};
use std::io;
use std::marker::Brand;
use std::process::ExitCode;
use std::sync::Wait;
use std::thread::Threads;
use swim_node::Parts;
use tasks::{Mode, Task};

fn main(rt: HostRuntime) -> ExitCode {
    match told(&rt, rt.alloc(), env::args(&rt)) {
        Some(count) => match rt.println(count) {
            Ok(()) => ExitCode::SUCCESS,
            Err(_) => ExitCode::FAILURE,
        },
        None => {
            let _ = rt.eprintln("usage: node_bench open|record|tick|hear|change|list CALLS BESIDE");
            ExitCode::FAILURE
        }
    }
}

/// How many calls were answered. `None` where the arguments are none, or there is no memory.
fn told<R: Threads + Wait + Sync>(rt: &R, alloc: Global, words: io::Result<Args>) -> Option<u32> {
    let task = Task::read(words.ok()?)?;
    if task.mode == Mode::Record {
        return recording::record(alloc, task.calls);
    }
    let parts = Parts::make(alloc, task.limit).ok()?;
    working::work::<Brand, R>(rt, alloc, parts, nodes::opening()?, task)
}
