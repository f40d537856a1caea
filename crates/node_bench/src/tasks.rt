//! What is to be measured.

ghost use Rattle.std.specs.Prelude.{◌≡◌, Some, IfSome, map};
ghost use Rattle.std.specs.String.{string_bytes};
ghost use Rattle.std.specs.Vec.Iter.{into_iter_items};
ghost use Rattle.node_bench.specs.declared.tasks.Task.{Task};
ghost use Rattle.node_bench.specs.Tasks.{Tells, limit_of, mode_of};

use std::env::Args;

/// What is done again and again.
#[derive(Clone, Copy)]
pub(crate) enum Mode {
    /// Nothing: the node is opened.
    Open,
    /// A detector without a node hears a ping.
    Record,
    /// A seat hears a ping; beside it one or three other seats do.
    Hear,
    /// A seat tells of a tick.
    Tick,
    /// A seat lets a member join, and leave again; beside it viewers list the table all the time.
    Change,
    /// A viewer lists the table; beside it a seat changes it all the time.
    List,
}

/// What is done, how often, and by how many threads beside the first.
#[derive(Clone, Copy)]
pub(crate) struct Task {
    pub(crate) mode: Mode,
    pub(crate) calls: u32,
    pub(crate) beside: u32,
    /// How many entries the journal may have.
    pub(crate) limit: u32,
}

impl Task {
    /// The task of a program's arguments, of which the first is its name.
    pub(crate) fn read(words: Args) -> Option<Task>
        ensures told { IfSome result (Tells (map string_bytes (into_iter_items words))) }
        ensures every { (task : Task) → Tells (map string_bytes (into_iter_items words)) task → result ≡ Some task }
    {
        let mut words = words;
        let _name = words.next()?;
        let mode = Mode::read(words.next()?.as_str())?;
        let calls = words.next()?.parse::<u32>().ok()?;
        let beside = words.next()?.parse::<u32>().ok()?;
        Some(Task {
            mode,
            calls,
            beside,
            limit: mode.limit(calls),
        })
    }
}

impl Mode {
    fn read(word: &str) -> Option<Mode>
        ensures { result ≡ mode_of word.now }
    {
        match word {
            "open" => Some(Mode::Open),
            "record" => Some(Mode::Record),
            "hear" => Some(Mode::Hear),
            "tick" => Some(Mode::Tick),
            "change" => Some(Mode::Change),
            "list" => Some(Mode::List),
            _ => None,
        }
    }

    /// How many entries the journal may have in which so many calls are made. Beside a viewer that lists so often a
    /// seat makes fewer changes than eight times as many.
    fn limit(self, calls: u32) -> u32
        ensures { result ≡ limit_of self calls }
    {
        match self {
            Mode::List => calls.saturating_mul(8),
            _ => calls,
        }
    }
}
