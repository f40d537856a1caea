//! What is asked of a detector, as data: a test is proved in no time where it writes down steps, and one loop takes
//! them.

use super::*;
use swim_history::Change;

/// What seat 0 asks of a detector, or what it is found to know.
#[derive(Drop)]
pub enum Step {
    /// So many ticks, each of which gets some reply.
    Ticks(u32),
    /// A call that gets this reply.
    Told(Call, Reply),
    /// A call that would make this change now, or none.
    Changes(Call, Option<Change>),
    /// It knows these members, ascending by id.
    Knows(ArrayVec<Row, 3>),
    /// It began after the period of this number.
    Began(u64),
}

pub fn knows(rows: &[Row]) -> Step {
    let mut known = ArrayVec::new();
    for row in rows {
        let _ = known.try_push(*row);
    }
    Step::Knows(known)
}

/// Member 1, which asks so many relays and knows these others, takes these steps.
pub fn assert_steps<R: Abort>(rt: &R, alloc: Global, k: u32, others: &[u8], steps: &[Step]) {
    let mut recorder = recorder(rt, alloc, k, others, 1000);
    take_steps(rt, &mut recorder, steps);
}

/// A detector takes these steps.
pub fn take_steps<R: Abort>(rt: &R, recorder: &mut Recorder<Scripted>, steps: &[Step]) {
    for step in steps {
        take(rt, recorder, step);
    }
}

fn take<R: Abort>(rt: &R, recorder: &mut Recorder<Scripted>, step: &Step) {
    match step {
        Step::Ticks(count) => tick(rt, recorder, *count),
        Step::Told(call, reply) => assert_told(rt, recorder, *call, reply),
        Step::Changes(call, change) => assert_same(rt, &recorder.change(call), change),
        Step::Knows(rows) => assert_knows(rt, recorder, rows.as_slice()),
        Step::Began(number) => assert_began(rt, recorder, *number),
    }
}

fn assert_began<R: Abort>(rt: &R, recorder: &Recorder<Scripted>, number: u64) {
    assert_same(rt, &recorder.journal().opening().last(), &number);
}

fn tick<R: Abort>(rt: &R, recorder: &mut Recorder<Scripted>, count: u32) {
    for _turn in 0..count {
        assert!(rt; recorder.apply(0, Call::Tick).is_ok());
    }
}

fn assert_told<R: Abort>(rt: &R, recorder: &mut Recorder<Scripted>, call: Call, expected: &Reply) {
    match recorder.apply(0, call) {
        Ok(entry) => assert_same(rt, &entry.reply, expected),
        Err(_) => panic!(rt; "a reply"),
    }
}

fn assert_knows<R: Abort>(rt: &R, recorder: &Recorder<Scripted>, rows: &[Row]) {
    assert_same(rt, &recorder.table().as_slice(), &rows);
}
