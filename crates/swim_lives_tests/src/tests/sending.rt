//! A datagram is handed over after the node's lock was given back.

ghost use Rattle.std.specs.Prelude.{None};

use super::gates::{NotingReader, NotingWriter};
use super::lives::assert_ended;
use super::*;
use arrayvec::ArrayVec;
use swim_desk::Knock;
use swim_doubles::Text;
use swim_text::Sink;

// What the post, the door and the answers tell each other: that a datagram was handed over, that the operator was
// answered, and that this was while the datagram was handed over.
#[derive(Drop)]
struct Marks {
    is_sending: AtomicBool,
    is_answered: AtomicBool,
    was_answered: AtomicBool,
}

impl Marks {
    fn new() -> Marks {
        Marks {
            is_sending: AtomicBool::new(false),
            is_answered: AtomicBool::new(false),
            was_answered: AtomicBool::new(false),
        }
    }
}

// A post that tells that it was handed a datagram, and is done with it when the operator was answered.
#[derive(Drop)]
struct SlowPost<'s, K: Clock + Copy + Drop> {
    clock: K,
    marks: &'s Marks,
}

impl<'s, K: Clock + Copy + Drop> Post for SlowPost<'s, K> {
    ghost posted = { λ post. None };

    fn fresh(&self) -> SlowPost<'s, K> {
        SlowPost {
            clock: self.clock,
            marks: self.marks,
        }
    }

    fn send<R: Wait>(&mut self, _rt: &R, _bytes: &[u8], _to: Peer) -> bool {
        set(&self.marks.is_sending);
        for _turn in 0..TURNS {
            if is_set(&self.marks.is_answered) {
                set(&self.marks.was_answered);
                break;
            }
            pause(&self.clock);
        }
        true
    }
}

// Where the answer goes. It tells at each flush whether it is the one that is expected, and no more.
#[derive(Drop)]
struct Expecting<'s> {
    is_answered: &'s AtomicBool,
    text: ArrayVec<u8, 128>,
}

impl<'s> Sink for Expecting<'s> {
    ghost written = { λ answers. None };

    ghost failures = { λ answers. 0 };

    ghost held = { λ answers. 0 };

    fn put(&mut self, text: &[u8]) -> bool {
        for byte in text {
            let _ = self.text.try_push(*byte);
        }
        true
    }

    fn flush(&mut self) -> bool {
        let is_expected = self.text.as_slice() == b"gap none\n".as_slice();
        self.is_answered.store(is_expected, Ordering::SeqCst);
        true
    }
}

// A door to which one operator comes when the post was handed a datagram, and asks what takes the lock.
#[derive(Drop)]
struct AskingDoor<'s, K: Clock + Drop> {
    clock: K,
    marks: &'s Marks,
    was_open: bool,
}

impl<'s, K: Clock + Drop> Door for AskingDoor<'s, K> {
    ghost faults = { λ door. None };

    type Reader = NotingReader<Text<'static>>;

    type Writer = NotingWriter<Expecting<'s>>;

    fn next<R: Wait>(
        &mut self,
        _rt: &R,
    ) -> Knock<NotingReader<Text<'static>>, NotingWriter<Expecting<'s>>> {
        if self.was_open || !is_set(&self.marks.is_sending) {
            return Knock::Idle;
        }
        self.was_open = true;
        let answers = Expecting {
            is_answered: &self.marks.is_answered,
            text: ArrayVec::new(),
        };
        let asks = NotingReader::over(Text::new(b"gap 2\n"));
        Knock::Conn(asks, NotingWriter::over(answers))
    }

    fn wait<R: Wait>(&mut self, _rt: &R) {
        pause(&self.clock);
    }

    fn now(&mut self) -> u64 {
        0
    }
}

// The ack of a ping is handed over, which lasts until the operator was answered. Then the life is stopped.
#[test]
fn sends_without_the_lock(rt: HostRuntime) -> Result<(), Fail> {
    let signals = Signals::new(true);
    let marks = Marks::new();
    let past = live_slowly(rt, rt.alloc(), &signals, &marks)?;
    assert_ended(&rt, past, Why::Stopped, 1, 0);
    assert!(rt; is_set(&marks.was_answered));
    Ok(())
}

fn live_slowly<'s, R: Threads + Wait + Clock + Send + Sync + Copy + Drop>(
    rt: R,
    alloc: Global,
    signals: &'s Signals,
    marks: &'s Marks,
) -> Result<Option<Past>, Fail> {
    let post = SlowPost { clock: rt, marks };
    let door = AskingDoor {
        clock: rt,
        marks,
        was_open: false,
    };
    let gates = (
        line(rt, signals, 0),
        post,
        pace(rt, &marks.was_answered, 0),
        door,
    );
    Ok(live_over(&rt, alloc, opening()?, 1000, gates)?)
}
