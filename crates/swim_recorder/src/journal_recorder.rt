//! The journal recorder: who reads the journal of each life while it goes on.

ghost use Rattle.std.specs.Prelude.{◌≡◌, ◌++◌, ◌∷◌, [], List, None, take};
ghost use Rattle.swim_history.specs.Setting.{Setting};
ghost use Rattle.swim_node.specs.Cells.{Filing};
ghost use Rattle.swim_node.specs.Following.{filings_of};
ghost use Rattle.swim_recorder.specs.Recording.{IsRecording, Keeps, at_recorder};
ghost use Rattle.swim_recorder.specs.Transcripts.{AllSent};

use crate::entries::call_at;
use crate::guests::serve;
use crate::reporters::{Reporter, Standing};
use crate::transcripts::{Transcript, hand_on, write_call};
use std::alloc::Global;
use std::sync::Wait;
use std::sync::atomic::{AtomicBool, Ordering};
use swim_events::{Entrance, Event, Gallery, Outlet, Watching, tell_next};
use swim_history::{Journal, Opening};
use swim_node::{Followed, Follower, Naming, Node};
use swim_targets::Seeded;
use swim_text::Sink;
use swim_work::{Beat, Meters, Pace, Recorder};

/// The most calls that are read at a time, so that a step comes to an end however fast they are made.
const STEP_CALLS: u32 = 1024;

/// Reads the journal of each life while it goes on: at each tick of its pace what was added to it, which it writes down,
/// tells those who watch, and has its reporter hear of; at each beat it takes in who has come to watch, and sends. It
/// goes on from life to life with all that it owns; between them the number and the transcript of the next one are put
/// in.
#[derive(Drop)]
pub struct JournalRecorder<
    W: Sink + Drop,
    Q: Pace + Drop,
    E: Outlet + Drop,
    I: Entrance<E> + Drop,
    Y: Reporter + Drop,
> {
    /// The number of the life, counted from 0.
    pub number: u64,
    /// Where its journal is written, if it is.
    pub transcript: Option<Transcript<W>>,
    pub pause: Q,
    /// Those who watch.
    pub gallery: Gallery<E>,
    /// Where others come in to watch.
    pub entrance: I,
    pub reporter: Y,
    watching: Watching,
    // How many calls of this life were read.
    read: u64,
    // How many of those who watched in this life didn't keep up.
    lost: u64,
    alloc: Global,
}

impl<
    W: Sink + Drop,
    Q: Pace + Drop,
    E: Outlet + Drop,
    I: Entrance<E> + Drop,
    Y: Reporter + Drop,
> JournalRecorder<W, Q, E, I, Y> {
    /// It has recorded no life yet. The first begins with this opening, and its journal is written nowhere until a
    /// transcript is put in.
    pub fn new(
        alloc: Global,
        opening: &Opening,
        pause: Q,
        gallery: Gallery<E>,
        entrance: I,
        reporter: Y,
    ) -> JournalRecorder<W, Q, E, I, Y>
        ensures number { result.number ≡ 0 }
        ensures transcript { result.transcript ≡ None }
        ensures gallery { result.gallery ≡ gallery }
        ensures reporter { result.reporter ≡ reporter }
    {
        JournalRecorder {
            number: 0,
            transcript: None,
            pause,
            gallery,
            entrance,
            reporter,
            watching: Watching::new(opening),
            read: 0,
            lost: 0,
            alloc,
        }
    }

    /// A life begins: those who watch are told its number, and the reporter hears of it.
    fn begin(&mut self, opening: &Opening)
        ensures { (o : Setting) (read : List Filing) → opening.now ≡ o → read ≡ []
            → IsRecording W.written self.old.number o read (at_recorder Y.heard self.old) (at_recorder Y.heard self.new) }
    {
        let watching = Watching::new(opening);
        self.watching = watching;
        self.gallery.tell(&Event::Life(self.number));
        self.reporter.begins(opening);
        self.read = 0;
        self.lost = 0;
    }

    /// Reads until the flag says that the life is over, or where the pace tells it to stop.
    fn record_on<N: Naming, H: Wait + Drop, R: Wait>(
        &mut self,
        rt: &R,
        node: &Node<N, Seeded, H>,
        over: &AtomicBool,
        meters: &Meters,
        follower: &mut Follower<N>,
    )
        ensures { Keeps W.written (at_recorder Y.heard self.old) follower.old (at_recorder Y.heard self.new) follower.new }
    {
        let mut is_more = false;
        for _turn in rt.forever() {
            if over.load(Ordering::SeqCst) {
                return;
            }
            let Some(more) = self.turn(rt, node, meters, follower, is_more) else {
                return;
            };
            is_more = more;
            self.serve();
        }
        unreachable!()
    }

    /// The turn of the next beat, at which it reads or doesn't: whether more may stand in the journal. `None` where the
    /// pace tells it to stop.
    fn turn<N: Naming, H: Wait + Drop, R: Wait>(
        &mut self,
        rt: &R,
        node: &Node<N, Seeded, H>,
        meters: &Meters,
        follower: &mut Follower<N>,
        is_more: bool,
    ) -> Option<bool>
        ensures { Keeps W.written (at_recorder Y.heard self.old) follower.old (at_recorder Y.heard self.new) follower.new }
    {
        match next_beat(rt, is_more, &mut self.pause) {
            Beat::Tick => Some(self.step(rt, node, meters, follower)),
            Beat::Idle => Some(false),
            Beat::Stop => None,
        }
    }

    /// Reads what was added to the journal since the last time, at most 1,024 calls, and hands on what was written. It
    /// answers whether more may stand there.
    fn step<N: Naming, H: Wait + Drop, R: Wait>(
        &mut self,
        rt: &R,
        node: &Node<N, Seeded, H>,
        meters: &Meters,
        follower: &mut Follower<N>,
    ) -> bool
        ensures { Keeps W.written (at_recorder Y.heard self.old) follower.old (at_recorder Y.heard self.new) follower.new }
    {
        let losing = self.gallery.losing();
        let is_more = self.read_on(rt, node, follower);
        self.rest(rt, meters, losing);
        is_more
    }

    /// Reads at most 1,024 calls, and answers whether more may stand in the journal.
    fn read_on<N: Naming, H: Wait + Drop, R: Wait>(
        &mut self,
        rt: &R,
        node: &Node<N, Seeded, H>,
        follower: &mut Follower<N>,
    ) -> bool
        ensures { Keeps W.written (at_recorder Y.heard self.old) follower.old (at_recorder Y.heard self.new) follower.new }
    {
        for _call in 0..STEP_CALLS {
            if !self.read_next(rt, node, follower) {
                return false;
            }
        }
        true
    }

    /// Reads a call: whether there was one.
    fn read_next<N: Naming, H: Wait + Drop, R: Wait>(
        &mut self,
        rt: &R,
        node: &Node<N, Seeded, H>,
        follower: &mut Follower<N>,
    ) -> bool
        ensures { Keeps W.written (at_recorder Y.heard self.old) follower.old (at_recorder Y.heard self.new) follower.new }
    {
        let Some(next) = node.follow(rt, follower) else {
            return false;
        };
        self.record_call(rt, &next);
        true
    }

    /// Reads the calls of a journal from this place on, all of them.
    fn read_rest<R: Wait>(&mut self, rt: &R, journal: &Journal, read: usize)
        ensures { Keeps W.written (at_recorder Y.heard self.old) (take read (filings_of journal.now.past))
            (at_recorder Y.heard self.new) (filings_of journal.now.past) }
    {
        let entries = journal.len() as usize;
        for place in read..entries {
            let Some(call) = call_at(journal, place) else {
                return;
            };
            self.record_call(rt, &call);
        }
    }

    /// Writes a call, tells what it changes, and has the reporter hear of it.
    fn record_call<R: Wait>(&mut self, rt: &R, next: &Followed)
        ensures { (read : List Filing) → Keeps W.written (at_recorder Y.heard self.old) read
            (at_recorder Y.heard self.new) (read ++ next.now ∷ []) }
    {
        let kept = &next.kept;
        write_call(&mut self.transcript, kept);
        let change = tell_next(
            &mut self.watching,
            &mut self.gallery,
            &kept.call,
            &kept.reply,
        );
        self.reporter.hear(rt, next, &change);
        self.read = self.read.saturating_add(1);
    }

    /// After some calls were read, before which so many of those who watch didn't keep up: tells the reporter how the
    /// life stands, and hands on what was written.
    fn rest<R: Wait>(&mut self, rt: &R, meters: &Meters, losing: usize)
        ensures keeps { (read : List Filing) → Keeps W.written (at_recorder Y.heard self.old) read
            (at_recorder Y.heard self.new) read }
        ensures sent { AllSent W.held self.new.transcript }
    {
        let more = self.gallery.losing().saturating_sub(losing);
        self.lost = self.lost.saturating_add(more as u64);
        let standing = Standing {
            read: self.read,
            metered: meters.read(),
            watchers: self.gallery.len() as u64,
            lost: self.lost,
        };
        self.reporter.rest(rt, standing);
        hand_on(&mut self.transcript);
    }

    /// Takes in who has come to watch, and sends to each what it takes now.
    fn serve(&mut self)
        ensures { (read : List Filing) → Keeps W.written (at_recorder Y.heard self.old) read
            (at_recorder Y.heard self.new) read }
    {
        serve(
            self.alloc,
            &self.watching,
            &mut self.gallery,
            &mut self.entrance,
        );
    }
}

/// The next beat: as long as more stands in the journal, it doesn't wait.
fn next_beat<R: Wait, Q: Pace>(rt: &R, is_more: bool, pause: &mut Q) -> Beat {
    if is_more { Beat::Tick } else { pause.next(rt) }
}

impl<
    W: Sink + Drop,
    Q: Pace + Drop,
    E: Outlet + Drop,
    I: Entrance<E> + Drop,
    Y: Reporter + Drop,
> Recorder for JournalRecorder<W, Q, E, I, Y> {
    ghost use Rattle.swim_recorder.specs.Recording.{IsRecorded, at_recorder};

    ghost records = { λ old o read new. IsRecorded W.written W.held old.number o read (at_recorder Y.heard old)
        (at_recorder Y.heard new) };

    fn record<N: Naming, H: Wait + Drop, R: Wait>(
        &mut self,
        rt: &R,
        node: &Node<N, Seeded, H>,
        over: &AtomicBool,
        meters: &Meters,
        follower: Follower<N>,
    ) -> Follower<N> {
        let mut follower = follower;
        self.begin(node.opening());
        self.record_on(rt, node, over, meters, &mut follower);
        hand_on(&mut self.transcript);
        follower
    }

    fn finish<R: Wait>(&mut self, rt: &R, journal: &Journal, read: usize, meters: &Meters) {
        let losing = self.gallery.losing();
        self.read_rest(rt, journal, read);
        self.rest(rt, meters, losing);
    }
}
