//! The crew of a daemon: its workers and its recorder, over the gates of a configuration.

ghost use Rattle.std.specs.Prelude.{◌≡◌, [], Some, IfOk, box_value};
ghost use Rattle.swim_receiver.specs.Rejoining.{IsReturning};
ghost use Rattle.swimd.specs.DaemonLives.{at_receiving, at_ticking, none_connected, none_received, none_ticked};

use crate::daemon::counted_entrances::CountedEntrance;
use crate::daemon::entrances::{end_watching, pause_ms};
use crate::daemon::reloading::Reloading;
use crate::daemon::speakers::LogSpeaker;
use std::alloc::{AllocError, Global};
use std::fs::File;
use std::net::Net;
use std::rt::{Clock, Files};
use std::sync::Wait;
use swim_config::Config;
use swim_control::Connections;
use swim_crew::Crew;
use swim_desk::{Controller, Door, Hall};
use swim_devices::{
    ClockSleeper, SleepingPace, StreamOutlet, UdpEndpoint, UdpLine, UdpPost, UnixEntrance,
};
use swim_events::{Entrance, Gallery};
use swim_guard::{ClockTimepiece, FencedLine, NotingLine, SealedLine, SealedPost};
use swim_receiver::{Receiver, Returning};
use swim_recorder::{JournalRecorder, Reporter};
use swim_reports::{Chronicler, Clerk, Counters};
use swim_text::Sink;
use swim_ticker::Ticker;
use swim_work::{Line, Pace, Post, RejoinLookup};
use swim_writer::{JournalFile, MetricsTimes};

/// By which a daemon hears: what comes faster than the fence lets in is thrown away first, and then what has no tag by a
/// key of the group. Of both is noted how many there were.
pub type GuardedLine<'g, R> = NotingLine<
    'g,
    SealedLine<'g, NotingLine<'g, FencedLine<'g, UdpLine<'g>, ClockTimepiece<&'g R>>>>,
>;

/// By which it sends, with a tag where the group has keys.
pub type GuardedPost<'g> = SealedPost<'g, UdpPost<'g>>;

/// By which it waits.
pub type ClockPace<'g, R> = SleepingPace<ClockSleeper<&'g R>>;

/// The recorder of a daemon.
pub type DaemonRecorder<'g, R, K> = JournalRecorder<
    JournalFile<'g, R>,
    ClockPace<'g, R>,
    StreamOutlet,
    CountedEntrance<'g, K>,
    Chronicler<'g>,
>;

/// The crew of a daemon.
pub type DaemonCrew<'g, R, D, G, K> = Crew<
    Receiver<'g, GuardedLine<'g, R>, GuardedPost<'g>>,
    Ticker<'g, ClockPace<'g, R>, GuardedPost<'g>>,
    Controller<D, LogSpeaker<'g, 'g, R, G>>,
    DaemonRecorder<'g, R, K>,
>;

/// What the crew of a daemon shares.
#[derive(Drop)]
pub struct Shared<'g, R> {
    pub rt: &'g R,
    pub alloc: Global,
    pub endpoint: &'g UdpEndpoint,
    pub reloading: Reloading<'g>,
    pub counters: &'g Counters,
}

impl<'g, R: Files<File = File> + Net + Clock + Wait> Shared<'g, R> {
    /// The crew of a daemon of this configuration, at this door and this entrance.
    pub fn crew<D: Door + Drop, G: Sink + Clerk + Drop, K: Clock + Drop>(
        &self,
        config: &Config,
        is_quiet: bool,
        metrics: MetricsTimes,
        door: D,
        entrance: UnixEntrance<K>,
        log: G,
    ) -> Result<DaemonCrew<'g, R, D, G, K>, AllocError>
        ensures returning { IfOk result (λ crew. IsReturning (box_value crew.first).returning []) }
        ensures me { IfOk result (λ crew. (box_value crew.first).returning.rejoiner.me ≡ config.now.opening.me) }
        ensures receiving { IfOk result (λ crew. at_receiving
            (⟦<GuardedLine<'g, R> as Line>⟧.received (box_value crew.first).line)
            (⟦<UdpLine<'g> as Line>⟧.received (box_value crew.first).line.line.line)
            (⟦<GuardedPost<'g> as Post>⟧.posted (box_value crew.first).post)
            (⟦<UdpPost<'g> as Post>⟧.posted (box_value crew.first).post.post) (box_value crew.first).returning
            ≡ none_received (box_value crew.first).returning) }
        ensures ticking { IfOk result (λ crew. at_ticking
            (⟦<ClockPace<'g, R> as Pace>⟧.beats (box_value crew.second).pace)
            (⟦<GuardedPost<'g> as Post>⟧.posted (box_value crew.second).post)
            (⟦<UdpPost<'g> as Post>⟧.posted (box_value crew.second).post.post)
            (⟦<GuardedPost<'g> as Post>⟧.posted (box_value crew.second).knock_post)
            (⟦<UdpPost<'g> as Post>⟧.posted (box_value crew.second).knock_post.post)
            (box_value crew.second).lookup (box_value crew.second).knocks ≡ none_ticked) }
        ensures door { IfOk result (λ crew. (box_value crew.third).hall.door ≡ door) }
        ensures connections { IfOk result (λ crew. (box_value crew.third).hall.connections ≡ none_connected) }
        ensures gallery { IfOk result (λ crew. (box_value crew.recorder).gallery ≡ []) }
        ensures heard { IfOk result (λ crew.
            ⟦<Chronicler<'g> as Reporter>⟧.heard (box_value crew.recorder).reporter ≡ Some []) }
    {
        Ok(Crew {
            first: self.receiver(config)?,
            second: self.ticker(config)?,
            third: self.controller(metrics, is_quiet, door, log)?,
            recorder: self.recorder(config, is_quiet, entrance)?,
        })
    }

    /// The receiver. It is too large for a stack where memory is short.
    #[inline(never)]
    fn receiver(
        &self,
        config: &Config,
    ) -> Result<Box<Receiver<'g, GuardedLine<'g, R>, GuardedPost<'g>>>, AllocError>
        ensures returning { IfOk result (λ receiver. IsReturning (box_value receiver).returning []) }
        ensures me { IfOk result (λ receiver. (box_value receiver).returning.rejoiner.me ≡ config.now.opening.me) }
        ensures receiving { IfOk result (λ receiver. at_receiving
            (⟦<GuardedLine<'g, R> as Line>⟧.received (box_value receiver).line)
            (⟦<UdpLine<'g> as Line>⟧.received (box_value receiver).line.line.line)
            (⟦<GuardedPost<'g> as Post>⟧.posted (box_value receiver).post)
            (⟦<UdpPost<'g> as Post>⟧.posted (box_value receiver).post.post) (box_value receiver).returning
            ≡ none_received (box_value receiver).returning) }
    {
        let strangers = &self.counters.strangers;
        let book = self.reloading.book;
        let board = self.reloading.board;
        let timepiece = ClockTimepiece::new(self.rt);
        let line = FencedLine::new(self.endpoint.line(), timepiece, book);
        let line = NotingLine::new(line, &strangers.fenced);
        let line = SealedLine::new(line, book);
        let receiver = Receiver {
            line: NotingLine::new(line, &strangers.forged),
            post: SealedPost::new(self.endpoint.post(), book),
            returning: Returning::new(board, config.opening.me()),
            board,
        };
        Ok(Box::new(self.alloc, receiver)?)
    }

    /// The ticker.
    fn ticker(
        &self,
        config: &Config,
    ) -> Result<Box<Ticker<'g, ClockPace<'g, R>, GuardedPost<'g>>>, AllocError>
        ensures { IfOk result (λ ticker. at_ticking (⟦<ClockPace<'g, R> as Pace>⟧.beats (box_value ticker).pace)
            (⟦<GuardedPost<'g> as Post>⟧.posted (box_value ticker).post)
            (⟦<UdpPost<'g> as Post>⟧.posted (box_value ticker).post.post)
            (⟦<GuardedPost<'g> as Post>⟧.posted (box_value ticker).knock_post)
            (⟦<UdpPost<'g> as Post>⟧.posted (box_value ticker).knock_post.post)
            (box_value ticker).lookup (box_value ticker).knocks ≡ none_ticked) }
    {
        let book = self.reloading.book;
        let board = self.reloading.board;
        let ticker = Ticker {
            pace: SleepingPace::new(ClockSleeper::new(self.rt), config.tick_ms),
            post: SealedPost::new(self.endpoint.post(), book),
            knock_post: SealedPost::new(self.endpoint.post(), book),
            lookup: RejoinLookup::new(board),
            knocks: 0,
            board,
        };
        Ok(Box::new(self.alloc, ticker)?)
    }

    /// The controller, at this door. Its speaker tells in this log.
    fn controller<D: Door + Drop, G: Sink + Clerk + Drop>(
        &self,
        metrics: MetricsTimes,
        is_quiet: bool,
        door: D,
        log: G,
    ) -> Result<Box<Controller<D, LogSpeaker<'g, 'g, R, G>>>, AllocError>
        ensures door { IfOk result (λ controller. (box_value controller).hall.door ≡ door) }
        ensures connections { IfOk result (λ controller. (box_value controller).hall.connections ≡ none_connected) }
    {
        let speaker = LogSpeaker::new(
            self.rt,
            self.alloc,
            self.reloading,
            self.counters,
            metrics,
            log,
            is_quiet,
        );
        let controller = Controller {
            alloc: self.alloc,
            hall: Hall::new(self.alloc, door),
            speaker,
        };
        Ok(Box::new(self.alloc, controller)?)
    }

    /// The recorder, with this entrance for those who watch. It is too large for a stack where memory is short.
    #[inline(never)]
    fn recorder<K: Clock + Drop>(
        &self,
        config: &Config,
        is_quiet: bool,
        entrance: UnixEntrance<K>,
    ) -> Result<Box<DaemonRecorder<'g, R, K>>, AllocError>
        ensures gallery { IfOk result (λ recorder. (box_value recorder).gallery ≡ []) }
        ensures heard { IfOk result (λ recorder.
            ⟦<Chronicler<'g> as Reporter>⟧.heard (box_value recorder).reporter ≡ Some []) }
    {
        let recorder = JournalRecorder::new(
            self.alloc,
            &config.opening,
            SleepingPace::new(ClockSleeper::new(self.rt), pause_ms(&config.events)),
            Gallery::new(self.alloc),
            CountedEntrance::new(entrance, &self.counters.refusals),
            Chronicler::new(self.alloc, self.counters, is_quiet)?,
        );
        Ok(Box::new(self.alloc, recorder)?)
    }
}

/// After the last life: those who watch are told that nothing happens any more, operators are served no more, and what
/// is left is told.
pub fn leave<
    R: Files<File = File> + Net + Clock + Wait,
    D: Door + Drop,
    G: Sink + Clerk + Drop,
    K: Clock + Drop,
>(rt: &R, alloc: Global, crew: DaemonCrew<'_, R, D, G, K>) {
    let mut crew = crew;
    let time = crew.recorder.entrance.now();
    end_watching(&mut crew.recorder.gallery, time);
    crew.third.hall.connections = Connections::new(alloc);
    crew.third.speaker.finish(rt);
}
