//! The lives of a daemon's crew, and what its keeper tells of them.

ghost use Rattle.std.specs.Prelude.{◌≡◌, box_value};
ghost use Rattle.swim_crew.specs.Crews.{stand_at};
ghost use Rattle.swim_keeper.specs.Keeping.{outlets};
ghost use Rattle.swim_telling.specs.Notices.{Notices};
ghost use Rattle.swimd.specs.DaemonLives.{AreSeenLives, at_controlling, at_daemon, at_receiving, at_ticking, told_by};

use crate::daemon::crews::{ClockPace, DaemonCrew, GuardedLine, GuardedPost};
use std::alloc::Global;
use std::fs::File;
use std::net::Net;
use std::rt::{Clock, Files};
use std::sync::Wait;
use std::thread::Threads;
use swim_crew::{LivesEnd, run_lives};
use swim_desk::{Door, each_line_is_called};
use swim_devices::{UdpLine, UdpPost};
use swim_history::Opening;
use swim_keeper::LifeKeeper;
use swim_keeper::laws::a_kept_life_is_told;
use swim_receiver::each_datagram_is_heard;
use swim_recorder::{Reporter, Shelf};
use swim_reports::{Announcer, Chronicler, Clerk, Folder};
use swim_telling::Herald;
use swim_text::Sink;
use swim_ticker::each_tick_is_a_call;
use swim_work::{Line, Pace, Post};
use swim_writer::JournalFile;

/// The keeper of a daemon's lives.
pub type DaemonKeeper<'g, 'w, 'f, 'h, 's, 'b, R, W, F> = LifeKeeper<
    'w,
    'f,
    'h,
    's,
    'b,
    W,
    F,
    Announcer<'g, R>,
    Folder<'g, R>,
>;

/// Runs lives with this crew, from this opening, until they end. What the line gave became the calls of the receiver,
/// the beats of the pace those of the ticker, and the lines of operators those of the controller. What was handed to be
/// sent are the datagrams of their replies, and knocks at the starts of periods. Each life is told. Returns why the
/// lives ended, and the crew. Each worker ended for what its own gate gave, as far as it had a reason of its own.
pub fn keep_lives<
    'g,
    'w,
    'f,
    'h,
    's,
    'b,
    R: Files<File = File> + Net + Clock + Threads + Wait + Sync,
    W: Sink,
    F: Sink,
    G: Sink + Clerk + Drop,
    D: Door + Drop,
    K: Clock + Drop + Send,
>(
    rt: &R,
    alloc: Global,
    opening: Opening,
    crew: DaemonCrew<'g, R, D, G, K>,
    keeper: &mut DaemonKeeper<'g, 'w, 'f, 'h, 's, 'b, R, W, F>,
) -> (LivesEnd, DaemonCrew<'g, R, D, G, K>)
    ensures same_writer { keeper.new.writer.ghost_name ≡ keeper.old.writer.ghost_name }
    ensures same_notices { keeper.new.notices.ghost_name ≡ keeper.old.notices.ghost_name }
    ensures lived { AreSeenLives (at_daemon
        (told_by (outlets W.written W.failures F.written F.failures ⟦<Announcer<'g, R> as Herald>⟧.begun
        ⟦<Folder<'g, R> as Shelf<JournalFile<'g, R>>>⟧.opened ⟦<Folder<'g, R> as Shelf<JournalFile<'g, R>>>⟧.filed
        ⟦<Folder<'g, R> as Shelf<JournalFile<'g, R>>>⟧.fresh ⟦<JournalFile<'g, R> as Sink>⟧.written
        ⟦<JournalFile<'g, R> as Sink>⟧.held ⟦<Chronicler<'g> as Reporter>⟧.heard))
        (λ r. at_receiving (⟦<GuardedLine<'g, R> as Line>⟧.received r.line)
        (⟦<UdpLine<'g> as Line>⟧.received r.line.line.line) (⟦<GuardedPost<'g> as Post>⟧.posted r.post)
        (⟦<UdpPost<'g> as Post>⟧.posted r.post.post) r.returning)
        (λ t. at_ticking (⟦<ClockPace<'g, R> as Pace>⟧.beats t.pace) (⟦<GuardedPost<'g> as Post>⟧.posted t.post)
        (⟦<UdpPost<'g> as Post>⟧.posted t.post.post) (⟦<GuardedPost<'g> as Post>⟧.posted t.knock_post)
        (⟦<UdpPost<'g> as Post>⟧.posted t.knock_post.post) t.lookup t.knocks)
        (λ c. at_controlling (D.faults c.hall.door) c.hall.connections)) ⟦<Folder<'g, R> as Shelf<JournalFile<'g, R>>>⟧.fresh keeper.old.terms opening
        (stand_at crew.entry keeper.old) (stand_at result.1 keeper.new) result.0 }
    ensures notices { Notices (F.written keeper.old.notices.now, F.failures keeper.old.notices.now)
        (F.written keeper.new.notices.now, F.failures keeper.new.notices.now) }
{
    let terms = keeper.terms;
    let (end, crew) = run_lives(rt, alloc, opening, terms, crew, keeper);
    a_kept_life_is_told::<JournalFile<'_, R>>();
    each_datagram_is_heard::<GuardedPost<'_>>();
    each_tick_is_a_call::<GuardedPost<'_>>();
    each_line_is_called();
    (end, crew)
}
