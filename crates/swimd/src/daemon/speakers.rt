//! Who tells people what happens: changes of the member table, datagrams that are thrown away, connections that are
//! turned away, and metrics. The controller has the time for it, so that nobody else waits.

use crate::daemon::reloading::{Reloaded, Reloading};
use std::alloc::Global;
use std::fs::File;
use std::net::Net;
use std::rt::{Clock, Files};
use std::sync::Wait;
use std::time::{Duration, Instant};
use swim_control::{ReloadText, StatsText};
use swim_desk::Speaker;
use swim_disk::MOST_FILES;
use swim_guard::SharedThrown;
use swim_metrics::{OddCount, OddMessage};
use swim_reports::{Clerk, Counters, Notice, refused, tell_changes, words_for, words_unwritten};
use swim_text::Sink;
use swim_wire::Peer;
use swim_writer::MetricsTimes;

/// How long no more datagrams of a kind are told that were thrown away, once some were, in seconds.
const PAUSE_SECONDS: u64 = 60;

/// How many of one kind people were told of, and when they were last.
#[derive(Drop)]
struct Telling {
    told: u64,
    told_at: Option<Instant>,
}

impl Telling {
    /// They were told of none.
    fn new() -> Telling {
        Telling {
            told: 0,
            told_at: None,
        }
    }

    /// How many there are and where the newest came from, if that is to be told now. Then nothing more is for a minute.
    fn due<K: Clock>(&mut self, clock: &K, thrown: &SharedThrown) -> Option<(u64, Peer)> {
        let count = thrown.count();
        let newest = thrown.newest()?;
        if self.is_due(clock, count) {
            Some((count, newest))
        } else {
            None
        }
    }

    /// The newest of so many odd messages, if that is to be told now. Then nothing more is for a minute.
    fn due_of<K: Clock>(&mut self, clock: &K, odd: &OddCount) -> Option<OddMessage> {
        let newest = odd.newest?;
        if self.is_due(clock, odd.count) {
            Some(newest)
        } else {
            None
        }
    }

    /// Whether it is to be told now that there are so many. Then nothing more is for a minute.
    fn is_due<K: Clock>(&mut self, clock: &K, count: u64) -> bool {
        if count == self.told || self.is_pausing(clock) {
            return false;
        }
        let Ok(now) = Instant::now(clock) else {
            return false;
        };
        self.told_at = Some(now);
        self.told = count;
        true
    }

    /// Whether less than a minute passed since something was told.
    fn is_pausing<K: Clock>(&self, clock: &K) -> bool {
        match &self.told_at {
            Some(told_at) => match told_at.elapsed(clock) {
                Ok(time) => time < Duration::from_secs(PAUSE_SECONDS),
                Err(_) => true,
            },
            None => false,
        }
    }
}

/// Tells what happens. Once a turn of the controller it tells what there is to be told, and waits for nobody: each change
/// of the member table, how many datagrams were thrown away and where the newest came from, and how many connections were
/// turned away, of each kind at most once a minute, likewise messages whose senders aren't as the member table has them;
/// and every ten seconds it hands the metrics over, to be written. Where it is quiet it tells nothing in the log but that
/// metrics can't be written, and which journal files aren't whole.
#[derive(Drop)]
pub struct LogSpeaker<'s, 'r, R, G: Sink + Clerk + Drop> {
    rt: &'r R,
    alloc: Global,
    reloading: Reloading<'s>,
    counters: &'s Counters,
    metrics: MetricsTimes,
    log: G,
    is_quiet: bool,
    // How many operators were turned away, as far as it counted them.
    turned_away: u64,
    fenced: Telling,
    forged: Telling,
    refused: Telling,
    unlisted: Telling,
    own_id: Telling,
    elsewhere: Telling,
}

impl<'s, 'r, R: Files<File = File> + Net + Clock, G: Sink + Clerk + Drop> LogSpeaker<'s, 'r, R, G> {
    /// One who tells in the log and in the metrics' file, and has the configuration read again.
    pub fn new(
        rt: &'r R,
        alloc: Global,
        reloading: Reloading<'s>,
        counters: &'s Counters,
        metrics: MetricsTimes,
        log: G,
        is_quiet: bool,
    ) -> LogSpeaker<'s, 'r, R, G> {
        LogSpeaker {
            rt,
            alloc,
            reloading,
            counters,
            metrics,
            log,
            is_quiet,
            turned_away: 0,
            fenced: Telling::new(),
            forged: Telling::new(),
            refused: Telling::new(),
            unlisted: Telling::new(),
            own_id: Telling::new(),
            elsewhere: Telling::new(),
        }
    }

    /// Tells what there is to be told.
    fn tell_what_is_due<W: Wait>(&mut self, rt: &W) {
        if !self.is_quiet {
            self.tell_changes(rt);
            self.tell_thrown();
            self.tell_odd(rt);
            self.tell_refused();
        }
        self.tell_unwritten(rt);
        self.tell_lost(rt);
        if self.metrics.is_due(self.rt) {
            self.tell_metrics(rt);
        }
    }

    /// Tells all that is left, at the end of all lives.
    pub fn finish<W: Wait + Clock>(&mut self, rt: &W) {
        self.tell_changes(rt);
        self.tell_metrics(rt);
        self.log.settle(rt);
        self.tell_unwritten(rt);
        for _file in 0..=MOST_FILES {
            self.tell_lost(rt);
        }
    }

    /// Tells that the configuration was read again, and which keys are in force.
    fn tell_reloaded<W: Wait>(&mut self, rt: &W) {
        if !self.is_quiet {
            let keys = self.reloading.keys(rt);
            let notice = Notice::reloaded(self.rt, self.reloading.path, keys.as_slice());
            notice.tell_notice(self.rt, self.alloc, &mut self.log);
        }
    }

    /// Counts the operators who were turned away, so many so far.
    fn count_turned_away(&mut self, turned_away: u64) {
        if turned_away != self.turned_away {
            let more = turned_away.saturating_sub(self.turned_away);
            self.counters.refusals.add(more);
            self.turned_away = turned_away;
        }
    }

    /// Tells the changes of the member table that wait on the bulletin.
    fn tell_changes<W: Wait>(&mut self, rt: &W) {
        let bulletin = &self.counters.bulletin;
        tell_changes(self.rt, rt, self.alloc, bulletin, &mut self.log);
    }

    /// Tells of the datagrams that were thrown away, if they are to be told.
    fn tell_thrown(&mut self) {
        let strangers = &self.counters.strangers;
        if let Some((count, newest)) = self.fenced.due(self.rt, &strangers.fenced) {
            let notice = Notice::fenced(self.rt, newest, count);
            notice.tell_notice(self.rt, self.alloc, &mut self.log);
        }
        if let Some((count, newest)) = self.forged.due(self.rt, &strangers.forged) {
            let notice = Notice::forged(self.rt, newest, count);
            notice.tell_notice(self.rt, self.alloc, &mut self.log);
        }
    }

    /// Tells of messages whose senders aren't as the member table has them, if they are to be told.
    fn tell_odd<W: Wait>(&mut self, rt: &W) {
        let Some(odd) = self.counters.bulletin.odd(rt) else {
            return;
        };
        if let Some(message) = self.unlisted.due_of(self.rt, &odd.unlisted) {
            let notice = Notice::unlisted(self.rt, &message);
            notice.tell_notice(self.rt, self.alloc, &mut self.log);
        }
        if let Some(message) = self.own_id.due_of(self.rt, &odd.own_id) {
            let notice = Notice::own_id(self.rt, &message);
            notice.tell_notice(self.rt, self.alloc, &mut self.log);
        }
        self.tell_elsewhere(&odd.elsewhere);
    }

    /// Tells of messages of members that the table has at another address, if they are to be told.
    fn tell_elsewhere(&mut self, count: &OddCount) {
        let Some(message) = self.elsewhere.due_of(self.rt, count) else {
            return;
        };
        if let Some(listed) = message.listed {
            let notice = Notice::elsewhere(self.rt, &message, listed);
            notice.tell_notice(self.rt, self.alloc, &mut self.log);
        }
    }

    /// Tells of the connections that were turned away, if they are to be told.
    fn tell_refused(&mut self) {
        let count = self.counters.refusals.count();
        if self.refused.is_due(self.rt, count) {
            refused(self.rt, count).tell_notice(self.rt, self.alloc, &mut self.log);
        }
    }

    /// Has the metrics file written, once something was counted.
    fn tell_metrics<W: Wait>(&mut self, rt: &W) {
        let keys = self.reloading.keys(rt);
        let Some(figures) = self.counters.figures(rt, self.log.files(rt), &keys) else {
            return;
        };
        if let Some(path) = self.metrics.path_now(self.rt) {
            self.log.hand_over(rt, path, figures);
        }
    }

    /// Tells of a journal file that isn't whole, if there is one of which nobody was told.
    fn tell_lost<W: Wait>(&mut self, rt: &W) {
        if let Some(lost) = self.log.take_lost(rt) {
            let notice = Notice::unwritten(self.rt, lost.path.as_str(), words_for(lost.fault));
            notice.tell_notice(self.rt, self.alloc, &mut self.log);
        }
    }

    /// Tells that the metrics file can't be written, the first time that it couldn't be.
    fn tell_unwritten<W: Wait>(&mut self, rt: &W) {
        let (Some(why), Some(path)) = (self.log.fault(rt), self.metrics.path()) else {
            return;
        };
        if self.counters.bulletin.count_unwritten() == 0 {
            let notice = Notice::unwritten_metrics(self.rt, path, words_unwritten(why));
            notice.tell_notice(self.rt, self.alloc, &mut self.log);
        }
    }
}

impl<'s, 'r, R: Files<File = File> + Net + Clock, G: Sink + Clerk + Drop> Speaker
    for LogSpeaker<'s, 'r, R, G> {
    fn stats<W: Wait>(&self, rt: &W) -> StatsText {
        let keys = self.reloading.keys(rt);
        self.counters.stats(rt, self.log.files(rt), &keys)
    }

    fn reload<W: Wait>(&mut self, rt: &W) -> ReloadText {
        let Reloaded { line, is_taken } = self.reloading.reload(self.rt, rt, self.alloc);
        if is_taken {
            self.tell_reloaded(rt);
        }
        line
    }

    fn tell<W: Wait>(&mut self, rt: &W, turned_away: u64) {
        self.count_turned_away(turned_away);
        self.tell_what_is_due(rt);
    }
}
