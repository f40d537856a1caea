//! What a daemon tells people while it runs: lines on standard error, each with the time in UTC.

ghost use Rattle.std.specs.Prelude.{◌≡◌, false};
ghost use Rattle.swim_text.specs.Lines.{has_feed};
ghost use Rattle.swim_telling.specs.Notices.{Notices};

use arrayvec::ArrayVec;
use jiff::Timestamp;
use std::alloc::Global;
use std::fmt;
use std::fmt::Write;
use std::marker::Model;
use std::net::Net;
use std::rt::Clock;
use swim_config::{Config, fingerprint};
use swim_keys::GroupKey;
use swim_metrics::OddMessage;
use swim_outcomes::{TEXT_BYTES, VERSION, add_printed};
use swim_streams::{STANDARD_ERROR, is_taken};
use swim_telling::tell_line;
use swim_text::Sink;
use swim_wire::Peer;

/// A line for people, of characters of ASCII that print. A contract sees its bytes, without the line feed behind them.
#[derive(Drop)]
pub struct Notice {
    text: ArrayVec<u8, TEXT_BYTES>,
}

impl Model for Notice {
    ghost use Rattle.std.specs.Prelude.{List, ℕ, ◌≡◌, true};
    ghost use Rattle.std.specs.List.{list_all};
    ghost use Rattle.swim_config.specs.Configuration.{is_printing};

    ghost Value = { List ℕ };

    ghost view = { λ n. n.text.items };

    ghost invariant = { λ n. list_all is_printing n.text.items ≡ true };
}

impl fmt::Write for Notice {
    fn write_str(&mut self, text: &str) -> fmt::Result {
        add_printed(&mut self.text, text.as_bytes());
        Ok(())
    }
}

impl Notice {
    /// A line that begins with the time, as RFC 3339 has it, if that is to be had.
    pub fn begun<K: Clock>(clock: &K) -> Notice {
        let mut notice = Notice {
            text: ArrayVec::new(),
        };
        if let Ok(time) = Timestamp::now(clock) {
            let _is_added = write!(notice, "{time:.3} ");
        }
        notice
    }

    /// The line, without its line feed.
    #[tactic(auto, using(swim_outcomes::specs::Printing::printing_free))]
    fn as_slice(&self) -> &[u8]
        ensures line { result.now ≡ self.now }
        ensures one { has_feed result.now ≡ false }
    {
        self.text.as_slice()
    }

    /// That a stale socket was removed from this path.
    pub fn removed<K: Clock>(clock: &K, path: &str) -> Notice {
        let mut notice = Notice::begun(clock);
        let _is_added = write!(notice, "removed {path}: a socket that nobody served");
        notice
    }

    /// That a daemon of this configuration listens: what it is, the period in milliseconds, and the fingerprints of the
    /// group's keys, if it has some.
    pub fn listens<K: Clock>(clock: &K, config: &Config) -> Notice {
        let opening = &config.opening;
        let address = config.listen.write();
        let period_ms = u64::from(opening.period()).saturating_mul(u64::from(config.tick_ms));
        let mut notice = Notice::begun(clock);
        let _is_added = write!(
            notice,
            "swimd {} listens id {} address {} control {} members {} period_ms {}",
            VERSION,
            opening.me().get(),
            address.as_str(),
            config.control.as_str(),
            opening.rows().len(),
            period_ms
        );
        notice.add_ring(config.keys.as_slice());
        notice
    }

    /// That a configuration file was read again, and the fingerprints of the group's keys by then, if it has some.
    pub fn reloaded<K: Clock>(clock: &K, path: &str, keys: &[GroupKey]) -> Notice {
        let mut notice = Notice::begun(clock);
        let _is_added = write!(notice, "reloaded {path}");
        notice.add_ring(keys);
        notice
    }

    /// Adds which keys there are, if there are some.
    fn add_ring(&mut self, keys: &[GroupKey]) {
        if !keys.is_empty() {
            let _is_added = self.write_str(" keys");
        }
        self.add_keys(keys);
    }

    /// Adds the fingerprints of these keys, in their order, each behind a space.
    fn add_keys(&mut self, keys: &[GroupKey]) {
        let [first, others @ ..] = keys else {
            return;
        };
        self.add_key(first);
        self.add_keys(others);
    }

    /// Adds the fingerprint of a key, behind a space.
    fn add_key(&mut self, key: &GroupKey) {
        add_printed(&mut self.text, b" ");
        add_printed(&mut self.text, &fingerprint(key));
    }

    /// That a journal file isn't whole, and why.
    pub fn unwritten<K: Clock>(clock: &K, path: &str, why: &str) -> Notice {
        let mut notice = Notice::begun(clock);
        let _is_added = write!(notice, "journal {path}: {why}");
        notice
    }

    /// That a life has no journal file, as too many wait for their disk, and how many lives had none so far.
    pub fn unfiled<K: Clock>(clock: &K, path: &str, count: u64) -> Notice {
        let mut notice = Notice::begun(clock);
        let _is_added = write!(
            notice,
            "journal {path}: too many files wait for their disk, lives without a file {count}"
        );
        notice
    }

    /// That the metrics' file isn't written, and why.
    pub fn unwritten_metrics<K: Clock>(clock: &K, path: &str, why: &str) -> Notice {
        let mut notice = Notice::begun(clock);
        let _is_added = write!(notice, "metrics {path}: {why}");
        notice
    }

    /// That datagrams were thrown away, how many so far, and where the newest came from.
    pub fn forged<K: Clock>(clock: &K, source: Peer, count: u64) -> Notice {
        let mut notice = Notice::begun(clock);
        let address = source.write();
        let _is_added = write!(
            notice,
            "datagrams from {} have no tag by one of our keys, forged {}",
            address.as_str(),
            count
        );
        notice
    }

    /// That datagrams come faster than the fence lets in, how many were thrown away so far, and where the newest came
    /// from.
    pub fn fenced<K: Clock>(clock: &K, source: Peer, count: u64) -> Notice {
        let mut notice = Notice::begun(clock);
        let address = source.write();
        let _is_added = write!(
            notice,
            "datagrams from {} come faster than the fence lets in, fenced {}",
            address.as_str(),
            count
        );
        notice
    }

    /// That a sender that isn't known pings.
    pub fn unlisted<K: Clock>(clock: &K, message: &OddMessage) -> Notice {
        let mut notice = Notice::begun(clock);
        let (sender, source) = (message.sender.get(), message.source.write());
        let _is_added = write!(
            notice,
            "{sender} at {} pings and isn't listed",
            source.as_str()
        );
        notice
    }

    /// That somebody else speaks with this member's id.
    pub fn own_id<K: Clock>(clock: &K, message: &OddMessage) -> Notice {
        let mut notice = Notice::begun(clock);
        let (sender, source) = (message.sender.get(), message.source.write());
        let _is_added = write!(
            notice,
            "{sender} is this member, and {} speaks as {sender}, too",
            source.as_str()
        );
        notice
    }

    /// That a member is heard from another address than that of its row.
    pub fn elsewhere<K: Clock>(clock: &K, message: &OddMessage, listed: Peer) -> Notice {
        let mut notice = Notice::begun(clock);
        let (sender, source) = (message.sender.get(), message.source.write());
        let row = listed.write();
        let _is_added = write!(
            notice,
            "{sender} is heard from {}, its row has {}",
            source.as_str(),
            row.as_str()
        );
        notice
    }

    /// That pages are served at this address.
    pub fn serves<K: Clock>(clock: &K, listen: Peer) -> Notice {
        let mut notice = Notice::begun(clock);
        let address = listen.write();
        let _is_added = write!(
            notice,
            "swimd {} serves http://{}/",
            VERSION,
            address.as_str()
        );
        notice
    }

    /// That others than this machine may reach them.
    pub fn is_open<K: Clock>(clock: &K, listen: Peer) -> Notice {
        let mut notice = Notice::begun(clock);
        let address = listen.write();
        let _is_added = write!(
            notice,
            "warning: whoever reaches {} reads the member table",
            address.as_str()
        );
        notice
    }

    /// That the folder at this path, in which journal files are looked for, can't be read, and why.
    pub fn is_unreadable<K: Clock>(clock: &K, dir: &str, why: &str) -> Notice {
        let mut notice = Notice::begun(clock);
        let _is_added = write!(notice, "warning: journals {dir}: {why}");
        notice
    }

    /// How many lines of lives standard output didn't take.
    pub fn left_out<K: Clock>(clock: &K, count: u64) -> Notice {
        let mut notice = Notice::begun(clock);
        let _is_added = write!(notice, "told {count} lines fewer on standard output");
        notice
    }

    /// That a life begins.
    pub fn begins<K: Clock>(clock: &K, number: u64) -> Notice {
        let mut notice = Notice::begun(clock);
        let _is_added = write!(notice, "life {number} begins");
        notice
    }

    /// Writes it, where standard error takes it at once. Where it can't be written nothing else changes.
    #[tactic(auto, using(swim_telling::specs::Notices::no_notices))]
    pub fn tell_notice<R: Net, F: Sink>(&self, rt: &R, alloc: Global, faults: &mut F)
        ensures { Notices (F.written faults.old, F.failures faults.old)
            (F.written faults.new, F.failures faults.new) }
    {
        if is_taken(rt, alloc, STANDARD_ERROR, 0) {
            tell_line(self.as_slice(), faults);
        }
    }
}
