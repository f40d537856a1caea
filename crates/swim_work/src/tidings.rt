//! What the ticker leaves for the receiver: that it's time to look at the member table, and its knocks; and what both
//! look up: the N that is in force, where there is a knock at each N-th start of a period.

ghost use Rattle.std.specs.Prelude.{◌≡◌, [], Some};
ghost use Rattle.swim_work.specs.Noting.{Begins, noted};

use arrayvec::ArrayVec;
use std::sync::atomic::{AtomicBool, AtomicU16, Ordering};
use std::sync::{Mutex, Wait};
use swim_history::Row;
use swim_rejoin::{KnockPing, Knocker};
use swim_wire::{Id, PeriodNumber};

/// How many knocks may wait for the receiver. It takes them over at least once a tick, and one comes in a period at
/// most.
const MOST_NOTES: usize = 64;

/// A knock of which the receiver is told.
#[derive(Clone, Copy, Default)]
pub struct Note {
    /// At whom.
    pub id: Id,
    /// With which number.
    pub number: PeriodNumber,
}

/// What the receiver doesn't know of yet.
#[derive(Drop)]
pub struct Tidings {
    /// The number of the period that runs.
    pub period: u64,
    /// The knocks, oldest first.
    pub notes: ArrayVec<Note, MOST_NOTES>,
}

impl Tidings {
    fn none(period: u64) -> Tidings
        ensures period { result.period ≡ period }
        ensures notes { result.notes.items ≡ [] }
    {
        Tidings {
            period,
            notes: ArrayVec::new(),
        }
    }

    /// The period that runs, and a knock more, if there is one. Where too many wait, it is forgotten: then its ack
    /// isn't believed.
    fn add(&mut self, period: u64, knock: &Option<KnockPing>)
        ensures period { self.new.period ≡ period }
        ensures notes { self.new.notes.items ≡ noted self.old.notes.items knock.now }
    {
        self.period = period;
        if let Some(knock) = knock {
            self.note(knock);
        }
    }

    /// The knocker begins the period with that number, while each `rejoin`-th start has a knock: the knock that is due,
    /// if one is, waits for the receiver.
    fn begin(
        &mut self,
        knocker: &mut Knocker,
        rejoin: u16,
        rows: &[Row],
        period: PeriodNumber,
    ) -> Option<KnockPing>
        ensures period { self.new.period ≡ period }
        ensures notes { self.new.notes.items ≡ noted self.old.notes.items result }
        ensures begins { Begins knocker.old rejoin rows.now period result knocker.new }
    {
        let knock = knocker.start(rejoin, rows, period);
        self.add(period.get(), &knock);
        knock
    }

    /// A knock more waits.
    #[tactic(auto, using(crate::proofs::Noting::taken, crate::proofs::Noting::too_many))]
    fn note(&mut self, knock: &KnockPing)
        ensures period { self.new.period ≡ self.old.period }
        ensures notes { self.new.notes.items ≡ noted self.old.notes.items (Some knock.now) }
    {
        if !self.notes.is_full() {
            let message = &knock.message;
            self.notes.push(Note {
                id: message.target,
                number: message.number,
            });
        }
    }
}

/// Where the ticker leaves tidings, and the receiver takes them. A flag says that it's time to look: before the first
/// datagram, and after each tick. Beside them stands the N that is in force (there is a knock at each N-th start of a
/// period), which others may change meanwhile.
#[derive(Drop)]
pub struct TidingsBoard {
    rejoin: AtomicU16,
    is_due: AtomicBool,
    tidings: Mutex<Tidings>,
}

impl TidingsBoard {
    /// It's time to look. The period with that number runs, and each `rejoin`-th start has a knock.
    pub fn new(period: u64, rejoin: u16) -> TidingsBoard {
        TidingsBoard {
            rejoin: AtomicU16::new(rejoin),
            is_due: AtomicBool::new(true),
            tidings: Mutex::new(Tidings::none(period)),
        }
    }

    /// From the next start on each `rejoin`-th one has a knock; with 0 none has.
    pub fn rule(&self, rejoin: u16) {
        self.rejoin.store(rejoin, Ordering::SeqCst);
    }

    /// The N that is in force: there is a knock at each N-th start of a period.
    pub(crate) fn rejoin(&self) -> u16 {
        self.rejoin.load(Ordering::SeqCst)
    }

    /// From now on it's time to look.
    pub fn make_due(&self) {
        self.is_due.store(true, Ordering::SeqCst);
    }

    /// Whether it's time to look. The look has to follow: from now on it isn't, until the next tick.
    pub fn take_due(&self) -> bool {
        if self.is_due.load(Ordering::SeqCst) {
            // A tick that comes meanwhile is not lost.
            self.is_due.store(false, Ordering::SeqCst);
            return true;
        }
        false
    }

    /// Leaves word of the period that runs, and of the knock that is to be sent in it, if one is.
    pub fn leave<R: Wait>(&self, rt: &R, period: u64, knock: &Option<KnockPing>) {
        self.tidings.lock(rt).add(period, knock);
    }

    /// The knocker begins the period with that number, when each `rejoin`-th start has a knock and the member table has
    /// these rows: the knock that is due, if one is. Word of both is left, before the knock can be sent: its ack may
    /// come at once. So each knock of which word is left is one that the caller is given, and has yet to send.
    pub fn begin<R: Wait>(
        &self,
        rt: &R,
        knocker: &mut Knocker,
        rejoin: u16,
        rows: &[Row],
        period: PeriodNumber,
    ) -> Option<KnockPing>
        ensures { Begins knocker.old rejoin rows.now period result knocker.new }
    {
        self.tidings.lock(rt).begin(knocker, rejoin, rows, period)
    }

    /// Takes what was left.
    pub fn take<R: Wait>(&self, rt: &R) -> Tidings {
        let mut tidings = self.tidings.lock(rt);
        let left = &mut *tidings;
        let period = left.period;
        std::mem::replace(left, Tidings::none(period))
    }
}
