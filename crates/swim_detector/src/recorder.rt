//! The detector with its journal.

ghost use Rattle.std.specs.Prelude.{◌≡◌, ◌↔◌, ◌<◌, ◌≤◌, ◌∷◌, [], length, Err, IfOk, IsOk, OnOk, OnErr};
ghost use Rattle.swim_history.specs.Changes.{table};
ghost use Rattle.swim_detector.specs.Faults.{apply_number};
ghost use Rattle.swim_detector.specs.Recording.{IsKept, IsLatest, Records, RecordsCall, IsChangeOf};
ghost use Rattle.swim_detector.specs.Mirrors.{entry_of, round_entry};
ghost use Rattle.swim_history.specs.Run.{Continues};

use crate::states::State;
use std::alloc::Global;
use std::marker::Model;
use swim_history::{Call, Change, Entry, Journal, Opening, Reply, SEATS, Table};
use swim_targets::Chooser;
use thiserror::Error;

/// Why a call got no reply. The detector, the chooser and the journal are as before.
#[derive(Clone, Copy, Debug, PartialEq, Eq, Error)]
pub enum ApplyFault {
    /// The journal has as many entries as it may have.
    #[error("the journal is full")]
    JournalFull,
    /// Memory for one more entry was refused.
    #[error("memory was refused")]
    NoMemory,
}

impl ApplyFault {
    /// The number of this fault, from 1 on in the order in which they are looked at.
    pub fn number(self) -> u8
        ensures { result ≡ apply_number self }
    {
        match self {
            ApplyFault::JournalFull => 1,
            ApplyFault::NoMemory => 2,
        }
    }
}

/// The sequential detector, which keeps the journal of its calls (sections 3.1 and 4.3 of the SWIM paper).
/// What it draws, it asks of its chooser. A contract sees its opening, the entries, newest first, how many
/// there may be, how many more take no memory, and the chooser.
pub struct Recorder<C: Chooser> {
    journal: Journal,
    state: State,
    // That of the newest call, which stands here so that it can be lent.
    reply: Reply,
    // How many calls each seat made.
    counts: [u32; SEATS as usize],
    chooser: C,
    limit: u32,
}

// By hand, so that whoever holds one proves a single call where it is dropped, and not each field.
impl<C: Chooser> Drop for Recorder<C> {
    fn drop(self) {
        let Recorder {
            journal: _,
            state: _,
            reply: _,
            counts: _,
            chooser: _,
            limit: _,
        } = self;
    }
}

impl<C: Chooser> Model for Recorder<C> {
    ghost use Rattle.std.specs.Prelude.{length};
    ghost use Rattle.swim_detector.specs.Recording.{Recording, IsLatest};
    ghost use Rattle.swim_detector.specs.Mirrors.{Mirrors, Counts};

    ghost Value = { Recording C };

    ghost view = { λ r. record {
      opening = r.journal.opening;
      past = r.journal.past;
      limit = r.limit;
      room = r.journal.room;
      chooser = r.chooser;
    } };

    ghost invariant = { λ r. Mirrors r.journal.opening r.journal.past r.state × Counts r.journal.past r.counts r.limit
        × IsLatest r.journal.past r.reply };
}

impl<C: Chooser> Recorder<C> {
    /// A detector that wasn't called yet, whose journal may have so many entries.
    pub fn open(alloc: Global, opening: Opening, chooser: C, limit: u32) -> Recorder<C>
        ensures opening { result.opening ≡ opening }
        ensures empty { result.past ≡ [] }
        ensures limit { result.limit ≡ limit }
        ensures chooser { result.chooser ≡ chooser }
    {
        let state = State::new(&opening);
        Recorder {
            journal: Journal::new(alloc, opening),
            state,
            reply: Reply::Quiet,
            counts: [0; SEATS as usize],
            chooser,
            limit,
        }
    }

    /// Makes room for one entry, so that the next `apply` or `record` succeeds.
    /// `JournalFull` exactly where the journal has as many entries as it may have.
    pub fn ready(&mut self) -> Result<(), ApplyFault>
        ensures same { IsKept self.old self.new }
        ensures room { OnOk result ((0 < self.new.room) × (length self.new.past < self.new.limit)) }
        ensures succeeds { 0 < self.old.room → length self.old.past < self.old.limit → IsOk result }
        ensures full { (result ≡ Err ApplyFault.JournalFull) ↔ (length self.old.past ≡ self.old.limit) }
        ensures within { length self.old.past ≤ self.old.limit }
    {
        if self.journal.len() == self.limit {
            return Err(ApplyFault::JournalFull);
        }
        match self.journal.room() {
            Ok(()) => Ok(()),
            Err(_) => Err(ApplyFault::NoMemory),
        }
    }

    /// Answers a call of a seat, and adds the entry that it answers. An `Err` changes nothing. After
    /// `ready` was answered `Ok` it succeeds.
    pub fn apply(&mut self, seat: u8, call: Call) -> Result<Entry, ApplyFault>
        requires { seat < SEATS }
        ensures ok { IfOk result
            (λ e. (e.seat ≡ seat) × (e.call ≡ call) × Records C.orders C.places self.old self.new e) }
        ensures err { OnErr result (IsKept self.old self.new) }
        ensures ready { 0 < self.old.room → length self.old.past < self.old.limit → IsOk result }
        ensures full { (result ≡ Err ApplyFault.JournalFull) ↔ (length self.old.past ≡ self.old.limit) }
        ensures within { length self.old.past ≤ self.old.limit }
    {
        self.record(seat, call)?;
        match self.journal.entry(self.journal.len() - 1) {
            Some(entry) => Ok(entry),
            None => unreachable!(),
        }
    }

    /// As `apply`, but it answers no entry, which is large: `reply` lends the reply.
    pub fn record(&mut self, seat: u8, call: Call) -> Result<(), ApplyFault>
        requires { seat < SEATS }
        ensures ok { OnOk result (RecordsCall C.orders C.places self.old self.new seat call) }
        ensures err { OnErr result (IsKept self.old self.new) }
        ensures ready { 0 < self.old.room → length self.old.past < self.old.limit → IsOk result }
        ensures full { (result ≡ Err ApplyFault.JournalFull) ↔ (length self.old.past ≡ self.old.limit) }
        ensures within { length self.old.past ≤ self.old.limit }
    {
        self.ready()?;
        self.record_ready(seat, &call);
        Ok(())
    }

    /// As `record`, after `ready` was answered `Ok`: it has no refusal left.
    pub fn record_ready(&mut self, seat: u8, call: &Call)
        requires seat { seat < SEATS }
        requires room { 0 < self.old.room }
        requires limit { length self.old.past < self.old.limit }
        ensures { RecordsCall C.orders C.places self.old self.new seat call.now }
    {
        let number = self.counts[seat as usize];
        let mut begins_round = false;
        self.state.answer(
            &self.journal,
            &mut self.chooser,
            call,
            &mut self.reply,
            &mut begins_round,
        );
        let (journal, state) = (&mut self.journal, &self.state);
        add(
            journal,
            state,
            seat,
            number,
            call,
            &self.reply,
            begins_round,
        );
        self.counts[seat as usize] = number + 1;
    }

    /// The reply of the newest entry; `Quiet` where there is none.
    pub fn reply(&self) -> &Reply
        ensures { IsLatest self.now.past result.now }
    {
        &self.reply
    }

    /// The change that a call would make to the member table now, if it would make one.
    pub fn change(&self, call: &Call) -> Option<Change>
        ensures { IsChangeOf self.now.opening self.now.past call.now result }
    {
        self.state.change(&self.journal, call)
    }

    /// The members that are known, ascending by id.
    pub fn table(&self) -> Table
        ensures { result.items ≡ table self.now.opening self.now.past }
    {
        self.journal.rows()
    }

    /// What happened so far.
    pub fn journal(&self) -> &Journal
        ensures opening { result.now.opening ≡ self.now.opening }
        ensures past { result.now.past ≡ self.now.past }
    {
        &self.journal
    }

    /// The journal alone.
    pub fn into_journal(self) -> Journal
        ensures opening { result.opening ≡ self.opening }
        ensures past { result.past ≡ self.past }
        ensures within { length result.past ≤ self.limit }
    {
        let Recorder {
            journal,
            state: _,
            reply: _,
            counts: _,
            chooser: _,
            limit: _,
        } = self;
        journal
    }
}

/// Adds the entry of a call.
fn add(
    journal: &mut Journal,
    state: &State,
    seat: u8,
    number: u32,
    call: &Call,
    reply: &Reply,
    begins_round: bool,
)
    requires room { 0 < journal.old.room }
    requires count { length journal.old.past < u32.MAX }
    requires continues { Continues journal.old.opening journal.old.past
        (entry_of seat number call.now (record { reply = reply.now; begins_round = begins_round }) state.now) }
    ensures opening { journal.new.opening ≡ journal.old.opening }
    ensures past { journal.new.past ≡
        entry_of seat number call.now (record { reply = reply.now; begins_round = begins_round }) state.now ∷ journal.old.past }
{
    if begins_round {
        add_start(journal, state, seat, number, call, reply);
    } else {
        journal.add_undrawn(seat, number, call, reply);
    }
}

/// Adds the entry of a call by which a round began.
// A function of its own, since an entry is large, and few calls begin a round.
#[inline(never)]
fn add_start(
    journal: &mut Journal,
    state: &State,
    seat: u8,
    number: u32,
    call: &Call,
    reply: &Reply,
)
    requires room { 0 < journal.old.room }
    requires count { length journal.old.past < u32.MAX }
    requires continues { Continues journal.old.opening journal.old.past
        (round_entry seat number call.now reply.now state.now) }
    ensures opening { journal.new.opening ≡ journal.old.opening }
    ensures past { journal.new.past ≡ round_entry seat number call.now reply.now state.now ∷ journal.old.past }
{
    journal.add(&Entry {
        seat,
        number,
        call: *call,
        choice: state.round(),
        reply: reply.copy(),
    });
}
