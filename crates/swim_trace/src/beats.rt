//! The pings by which a member was known to hear others, and how its clock went on between them.

ghost use Rattle.std.specs.Prelude.{◌≡◌, ◌++◌, ◌∷◌, [], ℕ, List, IfOk, OnOk, Some, filter, is_some, length, nat_eq};
ghost use Rattle.std.specs.Prelude.{reverse, take, true};
ghost use Rattle.std.specs.HashMap.{get};
ghost use Rattle.swim_history.specs.declared.entries.Entry.{Entry};
ghost use Rattle.swim_history.specs.Events.{is_ticking};
ghost use Rattle.swim_trace.specs.Beats.{Follows, beat_in, beats, greatest_of, is_from, is_own_ping, is_within};
ghost use Rattle.swim_trace.specs.Beats.{kept_of, reach, ticks_with, with_beat};

use std::alloc::{AllocError, Global};
use std::collections::HashMap;
use swim_history::{Call, Called, Journal, Reply};
use swim_wire::{Id, Kind, Message};

/// A ping that came to its target from the member that began the probe.
#[derive(Clone, Copy, Debug, PartialEq, Eq)]
pub struct Beat {
    /// Who began it.
    pub initiator: Id,
    /// The number of its period.
    pub number: u64,
    /// How many entries stand before the one that heard it.
    pub place: u32,
    /// How many ticks the target had before it.
    pub ticks: u64,
}

/// A ping, with the greatest number of it and of its initiator's pings before it. These rise, though a ping may come
/// behind one that was sent later.
#[derive(Clone, Copy, Debug, PartialEq, Eq)]
pub(crate) struct Reach {
    pub beat: Beat,
    pub greatest: u64,
}

/// The pings that came to a member in its first entries, of each initiator in order, and how many ticks these are.
#[derive(Drop)]
pub struct Rhythm {
    alloc: Global,
    beats: HashMap<u32, Vec<Reach>>,
    ticks: u64,
}

impl Rhythm {
    /// That of no entries.
    pub fn new(alloc: Global) -> Rhythm
        ensures { (me : ℕ) → Follows me [] result }
    {
        Rhythm {
            alloc,
            beats: HashMap::new(alloc),
            ticks: 0,
        }
    }

    /// That of the first entries of a journal: so many, `confirmed`, or all that there are. `Err` only where memory was
    /// refused.
    pub fn of(alloc: Global, journal: &Journal, confirmed: u32) -> Result<Rhythm, AllocError>
        ensures { IfOk result
            (λ found. Follows journal.now.opening.me (reverse (take confirmed (reverse journal.now.past))) found) }
    {
        let me = journal.opening().me();
        let mut found = Rhythm::new(alloc);
        for place in 0..confirmed.min(journal.len()) {
            if let Some(called) = journal.called(place) {
                found.note(me, place, &called)?;
            }
        }
        Ok(found)
    }

    /// How many pings came of that initiator in its periods behind the one of number `last`, up to `latest`.
    pub fn count_from(&self, initiator: Id, last: u64, latest: u64) -> usize
        ensures { (me : ℕ) (h : List Entry) → Follows me h self.now →
            result ≡ length (filter (is_from initiator last latest) (beats me h)) }
    {
        count_within(self.kept_of(initiator), last, latest)
    }

    /// How many ticks these entries have.
    pub(crate) fn ticks(&self) -> u64
        ensures { result ≡ self.now.ticks }
    {
        self.ticks
    }

    /// The pings of an initiator.
    pub(crate) fn kept_of(&self, initiator: Id) -> &[Reach]
        ensures { result.now ≡ kept_of initiator self.now }
    {
        match self.beats.get(&initiator.get()) {
            Some(kept) => kept.as_slice(),
            None => &[],
        }
    }

    /// Goes one entry on, which stands at that place.
    fn note(&mut self, me: Id, place: u32, called: &Called) -> Result<(), AllocError>
        ensures beats { OnOk result ((m : ℕ) → kept_of m self.new
            ≡ with_beat m (beat_in me place self.old.ticks called.now.call) (kept_of m self.old)) }
        ensures ticks { OnOk result (self.new.ticks ≡ ticks_with self.old.ticks called.now.call called.now.reply) }
    {
        let ticks = self.ticks;
        if let Some(beat) = beat_in(me, place, ticks, &called.call) {
            self.add(beat)?;
        }
        self.ticks = ticks_with(ticks, &called.call, &called.reply);
        Ok(())
    }

    /// Adds a ping behind those of the same initiator.
    fn add(&mut self, beat: Beat) -> Result<(), AllocError>
        ensures beats { OnOk result ((m : ℕ) → kept_of m self.new ≡ with_beat m (Some beat) (kept_of m self.old)) }
        ensures ticks { OnOk result (self.new.ticks ≡ self.old.ticks) }
    {
        self.begin(beat.initiator)?;
        if let Some(kept) = self.beats.get_mut(&beat.initiator.get()) {
            add_beat(kept, beat)?;
        }
        Ok(())
    }

    /// From now on there is a list of the pings of that initiator.
    fn begin(&mut self, initiator: Id) -> Result<(), AllocError>
        ensures begun { OnOk result (is_some (get nat_eq self.new.beats initiator) ≡ true) }
        ensures beats { OnOk result ((m : ℕ) → kept_of m self.new ≡ kept_of m self.old) }
        ensures ticks { OnOk result (self.new.ticks ≡ self.old.ticks) }
    {
        if self.beats.contains_key(&initiator.get()) {
            return Ok(());
        }
        let none = Vec::new(self.alloc);
        self.beats.insert(initiator.get(), none)?;
        Ok(())
    }
}

/// Adds a ping behind others of the same initiator.
fn add_beat(kept: &mut Vec<Reach>, beat: Beat) -> Result<(), AllocError>
    ensures { OnOk result (kept.new.items ≡ kept.old.items ++ reach (greatest_of 0 kept.old.items) beat ∷ []) }
{
    let before = greatest_of(kept.as_slice());
    let greatest = before.max(beat.number);
    kept.push(Reach { beat, greatest })?;
    Ok(())
}

/// The greatest number of these pings; 0 where there are none.
#[tactic(auto, using(crate::proofs::Reaches::greatest_is_last, crate::proofs::Reaches::greatest_of_none))]
fn greatest_of(kept: &[Reach]) -> u64
    ensures { result ≡ greatest_of 0 kept.now }
{
    match kept.last() {
        Some(last) => last.greatest,
        None => 0,
    }
}

/// How many ticks there are with one entry more.
fn ticks_with(ticks: u64, call: &Call, reply: &Reply) -> u64
    ensures { result ≡ ticks_with ticks call.now reply.now }
{
    if is_ticking(call, reply) {
        ticks.saturating_add(1)
    } else {
        ticks
    }
}

/// The ping by which a call reached its target, which is this member, if it is one of the initiator's own.
fn beat_in(me: Id, place: u32, ticks: u64, call: &Call) -> Option<Beat>
    ensures { result ≡ beat_in me place ticks call.now }
{
    match call {
        Call::Hear(_, message) if is_own_ping(me, message) => Some(Beat {
            initiator: message.initiator,
            number: message.number.get(),
            place,
            ticks,
        }),
        _ => None,
    }
}

/// Whether a message is a ping of this member that its initiator sent.
fn is_own_ping(me: Id, message: &Message) -> bool
    ensures { result ≡ is_own_ping me message.now }
{
    message.kind == Kind::Ping && message.target == me && message.sender == message.initiator
}

/// Whether an entry is an accepted tick.
fn is_ticking(call: &Call, reply: &Reply) -> bool
    ensures { result ≡ is_ticking call.now reply.now }
{
    match (call, reply) {
        (Call::Tick, Reply::Refused(_)) => false,
        (Call::Tick, _) => true,
        _ => false,
    }
}

/// How many of these pings are of these periods.
fn count_within(kept: &[Reach], last: u64, latest: u64) -> usize
    ensures { result ≡ length (filter (is_within last latest) kept.now) }
{
    let mut count = 0;
    for one in kept {
        if is_within(last, latest, one) {
            count += 1;
        }
    }
    count
}

/// Whether a ping is of one of these periods.
fn is_within(last: u64, latest: u64, one: &Reach) -> bool
    ensures { result ≡ is_within last latest one.now }
{
    last < one.beat.number && one.beat.number <= latest
}
