//! The entries of a journal, as they are stored.

ghost use Rattle.std.specs.Prelude.{◌≡◌, ◌+◌, ◌<◌, ◌≤◌, ◌==◌, ◌++◌, ◌∷◌, [], length, vec_len, vec_capacity, slice_get};
ghost use Rattle.std.specs.Prelude.{slice_index_or, OnOk, IsOk};
ghost use Rattle.std.specs.Option.{option_map};
ghost use Rattle.swim_history.specs.declared.entries.Entry.{Entry};
ghost use Rattle.swim_history.specs.declared.storage.Slot.TheVariants.{Whole};
ghost use Rattle.swim_history.specs.Called.{called_of};
ghost use Rattle.swim_history.specs.Storing.Storage.{ids_in, drawn_at, choice_among, entry_among, IsWithin};
ghost use Rattle.swim_history.specs.Storing.StoredReplies.{reply_among, IsAskedWithin, start_in};
ghost use Rattle.swim_history.specs.Storing.Written.{undrawn};

use crate::calls::Call;
use crate::copies::copied;
use crate::entries::{Called, Choice, Entry};
use crate::replies::{MOST_RELAYS, Relay, Reply};
use crate::stored_replies::{Start, StoredReply, reply_among, start_in, store_reply};
use std::alloc::{AllocError, Global};
use std::marker::Model;
use std::slice;
use swim_wire::{Id, KNOWN_MEMBERS};

/// What is stored for each entry, in 16 bytes.
#[derive(Clone, Copy)]
enum Slot {
    /// A tick in which nothing was to be done, as most ticks are.
    Quiet { seat: u8, number: u32 },
    /// Any entry, the rest of which stands at this place among those that are stored whole.
    Whole { seat: u8, number: u32, place: usize },
}

const _: () = prove!(size_of::<Slot>() == 16);

/// An entry, but for its seat and number, which its slot has, and for the ids that were drawn for it and the relays
/// that it asks. It takes 104 bytes, where an `Entry` takes 704.
#[derive(Clone, Copy)]
struct Stored {
    drawn: Drawn,
    call: Call,
    reply: StoredReply,
}

const _: () = prove!(size_of::<Stored>() == 104);

const _: () = prove!(size_of::<Entry>() == 704);

/// Where the ids that were drawn for an entry stand among those of all entries.
#[derive(Clone, Copy)]
enum Drawn {
    Nothing,
    Round { count: u8, start: usize },
}

/// Entries in order. Most of them are quiet ticks, and few begin a round or ask relays: so the others stand
/// apart, and so do the ids of drawn orders and the relays, one list after the other. A contract sees the
/// entries, oldest first, and how many more take no memory.
#[derive(Drop)]
pub(crate) struct Entries {
    slots: Vec<Slot>,
    whole: Vec<Stored>,
    relays: Vec<Relay>,
    ids: Vec<Id>,
}

impl Model for Entries {
    ghost use Rattle.std.specs.Prelude.{◌-◌, ◌/◌, map, min, length, vec_len, vec_capacity};
    ghost use Rattle.swim_wire.specs.Ids.{most_members};
    ghost use Rattle.swim_history.specs.Setting.{most_relays};
    ghost use Rattle.swim_history.specs.Storing.Storage.{Storage, entry_in, ArePlaced, AreWithin};

    ghost Value = { Storage };

    ghost view = { λ e. record {
      items = map (entry_in e.ids.items e.relays.items e.whole.items) e.slots.items;
      room = min (min (vec_capacity e.slots - vec_len e.slots) (vec_capacity e.whole - vec_len e.whole))
          (min ((vec_capacity e.relays - vec_len e.relays) / most_relays)
          ((vec_capacity e.ids - vec_len e.ids) / most_members));
    } };

    ghost invariant = { λ e. ArePlaced (length e.whole.items) e.slots.items
        × AreWithin (length e.ids.items) (length e.relays.items) e.whole.items };
}

impl Entries {
    /// No entries. They take no memory.
    pub(crate) fn new(alloc: Global) -> Entries
        ensures { result.items ≡ [] }
    {
        Entries {
            slots: Vec::new(alloc),
            whole: Vec::new(alloc),
            relays: Vec::new(alloc),
            ids: Vec::new(alloc),
        }
    }

    pub(crate) fn allocator(&self) -> Global {
        *self.slots.allocator()
    }

    pub(crate) fn len(&self) -> usize
        ensures { result ≡ length self.now.items }
    {
        self.slots.len()
    }

    pub(crate) fn is_empty(&self) -> bool
        ensures { result ≡ (length self.now.items == 0) }
    {
        self.slots.is_empty()
    }

    /// Makes room for one more entry. `Err` only where the memory for it was refused.
    pub(crate) fn room(&mut self) -> Result<(), AllocError>
        ensures items { self.new.items ≡ self.old.items }
        ensures room { OnOk result (0 < self.new.room) }
        ensures kept { self.old.room ≤ self.new.room }
        ensures succeeds { 0 < self.old.room → IsOk result }
    {
        self.slots.reserve(1)?;
        self.whole.reserve(1)?;
        self.relays.reserve(MOST_RELAYS)?;
        self.ids.reserve(KNOWN_MEMBERS)
    }

    /// Puts an entry last. It can't be refused, since room for it was made.
    pub(crate) fn push(&mut self, entry: &Entry)
        requires { 0 < self.old.room }
        ensures items { self.new.items ≡ self.old.items ++ entry.now ∷ [] }
        ensures room { self.old.room ≤ self.new.room + 1 }
    {
        let stored = Stored {
            drawn: store_ids(&mut self.ids, &entry.choice),
            call: entry.call,
            reply: store_reply(&mut self.relays, &entry.reply),
        };
        store_whole(
            &mut self.slots,
            &mut self.whole,
            entry.seat,
            entry.number,
            &stored,
        );
    }

    /// Puts an entry last for which nothing was drawn. It can't be refused, since room for it was made.
    pub(crate) fn push_undrawn(&mut self, seat: u8, number: u32, call: &Call, reply: &Reply)
        requires { 0 < self.old.room }
        ensures items { self.new.items ≡ self.old.items ++ undrawn seat number call.now reply.now ∷ [] }
        ensures room { self.old.room ≤ self.new.room + 1 }
    {
        if let (Call::Tick, Reply::Quiet) = (call, reply) {
            let _ = self.slots.push(Slot::Quiet { seat, number });
            return;
        }
        let stored = Stored {
            drawn: Drawn::Nothing,
            call: *call,
            reply: store_reply(&mut self.relays, reply),
        };
        store_whole(&mut self.slots, &mut self.whole, seat, number, &stored);
    }

    /// The entry at a place, counted from 0 at the oldest.
    pub(crate) fn get(&self, place: usize) -> Option<Entry>
        ensures { result ≡ slice_get self.now.items place }
    {
        match self.slots.as_slice().get(place)? {
            Slot::Quiet { seat, number } => Some(Entry {
                seat: *seat,
                number: *number,
                call: Call::Tick,
                choice: Choice::Nothing,
                reply: Reply::Quiet,
            }),
            Slot::Whole {
                seat,
                number,
                place,
            } => Some(entry_among(
                self.ids.as_slice(),
                self.relays.as_slice(),
                *seat,
                *number,
                &self.whole[*place],
            )),
        }
    }

    /// Returns the call and the reply of the entry at a place, counted from 0 at the oldest. It reads no ids.
    pub(crate) fn called(&self, place: usize) -> Option<Called>
        ensures { result ≡ option_map called_of (slice_get self.now.items place) }
    {
        match self.slots.as_slice().get(place)? {
            Slot::Quiet { seat, number } => Some(Called {
                seat: *seat,
                number: *number,
                call: Call::Tick,
                reply: Reply::Quiet,
            }),
            Slot::Whole {
                seat,
                number,
                place,
            } => Some(called_among(self.relays.as_slice(), *seat, *number, &self.whole[*place])),
        }
    }

    /// What the entry at a place begins, if a period.
    pub(crate) fn start(&self, place: usize) -> Option<Start>
        requires { place < length self.now.items }
        ensures { (e : Entry) → result ≡ start_in (slice_index_or self.now.items place e).reply }
    {
        match &self.slots[place] {
            Slot::Quiet { .. } => None,
            Slot::Whole { place, .. } => start_in(&self.whole[*place].reply),
        }
    }
}

/// Puts an entry behind those that are stored whole, and its place behind the slots. It takes no memory.
fn store_whole(
    slots: &mut Vec<Slot>,
    whole: &mut Vec<Stored>,
    seat: u8,
    number: u32,
    stored: &Stored,
)
    requires slots { vec_len slots.old < vec_capacity slots.old }
    requires whole { vec_len whole.old < vec_capacity whole.old }
    ensures slots { slots.new.items ≡ slots.old.items ++ Whole seat number (length whole.old.items) ∷ [] }
    ensures whole { whole.new.items ≡ whole.old.items ++ stored.now ∷ [] }
    ensures capacity { (vec_capacity slots.old ≤ vec_capacity slots.new)
        × (vec_capacity whole.old ≤ vec_capacity whole.new) }
{
    let place = whole.len();
    let _ = slots.push(Slot::Whole {
        seat,
        number,
        place,
    });
    // As a slice of one: the prover has no plan for the move of a value with so many types in it.
    let _ = whole.extend_from_slice(slice::from_ref(stored));
}

/// An entry, from how it is stored.
fn entry_among(ids: &[Id], relays: &[Relay], seat: u8, number: u32, stored: &Stored) -> Entry
    requires drawn { IsWithin (length ids.now) stored.now.drawn }
    requires asked { IsAskedWithin (length relays.now) stored.now.reply }
    ensures { result ≡ entry_among ids.now relays.now seat number stored.now }
{
    Entry {
        seat,
        number,
        call: stored.call,
        choice: choice_among(ids, &stored.drawn),
        reply: reply_among(relays, &stored.reply),
    }
}

/// Returns the call and the reply of an entry, from how it is stored.
fn called_among(relays: &[Relay], seat: u8, number: u32, stored: &Stored) -> Called
    requires { IsAskedWithin (length relays.now) stored.now.reply }
    ensures { result ≡ record {
      seat = seat;
      number = number;
      call = stored.now.call;
      reply = reply_among relays.now stored.now.reply;
    } }
{
    let reply = reply_among(relays, &stored.reply);
    Called {
        seat,
        number,
        call: stored.call,
        reply,
    }
}

/// Puts the ids that were drawn behind the others, and answers where they stand. It takes no memory.
fn store_ids(ids: &mut Vec<Id>, choice: &Choice) -> Drawn
    requires { vec_len ids.old + KNOWN_MEMBERS ≤ vec_capacity ids.old }
    ensures ids { ids.new.items ≡ ids.old.items ++ ids_in choice.now }
    ensures drawn { result ≡ drawn_at (length ids.old.items) choice.now }
    ensures within { IsWithin (length ids.new.items) result }
    ensures capacity { vec_capacity ids.old ≤ vec_capacity ids.new }
    ensures len { vec_len ids.new ≤ vec_len ids.old + KNOWN_MEMBERS }
{
    match choice {
        Choice::Nothing => Drawn::Nothing,
        Choice::Round(order) => {
            let start = ids.len();
            let _ = ids.extend_from_slice(order.as_slice());
            Drawn::Round {
                count: order.len() as u8,
                start,
            }
        }
    }
}

/// What was drawn, from where it stands.
fn choice_among(ids: &[Id], drawn: &Drawn) -> Choice
    requires { IsWithin (length ids.now) drawn.now }
    ensures { result ≡ choice_among ids.now drawn.now }
{
    match drawn {
        Drawn::Nothing => Choice::Nothing,
        Drawn::Round { count, start } => {
            let end = *start + *count as usize;
            Choice::Round(copied(&ids[*start..end]))
        }
    }
}
