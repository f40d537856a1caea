//! The journal: a run of the sequential detector, as it happened.

ghost use Rattle.std.specs.Prelude.{◌≡◌, ◌↔◌, ◌+◌, ◌^◌, ◌<◌, ◌≤◌, ◌==◌, ◌∷◌, ◌++◌, [], None, length, map, reverse};
ghost use Rattle.std.specs.Prelude.{IfSome, IsOk, IfOk, OnOk, slice_get, true, if◌then◌else◌};
ghost use Rattle.std.specs.Option.{option_map, option_to_list};
ghost use Rattle.swim_history.specs.Setting.{IsSetting};
ghost use Rattle.swim_history.specs.Called.{called_of};
ghost use Rattle.swim_history.specs.Events.{is_starting, judged_in};
ghost use Rattle.swim_history.specs.Storing.Written.{undrawn};
ghost use Rattle.swim_history.specs.Run.{Continues, IsRun};
ghost use Rattle.swim_history.specs.Judgement.{judgements, judgement, JudgesByRule};
ghost use Rattle.swim_history.specs.Probes.{probes, probed_by, ProbesAsDrawn};
ghost use Rattle.swim_history.specs.LastProbe.{widest_gap};
ghost use Rattle.swim_history.specs.Gap.{HasNoGap, IsWidest, AreGapsBounded, IsProbedInTime};
ghost use Rattle.swim_history.specs.Clock.{period_number};
ghost use Rattle.swim_history.specs.Rows.{row_of};
ghost use Rattle.swim_history.specs.Changes.{table, known_count, change_by, rows_after, IsAscending};

use crate::calls::Call;
use crate::copies::copied;
use crate::entries::{Called, Entry};
use crate::gaps::Gap;
use crate::openings::Opening;
use crate::probing::{Probed, collect_probed};
use crate::replies::Reply;
use crate::rows::{Row, Table};
use crate::storage::Entries;
use crate::summaries::Summary;
use crate::tables::find_row;
use std::alloc::{AllocError, Global};
use std::marker::Model;
use swim_wire::Id;

/// A member judged failed, and the number of the period at whose end it was.
#[derive(Clone, Copy, Debug, PartialEq, Eq)]
pub struct Judged {
    pub member: Id,
    pub number: u64,
}

/// The entries of a detector since its opening, oldest first. It is a run of the sequential detector from
/// that opening: each entry is one that may follow those before it. A contract sees the opening, the
/// entries, newest first, and how many more it has room for. At most 4294967295 entries.
pub struct Journal {
    opening: Opening,
    entries: Entries,
    summary: Summary,
}

// By hand, so that whoever holds one proves a single call where it is dropped, and not each field.
impl Drop for Journal {
    fn drop(self) {
        let Journal {
            opening: _,
            entries: _,
            summary: _,
        } = self;
    }
}

impl Model for Journal {
    ghost use Rattle.std.specs.Prelude.{◌^◌, ◌<◌, min, reverse, length};
    ghost use Rattle.std.specs.HashMap.{spare};
    ghost use Rattle.swim_history.specs.Setting.{IsSetting};
    ghost use Rattle.swim_history.specs.Run.{IsRun};
    ghost use Rattle.swim_history.specs.Storing.Written.{Written, IsSummary};

    ghost Value = { Written };

    ghost view = { λ j. record {
      opening = j.opening;
      past = reverse j.entries.items;
      room = min j.entries.room (spare j.summary.gaps);
    } };

    ghost invariant = { λ j. IsSetting j.opening
        × IsRun j.opening (reverse j.entries.items)
        × (length j.entries.items < 2 ^ 32)
        × IsSummary j.opening (reverse j.entries.items) j.summary };
}

impl Journal {
    /// The journal of a detector that wasn't called yet.
    pub fn new(alloc: Global, opening: Opening) -> Journal
        ensures opening { result.opening ≡ opening }
        ensures empty { result.past ≡ [] }
    {
        let summary = Summary::new(alloc, &opening);
        Journal {
            opening,
            entries: Entries::new(alloc),
            summary,
        }
    }

    /// What the detector started from.
    pub fn opening(&self) -> &Opening
        ensures value { result.now ≡ self.now.opening }
        ensures run { IsRun self.now.opening self.now.past }
        ensures limits { IsSetting self.now.opening }
    {
        &self.opening
    }

    /// How many entries there are.
    pub fn len(&self) -> u32
        ensures value { result ≡ length self.now.past }
        ensures run { IsRun self.now.opening self.now.past }
        ensures limits { IsSetting self.now.opening }
    {
        self.entries.len() as u32
    }

    /// Whether there is no entry.
    pub fn is_empty(&self) -> bool
        ensures { result ≡ (length self.now.past == 0) }
    {
        self.entries.is_empty()
    }

    /// The entry at a place, counted from 0 at the oldest.
    pub fn entry(&self, place: u32) -> Option<Entry>
        ensures { result ≡ slice_get (reverse self.now.past) place }
    {
        self.entries.get(place as usize)
    }

    /// Returns the call and the reply of the entry at a place, counted from 0 at the oldest: a fourth of what `entry`
    /// copies.
    pub fn called(&self, place: u32) -> Option<Called>
        ensures { result ≡ option_map called_of (slice_get (reverse self.now.past) place) }
    {
        self.entries.called(place as usize)
    }

    /// Makes room for one more entry. `Err` only where the memory for it was refused.
    pub fn room(&mut self) -> Result<(), AllocError>
        ensures opening { self.new.opening ≡ self.old.opening }
        ensures past { self.new.past ≡ self.old.past }
        ensures room { OnOk result (0 < self.new.room) }
        ensures kept { self.old.room ≤ self.new.room }
        ensures succeeds { 0 < self.old.room → IsOk result }
    {
        self.summary.room()?;
        self.entries.room()
    }

    /// Puts an entry last. It can't be refused, since room for it was made.
    pub fn add(&mut self, entry: &Entry)
        requires room { 0 < self.old.room }
        requires count { length self.old.past < u32.MAX }
        requires continues { Continues self.old.opening self.old.past entry.now }
        ensures opening { self.new.opening ≡ self.old.opening }
        ensures past { self.new.past ≡ entry.now ∷ self.old.past }
        ensures room { self.old.room ≤ self.new.room + 1 }
    {
        self.summary.note(&entry.call, &entry.reply);
        self.entries.push(entry);
    }

    /// Puts an entry last for which nothing was drawn. It can't be refused, since room for it was made.
    pub fn add_undrawn(&mut self, seat: u8, number: u32, call: &Call, reply: &Reply)
        requires room { 0 < self.old.room }
        requires count { length self.old.past < u32.MAX }
        requires continues { Continues self.old.opening self.old.past (undrawn seat number call.now reply.now) }
        ensures opening { self.new.opening ≡ self.old.opening }
        ensures past { self.new.past ≡ undrawn seat number call.now reply.now ∷ self.old.past }
        ensures room { self.old.room ≤ self.new.room + 1 }
    {
        self.summary.note(call, reply);
        self.entries.push_undrawn(seat, number, call, reply);
    }

    /// The member table: the rows of the known members, ascending by id.
    pub fn rows(&self) -> Table
        ensures value { result.items ≡ table self.now.opening self.now.past }
        ensures run { IsRun self.now.opening self.now.past }
        ensures limits { IsSetting self.now.opening }
    {
        copied(self.summary.rows.as_slice())
    }

    /// The row of a member, if it is known.
    pub fn row(&self, id: Id) -> Option<Row>
        ensures value { result ≡ row_of self.now.opening self.now.past id }
        ensures run { IsRun self.now.opening self.now.past }
        ensures limits { IsSetting self.now.opening }
    {
        find_row(self.summary.rows.as_slice(), id)
    }

    /// How many members are known.
    pub fn known(&self) -> usize
        ensures value { result ≡ known_count self.now.opening self.now.past }
        ensures run { IsRun self.now.opening self.now.past }
        ensures limits { IsSetting self.now.opening }
    {
        self.summary.rows.len()
    }

    /// The last period number that was used: that of the period that runs, if any.
    pub fn last_number(&self) -> u64
        ensures value { result ≡ period_number self.now.opening self.now.past }
        ensures run { IsRun self.now.opening self.now.past }
        ensures limits { IsSetting self.now.opening }
    {
        self.summary.number
    }

    /// How many members were judged failed, each time counted.
    pub fn judged_count(&self) -> u32
        ensures { result ≡ length (judgements self.now.opening self.now.past) }
    {
        self.summary.judged
    }

    /// Who was judged failed, in the journal's order. Each judgement is one by the rule, and each case of
    /// the rule is judged. `Err` only where memory was refused.
    pub fn judgements(&self) -> Result<Vec<Judged>, AllocError>
        ensures exact { IfOk result (λ judged. judged.items ≡ judgements self.now.opening self.now.past) }
        ensures rule { JudgesByRule self.now.opening self.now.past }
    {
        collect_judged(self.entries.allocator(), &self.opening, &self.entries)
    }

    /// Who was probed, in the journal's order, with the numbers of the periods. As long as nobody joins,
    /// is removed or is judged, they are the members of the drawn orders, one order after the other, and
    /// the last order may be unfinished. `Err` only where memory was refused.
    pub fn probes(&self) -> Result<Vec<Probed>, AllocError>
        ensures exact { IfOk result (λ probed. probed.items ≡ map probed_by (probes self.now.past)) }
        ensures drawn { ProbesAsDrawn self.now.opening self.now.past }
    {
        collect_probed(self.entries.allocator(), &self.entries)
    }

    /// The gap of a member with the greatest `b - a`, the earliest of equals; `None` if there is none. No
    /// gap of any member is more than 2 n - 1 periods wide, with its own n, and each member is probed by
    /// one of 2 n - 1 starts, from the first of which until after the last it is listed.
    pub fn widest_gap(&self, member: Id) -> Option<Gap>
        ensures exact { result ≡ widest_gap self.now.opening member self.now.past }
        ensures widest { IfSome result (λ g. IsWidest self.now.opening self.now.past member g.a g.b g.n) }
        ensures none { (result ≡ None) ↔ HasNoGap self.now.opening self.now.past member }
        ensures bound { AreGapsBounded self.now.opening self.now.past }
        ensures round { IsProbedInTime self.now.opening self.now.past }
    {
        self.summary.widest_gap(member)
    }
}

/// The judgements of a run, with the numbers of the periods that they end.
fn collect_judged(
    alloc: Global,
    opening: &Opening,
    entries: &Entries,
) -> Result<Vec<Judged>, AllocError>
    requires { IsRun opening.now (reverse entries.now.items) }
    ensures exact { IfOk result (λ judged. judged.items ≡ judgements opening.now (reverse entries.now.items)) }
    ensures rule { JudgesByRule opening.now (reverse entries.now.items) }
{
    let mut judged = Vec::new(alloc);
    let mut number = opening.last();
    for place in 0..entries.len() {
        if let Some(start) = entries.start(place) {
            note_judged(&mut judged, start.judged, number)?;
            number += 1;
        }
    }
    Ok(judged)
}

/// Adds the judgement of a start, if it makes one.
fn note_judged(judged: &mut Vec<Judged>, member: Option<Id>, number: u64) -> Result<(), AllocError>
    ensures { OnOk result (judged.new.items ≡ judged.old.items ++ option_to_list (judgement number member)) }
{
    match member {
        Some(member) => Ok(judged.push(Judged { member, number })?),
        None => Ok(()),
    }
}
