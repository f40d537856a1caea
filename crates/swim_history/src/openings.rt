//! What a detector starts from.

ghost use Rattle.std.specs.Prelude.{◌≡◌, ℕ, ◌↔◌, ◌≤◌, ◌==◌, ◌&&◌, Some, None, length, MatchResult, IsOk, if◌then◌else◌};
ghost use Rattle.swim_wire.specs.Ids.{has, has_twice as stands_twice};
ghost use Rattle.swim_wire.specs.declared.messages.Version.{Version};
ghost use Rattle.swim_history.specs.declared.rows.Change.TheVariants as changes;
ghost use Rattle.swim_history.specs.declared.rows.RowState.TheVariants.{Failed};
ghost use Rattle.swim_history.specs.Changes.{after_change};
ghost use Rattle.swim_history.specs.Rows.{failed};
ghost use Rattle.swim_history.specs.Setting.{IsSetting, ids_of, is_state_past};
ghost use Rattle.swim_history.specs.Check.{first_fault, fault_number, setting_of, setting_failed, rows_up};
ghost use Rattle.swim_history.specs.After.{setting_after, NumbersGoOn};

use crate::changing::copy_table;
use crate::journals::Journal;
use crate::replies::MOST_RELAYS;
use crate::rows::{Row, RowState, Table};
use std::marker::Model;
use swim_wire::{Id, KNOWN_MEMBERS, Peer, Version};
use thiserror::Error;

/// The longest period, in ticks.
pub const LONGEST_PERIOD: u32 = 65535;

/// Why a detector can't start so. The first that applies is told.
#[derive(Clone, Copy, Debug, PartialEq, Eq, Error)]
pub enum OpeningFault {
    /// More than [`MOST_RELAYS`] relays.
    #[error("more than 8 relays")]
    Relays,
    /// A timeout of 0 ticks, a period of less than three timeouts, or one of more than 65535 ticks.
    #[error("a timeout of 0 ticks, or a period of less than three timeouts or of more than 65535 ticks")]
    Timing,
    /// More than [`KNOWN_MEMBERS`] members.
    #[error("more than 128 members")]
    TooManyRows,
    /// This member is among the others.
    #[error("this member is among the others")]
    Myself,
    /// A member stands twice.
    #[error("a member stands twice")]
    Twice,
}

impl OpeningFault {
    /// The number that texts tell, from 1 on in the order of the faults.
    pub fn number(self) -> u8
        ensures { result ≡ fault_number self }
    {
        match self {
            OpeningFault::Relays => 1,
            OpeningFault::Timing => 2,
            OpeningFault::TooManyRows => 3,
            OpeningFault::Myself => 4,
            OpeningFault::Twice => 5,
        }
    }
}

/// What a detector starts from: this member, how many relays it asks, the timeout (`rtt`) and the period
/// in ticks, the other members that it knows, the last period number that was used before, and the version of
/// its own pings and ping-reqs (sections 3.1 and 4.3 of the SWIM paper). It is within the limits that `check`
/// tests. A contract sees it as a `Setting`.
#[derive(Debug, Drop)]
pub struct Opening {
    me: Id,
    k: u32,
    rtt: u32,
    period: u32,
    rows: Table,
    last: u64,
    version: Version,
}

impl Model for Opening {
    ghost use Rattle.swim_history.specs.Setting.{Setting, IsSetting};

    ghost Value = { Setting };

    ghost view = { λ o. record {
      me = o.me;
      k = o.k;
      rtt = o.rtt;
      period = o.period;
      rows = o.rows.items;
      last = o.last;
      version = o.version;
    } };

    ghost invariant = { λ o. IsSetting (record {
      me = o.me;
      k = o.k;
      rtt = o.rtt;
      period = o.period;
      rows = o.rows.items;
      last = o.last;
      version = o.version;
    }) };
}

impl Opening {
    /// The opening of these parameters, with all members up in the order given, or the first fault. The version is that
    /// of the member's own pings and ping-reqs.
    pub fn check(
        me: Id,
        k: u32,
        rtt: u32,
        period: u32,
        rows: &[(Id, Peer)],
        last: u64,
        version: Version,
    ) -> Result<Opening, OpeningFault>
        ensures exact { let setting = setting_of me k rtt period rows.now last version in MatchResult result
            (λ opening. (first_fault setting ≡ None) × (opening ≡ setting))
            (λ fault. first_fault setting ≡ Some fault) }
        ensures accepts { IsOk result ↔ IsSetting (setting_of me k rtt period rows.now last version) }
    {
        match fault_of(me, k, rtt, period, rows) {
            Some(fault) => Err(fault),
            None => Ok(Opening {
                me,
                k,
                rtt,
                period,
                rows: rows_of(rows),
                last,
                version,
            }),
        }
    }

    /// What a detector goes on from after a journal: the same parameters, the members that are known at its end, up or
    /// failed, ascending by id, and the last period number that it used. Each period begun from it has a greater
    /// number than every one of the journal.
    #[tactic(auto, using(crate::specs::Laws::After::setting_after_is, crate::specs::Laws::After::numbers_go_on))]
    pub fn after(journal: &Journal) -> Opening
        ensures exact { result ≡ setting_after journal.now.opening journal.now.past }
        ensures numbers { NumbersGoOn journal.now.opening journal.now.past }
    {
        let opening = journal.opening();
        Opening {
            me: opening.me,
            k: opening.k,
            rtt: opening.rtt,
            period: opening.period,
            rows: journal.rows(),
            last: journal.last_number(),
            version: opening.version,
        }
    }

    /// The same opening, but that member failed in the period of that number, as it may have in an earlier life. None
    /// where it isn't among the members, or no period of that number was used: it is from 1 to `last`.
    #[tactic(auto, using(crate::specs::Laws::Failing::failed_is))]
    pub fn with_failed(&self, id: Id, number: u64) -> Option<Opening>
        ensures { result ≡ (if has (ids_of self.now.rows) id && is_state_past self.now.last (Failed number)
            then Some (setting_failed id number self.now) else None) }
    {
        if number == 0 || number > self.last || !has_row(self.rows(), id) {
            return None;
        }
        Some(Opening {
            me: self.me,
            k: self.k,
            rtt: self.rtt,
            period: self.period,
            rows: rows_with_failed(self.rows(), id, number),
            last: self.last,
            version: self.version,
        })
    }

    /// The same opening again. It takes no memory.
    pub fn copy(&self) -> Opening
        ensures { result ≡ self.now }
    {
        Opening {
            me: self.me,
            k: self.k,
            rtt: self.rtt,
            period: self.period,
            rows: copy_table(self.rows()),
            last: self.last,
            version: self.version,
        }
    }

    /// This member.
    pub fn me(&self) -> Id
        ensures { result ≡ self.now.me }
    {
        self.me
    }

    /// How many members are asked for an indirect probe.
    pub fn k(&self) -> u32
        ensures value { result ≡ self.now.k }
        ensures limits { IsSetting self.now }
    {
        self.k
    }

    /// The timeout, in ticks.
    pub fn rtt(&self) -> u32
        ensures value { result ≡ self.now.rtt }
        ensures limits { IsSetting self.now }
    {
        self.rtt
    }

    /// The period, in ticks.
    pub fn period(&self) -> u32
        ensures value { result ≡ self.now.period }
        ensures limits { IsSetting self.now }
    {
        self.period
    }

    /// The members known at the start, in the order given.
    pub fn rows(&self) -> &[Row]
        ensures value { result.now ≡ self.now.rows }
        ensures limits { IsSetting self.now }
    {
        self.rows.as_slice()
    }

    /// The last period number that was used before.
    pub fn last(&self) -> u64
        ensures value { result ≡ self.now.last }
        ensures limits { IsSetting self.now }
    {
        self.last
    }

    /// The version of this member's own pings and ping-reqs.
    pub fn version(&self) -> Version
        ensures { result ≡ self.now.version }
    {
        self.version
    }
}

/// The first fault of these parameters. The last number and the version have none.
fn fault_of(me: Id, k: u32, rtt: u32, period: u32, rows: &[(Id, Peer)]) -> Option<OpeningFault>
    ensures first { (last : ℕ) (version : Version) →
        result ≡ first_fault (setting_of me k rtt period rows.now last version) }
    ensures room { result ≡ None → length rows.now ≤ KNOWN_MEMBERS }
{
    if k as usize > MOST_RELAYS {
        return Some(OpeningFault::Relays);
    }
    if rtt == 0 || u64::from(period) < 3 * u64::from(rtt) || period > LONGEST_PERIOD {
        return Some(OpeningFault::Timing);
    }
    if rows.len() > KNOWN_MEMBERS {
        return Some(OpeningFault::TooManyRows);
    }
    if names_member(rows, me) {
        return Some(OpeningFault::Myself);
    }
    if has_twice(rows) {
        return Some(OpeningFault::Twice);
    }
    None
}

/// Whether a member is among the rows.
fn names_member(rows: &[(Id, Peer)], id: Id) -> bool
    ensures { result ≡ has (ids_of (rows_up rows.now)) id }
{
    match rows {
        [] => false,
        [first, others @ ..] => id == first.0 || names_member(others, id),
    }
}

/// Whether some member stands twice.
fn has_twice(rows: &[(Id, Peer)]) -> bool
    ensures { result ≡ stands_twice (ids_of (rows_up rows.now)) }
{
    match rows {
        [] => false,
        [first, others @ ..] => names_member(others, first.0) || has_twice(others),
    }
}

/// The rows of members that are up.
fn rows_of(members: &[(Id, Peer)]) -> Table
    requires { length members.now ≤ KNOWN_MEMBERS }
    ensures { result.items ≡ rows_up members.now }
{
    let mut rows = Table::new();
    for member in members {
        rows.push(Row {
            id: member.0,
            peer: member.1,
            state: RowState::Up,
        });
    }
    rows
}

/// Whether a member has a row.
fn has_row(rows: &[Row], id: Id) -> bool
    ensures { result ≡ has (ids_of rows.now) id }
{
    match rows {
        [] => false,
        [first, others @ ..] => id == first.id || has_row(others, id),
    }
}

/// The rows, of which the member's tells that it failed.
fn rows_with_failed(rows: &[Row], id: Id, number: u64) -> Table
    requires { length rows.now ≤ KNOWN_MEMBERS }
    ensures { result.items ≡ after_change (changes.Failed id number) rows.now }
{
    let mut made = Table::new();
    for row in rows {
        made.push(failed_if_it_is(*row, id, number));
    }
    made
}

/// A row, which tells that its member failed where it is that one.
fn failed_if_it_is(row: Row, id: Id, number: u64) -> Row
    ensures { result ≡ (if row.id == id then failed number row else row) }
{
    if row.id != id {
        return row;
    }
    Row {
        state: RowState::Failed(number),
        ..row
    }
}
