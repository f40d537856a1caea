//! Whether targets' clocks went on while they were probed, by the files that are traced.

use crate::accounts::Account;
use std::alloc::{AllocError, Global};
use swim_history::Opening;
use swim_trace::{Presence, ProbeName, Rhythm};
use swim_wire::Id;

/// The pings that came to members, by their files.
#[derive(Drop)]
pub struct Rhythms {
    by_file: Vec<Rhythm>,
}

/// Whether a target's clock went on, and the file that says so.
#[derive(Clone, Copy)]
pub struct Clock {
    pub file: u32,
    pub presence: Presence,
}

impl Rhythms {
    /// Those of these files.
    pub fn of(alloc: Global, accounts: &[Account<'_>]) -> Result<Rhythms, AllocError> {
        let mut by_file = Vec::new(alloc);
        for account in accounts {
            by_file.push(rhythm_of(alloc, account)?)?;
        }
        Ok(Rhythms { by_file })
    }

    /// Whose files these are, as far as they have to do with that one: those of its member, and those that it met.
    pub fn members_beside(
        &self,
        alloc: Global,
        accounts: &[Account<'_>],
        file: u32,
        account: &Account<'_>,
    ) -> Result<Vec<Id>, AllocError> {
        let mut members = Vec::new(alloc);
        let mut other_file = 0u32;
        for other in accounts {
            if other.member == account.member || self.have_met(file, account, other_file, other) {
                members.push(other.member)?;
            }
            other_file = other_file.saturating_add(1);
        }
        Ok(members)
    }

    /// Whether a ping of one's periods came to the other, by their files.
    pub fn have_met(
        &self,
        file: u32,
        account: &Account<'_>,
        other_file: u32,
        other: &Account<'_>,
    ) -> bool {
        self.hears(other_file, account) || self.hears(file, other)
    }

    /// Whether a ping of the periods of a file came to the other file.
    fn hears(&self, file: u32, account: &Account<'_>) -> bool {
        match (self.by_file.get(file as usize), &account.played.journal) {
            (Some(rhythm), Some(journal)) => {
                let last = journal.opening().last();
                rhythm.count_from(account.member, last, journal.last_number()) > 0
            }
            _ => false,
        }
    }

    /// Whether the clock of a probe's target went on, by the last of its files to which a ping of an earlier period
    /// came. Where that one ends and another one goes on from there, it isn't known.
    pub fn clock(
        &self,
        accounts: &[Account<'_>],
        opening: &Opening,
        probe: &ProbeName,
    ) -> Option<Clock> {
        let mut found = None;
        let mut file = 0u32;
        for account in accounts {
            if account.member == probe.target {
                let presence = self.presence(file, opening, probe);
                found = later(found, file, account, presence);
            }
            file = file.saturating_add(1);
        }
        found
    }

    fn presence(&self, file: u32, opening: &Opening, probe: &ProbeName) -> Presence {
        match self.by_file.get(file as usize) {
            Some(rhythm) => rhythm.presence(opening, probe),
            None => Presence::Unknown,
        }
    }
}

/// What is known with one file more of the same member.
fn later(
    found: Option<Clock>,
    file: u32,
    account: &Account<'_>,
    presence: Presence,
) -> Option<Clock> {
    if presence != Presence::Unknown {
        return Some(Clock { file, presence });
    }
    let clock = found?;
    if has_ended(&clock) && !account.is_first_life() {
        return None;
    }
    Some(clock)
}

/// Whether it was told by the end of a file.
fn has_ended(clock: &Clock) -> bool {
    match &clock.presence {
        Presence::Ended(_) => true,
        Presence::Unknown | Presence::Ran(_) | Presence::StoodStill(_) => false,
    }
}

/// The pings that came to the member of a file.
fn rhythm_of(alloc: Global, account: &Account<'_>) -> Result<Rhythm, AllocError> {
    match &account.played.journal {
        Some(journal) => Rhythm::of(alloc, journal, account.confirmed()),
        None => Ok(Rhythm::new(alloc)),
    }
}
