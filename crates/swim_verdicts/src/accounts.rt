//! Journal files of several members that were played, and the names of their entries.

use crate::examining::Played;
use std::alloc::{AllocError, Global};
use std::fmt;
use swim_evidence::{Draw, Evidence, Finding};
use swim_history::Journal;
use swim_timeline::StartTime;
use swim_trace::{ActIndex, Spot};
use swim_wire::Id;

/// A file that was played and tells an opening.
#[derive(Drop)]
pub struct Account<'a> {
    pub path: &'a str,
    /// Whose file it is.
    pub member: Id,
    pub played: Played,
}

impl<'a> Account<'a> {
    /// The file of that path; `None` where no line of it tells an opening, or that is refused.
    pub fn of(path: &'a str, played: Played) -> Option<Account<'a>> {
        let member = played.journal.as_ref()?.opening().me();
        Some(Account {
            path,
            member,
            played,
        })
    }

    /// How many of its entries are confirmed, from the first on.
    pub fn confirmed(&self) -> u32 {
        self.played.witness.confirmations.confirmed
    }

    /// What its confirmed entries tell of judgements.
    pub fn findings(&self) -> &[Finding] {
        match &self.played.found {
            Ok(found) => found.findings.as_slice(),
            Err(_) => &[],
        }
    }

    /// The first of these judgements that its confirmed entries tell.
    pub fn first_judgement(&self, choice: &Choice) -> Option<&Evidence> {
        for finding in self.findings() {
            if let Some(evidence) = choice.judgement(finding) {
                return Some(evidence);
            }
        }
        None
    }

    /// How many of these judgements they tell.
    pub fn count_judgements(&self, choice: &Choice) -> usize {
        let mut count = 0usize;
        for finding in self.findings() {
            if choice.judgement(finding).is_some() {
                count = count.saturating_add(1);
            }
        }
        count
    }

    /// When the period began whose start stands at that place.
    pub fn time(&self, place: u32) -> Option<StartTime> {
        self.played.witness.times.get(&place).copied()
    }

    /// From what its life draws, as far as its header tells that.
    pub fn draw(&self) -> Option<&Draw> {
        match &self.played.witness.heading {
            Some(heading) => heading.draw.as_ref(),
            None => None,
        }
    }

    /// Whether it is the first life of a start of its daemon, as its header tells.
    pub fn is_first_life(&self) -> bool {
        match self.draw() {
            Some(draw) => draw.life == 0,
            None => false,
        }
    }

    /// Whether both are files of one life: the same member's, with no other seed or life, and one of them is a front of
    /// the other.
    pub fn is_same_life(&self, other: &Account<'_>) -> bool {
        if self.member != other.member || self.draws_otherwise(other) {
            return false;
        }
        match (&self.played.journal, &other.played.journal) {
            (Some(journal), Some(others)) => are_fronts(journal, others),
            _ => false,
        }
    }

    /// Whether both tell from what they draw, and not the same.
    fn draws_otherwise(&self, other: &Account<'_>) -> bool {
        match (self.draw(), other.draw()) {
            (Some(draw), Some(that)) => draw.key != that.key || draw.life != that.life,
            _ => false,
        }
    }

    /// The life before this one, where it isn't among these files and an earlier one of the same start is.
    pub fn missing_life(&self, accounts: &[Account<'_>]) -> Option<u64> {
        let draw = self.draw()?;
        let before = draw.life.checked_sub(1)?;
        let mut has_earlier = false;
        for other in accounts {
            if let Some(life) = other.life_with(self.member, draw) {
                if life == before {
                    return None;
                }
                has_earlier = has_earlier || life < before;
            }
        }
        if has_earlier { Some(before) } else { None }
    }

    /// The number of its life, where it is that member's and draws from that seed.
    fn life_with(&self, member: Id, draw: &Draw) -> Option<u64> {
        let own = self.draw()?;
        if self.member == member && own.key == draw.key {
            Some(own.life)
        } else {
            None
        }
    }
}

/// Whether one of two journals is a front of the other.
fn are_fronts(journal: &Journal, other: &Journal) -> bool {
    for place in 0..journal.len().min(other.len()) {
        let entry = journal.entry(place);
        let others = other.entry(place);
        if entry != others {
            return false;
        }
    }
    true
}

/// Which judgements are traced.
#[derive(Clone, Copy)]
pub struct Choice {
    /// Those of that member alone.
    pub judged: Option<Id>,
    /// Those of that period alone.
    pub period: Option<u64>,
}

impl Choice {
    /// The judgement that was found, if it is among these.
    pub fn judgement<'f>(&self, finding: &'f Finding) -> Option<&'f Evidence> {
        match finding {
            Finding::Judged(evidence) if self.has(evidence) => Some(evidence),
            _ => None,
        }
    }

    /// Whether neither a member nor a period is named.
    pub fn is_open(&self) -> bool {
        self.judged.is_none() && self.period.is_none()
    }

    fn has(&self, evidence: &Evidence) -> bool {
        let is_member = match self.judged {
            Some(member) => member == evidence.member,
            None => true,
        };
        let is_period = match self.period {
            Some(number) => number == evidence.number,
            None => true,
        };
        is_member && is_period
    }
}

/// All that the files tell of the probes that these judgements rest on.
pub fn index_of(
    alloc: Global,
    accounts: &[Account<'_>],
    choice: &Choice,
) -> Result<ActIndex, AllocError> {
    let mut index = ActIndex::new(alloc);
    for account in accounts {
        want_all(&mut index, account, choice)?;
    }
    let mut file = 0u32;
    for account in accounts {
        if let Some(journal) = &account.played.journal {
            index.note_file(file, journal, account.confirmed())?;
        }
        file = file.saturating_add(1);
    }
    Ok(index)
}

fn want_all(
    index: &mut ActIndex,
    account: &Account<'_>,
    choice: &Choice,
) -> Result<(), AllocError> {
    for finding in account.findings() {
        if let Some(evidence) = choice.judgement(finding) {
            index.want(evidence.number)?;
        }
    }
    Ok(())
}

/// The name of an entry: by its member, or where several files of that one are there, by its file.
#[derive(Clone, Copy)]
pub struct EntryName<'f, 'a> {
    pub spot: Spot,
    pub accounts: &'f [Account<'a>],
}

impl<'f, 'a> fmt::Display for EntryName<'f, 'a> {
    fn fmt<W: fmt::Write>(&self, f: &mut fmt::Formatter<W>) -> fmt::Result {
        let place = self.spot.place;
        let Some(account) = self.accounts.get(self.spot.file as usize) else {
            return write!(f, "entry {place}");
        };
        if files_of(self.accounts, account.member) == 1 {
            let id = account.member.get();
            write!(f, "entry {place} of {id}")
        } else {
            let path = account.path;
            write!(f, "entry {place} of {path}")
        }
    }
}

/// How many of these files are that member's.
fn files_of(accounts: &[Account<'_>], member: Id) -> usize {
    let mut count = 0usize;
    for account in accounts {
        if account.member == member {
            count = count.saturating_add(1);
        }
    }
    count
}
