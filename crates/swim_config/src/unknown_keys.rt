//! Keys that a configuration doesn't have.

use crate::keys::{ConfigKey, MEMBER_KEYS, TOP_KEYS};
use crate::statements::StatementPlace;
use std::alloc::Global;
use strsim::osa_distance;
use toml::{Table, Value};

/// A key that isn't known, and the known ones in whose place it stands.
#[derive(Clone, Copy)]
pub struct Unknown<'a> {
    pub name: &'a str,
    pub place: StatementPlace<'a>,
    pub known: &'static [ConfigKey],
}

impl Unknown<'_> {
    /// Whether it stands in a member and is a key of the whole.
    pub fn belongs_above(&self) -> bool {
        matches!(self.place, StatementPlace::InMember(_, _))
            && TOP_KEYS.iter().any(|key| key.name() == self.name)
    }
}

/// The first unknown key of a table, or else of its first member that has one.
pub fn first_unknown(table: &Table) -> Option<Unknown<'_>> {
    if let Some(name) = unknown_in(table, &TOP_KEYS) {
        return Some(Unknown {
            name,
            place: StatementPlace::Top(name),
            known: &TOP_KEYS,
        });
    }
    let members = table.get(ConfigKey::Member.name())?.as_array()?;
    for (member, value) in members.iter().enumerate() {
        if let Some(name) = unknown_of(value) {
            return Some(Unknown {
                name,
                place: StatementPlace::InMember(member, name),
                known: &MEMBER_KEYS,
            });
        }
    }
    None
}

/// The first unknown key of a member.
fn unknown_of(member: &Value) -> Option<&str> {
    unknown_in(member.as_table()?, &MEMBER_KEYS)
}

/// The first key of a table that is none of these.
fn unknown_in<'a>(table: &'a Table, known: &[ConfigKey]) -> Option<&'a str> {
    for name in table.keys() {
        if !known.iter().any(|key| key.name() == name.as_str()) {
            return Some(name.as_str());
        }
    }
    None
}

/// The known key that the fewest edits make of a name; the first of them. `None` where memory is refused.
pub fn nearest(alloc: Global, name: &str, known: &[ConfigKey]) -> Option<ConfigKey> {
    let mut best: Option<(usize, ConfigKey)> = None;
    for key in known {
        let distance = osa_distance(alloc, name, key.name()).ok()?;
        match best {
            Some((least, _)) if least <= distance => {}
            _ => best = Some((distance, *key)),
        }
    }
    best.map(|(_, key)| key)
}
