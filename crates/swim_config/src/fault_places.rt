//! Which statements of a document have a part in a fault.

use crate::config_fault::ConfigFault;
use crate::keys::ConfigKey;
use crate::members::{read_member, take_members};
use crate::statements::StatementPlace;
use std::alloc::Global;
use swim_history::OpeningFault;
use swim_wire::{Id, Peer};
use toml::Table;

/// The statements that have a part in the fault of a table: two at the most.
pub fn places_of(
    alloc: Global,
    table: &Table,
    fault: ConfigFault,
) -> [Option<StatementPlace<'static>>; 2] {
    match fault {
        ConfigFault::Missing(ConfigKey::MemberId | ConfigKey::MemberAt) => {
            [bad_member(table), None]
        }
        ConfigFault::Kind(key) | ConfigFault::Range(key) | ConfigFault::Peer(key) => {
            [place_of(table, key), None]
        }
        ConfigFault::Seed => [Some(top(ConfigKey::Seed)), None],
        ConfigFault::Opening(OpeningFault::Relays) => [Some(top(ConfigKey::K)), None],
        ConfigFault::Opening(OpeningFault::Timing) => [
            Some(top(ConfigKey::Rtt)),
            Some(top(ConfigKey::Period)),
        ],
        ConfigFault::Opening(OpeningFault::TooManyRows) => [
            Some(StatementPlace::Member(128)),
            None,
        ],
        ConfigFault::Opening(OpeningFault::Myself) => [
            Some(top(ConfigKey::Id)),
            own_member(alloc, table),
        ],
        ConfigFault::Opening(OpeningFault::Twice) => twice(alloc, table),
        _ => [None, None],
    }
}

fn top(key: ConfigKey) -> StatementPlace<'static> {
    StatementPlace::Top(key.name())
}

/// The statement of a key whose value is at fault.
fn place_of(table: &Table, key: ConfigKey) -> Option<StatementPlace<'static>> {
    match key {
        ConfigKey::MemberId | ConfigKey::MemberAt => {
            let member = first_bad_member(table)?;
            Some(StatementPlace::InMember(member, key.name()))
        }
        _ => Some(top(key)),
    }
}

/// The first member that has a fault.
fn bad_member(table: &Table) -> Option<StatementPlace<'static>> {
    let member = first_bad_member(table)?;
    Some(StatementPlace::Member(member))
}

/// The number of the first member that has a fault.
fn first_bad_member(table: &Table) -> Option<usize> {
    let members = table.get(ConfigKey::Member.name())?.as_array()?;
    members
        .iter()
        .position(|member| read_member(member).is_err())
}

/// The id of the first member that has this member's.
fn own_member(alloc: Global, table: &Table) -> Option<StatementPlace<'static>> {
    let members = take_members(alloc, table).ok()?;
    let me = table.get(ConfigKey::Id.name())?.as_integer()?;
    let member = members
        .iter()
        .position(|member| i64::from(member.0.get()) == me)?;
    Some(id_of(member))
}

/// The ids of the first member that stands before, and of the other one.
fn twice(alloc: Global, table: &Table) -> [Option<StatementPlace<'static>>; 2] {
    let Ok(members) = take_members(alloc, table) else {
        return [None, None];
    };
    for (second, member) in members.iter().enumerate() {
        if let Some(first) = position_of(members.as_slice(), member.0) {
            if first < second {
                return [Some(id_of(first)), Some(id_of(second))];
            }
        }
    }
    [None, None]
}

/// The id of a member.
fn id_of(member: usize) -> StatementPlace<'static> {
    StatementPlace::InMember(member, ConfigKey::MemberId.name())
}

/// The number of the first member with that id.
fn position_of(members: &[(Id, Peer)], id: Id) -> Option<usize> {
    members.iter().position(|member| member.0 == id)
}
