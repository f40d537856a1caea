//! The opening that a header tells.

ghost use Rattle.std.specs.Prelude.{◌≡◌, ◌≤◌, Some, None, false, length, MatchResult, if◌then◌else◌};
ghost use Rattle.swim_wire.specs.Ids.{has_twice};
ghost use Rattle.swim_history.specs.Check.{rows_up};
ghost use Rattle.swim_history.specs.Setting.{ids_of};
ghost use Rattle.swim_script.specs.Headers.{setting_by, setting_with};
ghost use Rattle.swim_script.specs.Script.{are_past, fault_of_setting, kind_of_setting, members_of};

use crate::arguments::{OpenArguments, Opened};
use crate::faults::{FaultKind, ScriptFault};
use crate::headers::KEPT_ROWS;
use arrayvec::ArrayVec;
use swim_history::{Opening, Row, RowState};
use swim_wire::{Id, Peer, Version};

/// The opening of an `open` line, these rows and that version, if it is within the limits.
pub(crate) fn checked(
    opened: &Opened,
    rows: &[Row],
    version: Version,
) -> Result<Opening, ScriptFault>
    requires { length rows.now ≤ KEPT_ROWS }
    ensures { let o = setting_with (Some opened.now) rows.now version in MatchResult result
        (λ opening. (fault_of_setting (Some opened.now) o ≡ None) × (opening ≡ o))
        (λ fault. fault_of_setting (Some opened.now) o ≡ Some fault) }
{
    match opening_of(opened.arguments, rows, version) {
        Ok(opening) => Ok(opening),
        Err(kind) => Err(ScriptFault {
            line: opened.line,
            kind,
        }),
    }
}

/// The opening of these arguments and rows, or what is wrong with it.
fn opening_of(a: OpenArguments, rows: &[Row], version: Version) -> Result<Opening, FaultKind>
    requires { length rows.now ≤ KEPT_ROWS }
    ensures { let o = setting_by a rows.now version in MatchResult result
        (λ opening. (kind_of_setting o ≡ None) × (opening ≡ o))
        (λ kind. kind_of_setting o ≡ Some kind) }
{
    let members = members_of(rows);
    match Opening::check(
        a.me,
        a.k,
        a.rtt,
        a.period,
        members.as_slice(),
        a.last,
        version,
    ) {
        Err(fault) => Err(FaultKind::Opening(fault)),
        Ok(opening) => match with_states(opening, rows) {
            None => Err(FaultKind::Unused),
            Some(opening) => Ok(opening),
        },
    }
}

/// The members of rows, and their addresses.
fn members_of(rows: &[Row]) -> ArrayVec<(Id, Peer), KEPT_ROWS>
    requires { length rows.now ≤ KEPT_ROWS }
    ensures { result.items ≡ members_of rows.now }
{
    let mut members = ArrayVec::new();
    for row in rows {
        members.push((row.id, row.peer));
    }
    members
}

/// The opening, whose members are up, with the states of their rows. None where one failed in a period that wasn't
/// used.
fn with_states(opening: Opening, rows: &[Row]) -> Option<Opening>
    requires up { opening.rows ≡ rows_up (members_of rows.now) }
    requires once { has_twice (ids_of rows.now) ≡ false }
    ensures { result ≡ (if are_past opening.last rows.now then Some (record opening { rows = rows.now }) else None) }
{
    let mut told = opening;
    for row in rows {
        if let RowState::Failed(number) = row.state {
            told = told.with_failed(row.id, number)?;
        }
    }
    Some(told)
}
