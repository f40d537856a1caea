//! The lanes of a picture: the members that it shows.

ghost use Rattle.std.specs.Prelude.{◌≡◌, [], IfOk, OnOk};
ghost use Rattle.swim_timeline.specs.Lanes.{with_rows, lanes_then};

use std::alloc::{AllocError, Global};
use std::collections::BTreeMap;
use swim_history::{Call, Called, Reply, Row};
use swim_wire::{Id, Peer};

/// The members that a picture has lanes for, ascending by id, each with the address that it had last.
pub type Lanes = BTreeMap<Id, Peer>;

/// The lanes of members that are known from the start. `Err` only where memory was refused.
pub(crate) fn lanes_of(alloc: Global, rows: &[Row]) -> Result<Lanes, AllocError>
    ensures { IfOk result (λ lanes. lanes.entries ≡ with_rows [] rows.now) }
{
    let mut lanes = BTreeMap::new(alloc);
    for row in rows {
        lanes.insert(row.id, row.peer)?;
    }
    Ok(lanes)
}

/// Adds the lane of a member that an entry lists. `Err` only where memory was refused.
pub(crate) fn add_lane(lanes: &mut Lanes, called: &Called) -> Result<(), AllocError>
    ensures { OnOk result (lanes.new.entries ≡ lanes_then lanes.old.entries called.now.call called.now.reply) }
{
    if let (Call::Join(id, peer), Reply::Joined { .. }) = (&called.call, &called.reply) {
        lanes.insert(*id, *peer)?;
    }
    Ok(())
}
