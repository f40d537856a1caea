//! The probes of a journal.

ghost use Rattle.std.specs.Prelude.{◌≡◌, ◌++◌, map, reverse, IfOk, OnOk};
ghost use Rattle.std.specs.Option.{option_to_list};
ghost use Rattle.swim_history.specs.Probes.{probes, probed_by};

use crate::replies::Probe;
use crate::storage::Entries;
use std::alloc::{AllocError, Global};
use swim_wire::Id;

/// The number of a period that began with a probe, and the member that was probed.
#[derive(Clone, Copy, Debug, PartialEq, Eq)]
pub struct Probed {
    pub number: u64,
    pub member: Id,
}

/// The probes of these entries, in order.
pub(crate) fn collect_probed(alloc: Global, entries: &Entries) -> Result<Vec<Probed>, AllocError>
    ensures { IfOk result (λ probed. probed.items ≡ map probed_by (probes (reverse entries.now.items))) }
{
    let mut probed = Vec::new(alloc);
    for place in 0..entries.len() {
        if let Some(start) = entries.start(place) {
            note_probed(&mut probed, start.probe)?;
        }
    }
    Ok(probed)
}

/// Adds the probe of a start, if it makes one.
fn note_probed(probed: &mut Vec<Probed>, probe: Option<Probe>) -> Result<(), AllocError>
    ensures { OnOk result (probed.new.items ≡ probed.old.items ++ map probed_by (option_to_list probe)) }
{
    match probe {
        Some(probe) => Ok(probed.push(Probed {
            number: probe.number,
            member: probe.target,
        })?),
        None => Ok(()),
    }
}
