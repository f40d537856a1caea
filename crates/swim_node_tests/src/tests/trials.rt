//! What is tried on a node that was just opened.

ghost use Rattle.std.specs.Prelude.{◌≡◌, List};
ghost use Rattle.swim_history.specs.declared.entries.Entry.{Entry};

use super::*;

/// What is tried on a node that was just opened, whose chooser follows a script.
pub(crate) trait Trial<R: Wait + Copy + Drop> {
    /// What comes of it.
    type Told;

    fn run<N: Naming>(self, rt: &R, opened: Opened<N, Scripted, R>) -> Self::Told
        requires listening { (opened.1.0.0.number ≡ 0) × (opened.1.0.1.number ≡ 1) }
        requires changing { (opened.1.1.0.number ≡ 2) × (opened.1.1.1.number ≡ 3) };
}

/// Opens a node whose journal may have so many entries, and tries this on it.
pub(crate) fn try_on_node<T: Trial<R> + Drop, R: Wait + Copy + Drop>(
    rt: R,
    alloc: Global,
    limit: u32,
    opening: Opening,
    chooser: Scripted,
    trial: T,
) -> Result<T::Told, OpenFault> {
    match Parts::make(alloc, limit) {
        Ok(parts) => try_on_parts::<Brand, T, R>(rt, alloc, parts, opening, chooser, limit, trial),
        Err(_) => Err(OpenFault::NoMemory),
    }
}

fn try_on_parts<N: Naming, T: Trial<R> + Drop, R: Wait + Copy + Drop>(
    rt: R,
    alloc: Global,
    parts: Parts,
    opening: Opening,
    chooser: Scripted,
    limit: u32,
    trial: T,
) -> Result<T::Told, OpenFault>
    requires parts { parts ≡ record { limit = N.limit; ledgers = N.ledgers; log = N.log; cells = N.cells } }
    requires opening { opening ≡ N.opening }
    requires limit { limit ≡ N.limit }
    requires drawn { (h : List Entry) → N.drawn h }
{
    let opened = open::<N, Scripted, R>(rt, alloc, parts, opening, chooser, limit)?;
    Ok(trial.run(&rt, opened))
}
