//! When a detector begins whose last number the clock tells.

ghost use Rattle.std.specs.Prelude.{◌≡◌, ◌≤◌, length};
ghost use Rattle.swim_history.specs.Setting.{IsSetting};
ghost use Rattle.swim_config.specs.Beginnings.{begun_at, members_of, setting_from};

use crate::config::Config;
use arrayvec::ArrayVec;
use swim_history::{Opening, Row};
use swim_wire::{Id, KNOWN_MEMBERS, Peer};

/// The largest number that `last` may be.
const LARGEST_LAST: u64 = 9_223_372_036_854_775_807;

impl Config {
    /// The configuration of a daemon that starts at that time, in milliseconds since 1970. Where `last` is to be the
    /// clock its detector begins behind that number, at most 2^63 - 1: an ack of an earlier run is of a lower one, as
    /// long as the clock isn't set back. Any other configuration stays as it is.
    pub fn begun_at(self, milliseconds: u64) -> Config
        ensures { result ≡ begun_at milliseconds self }
    {
        if !self.begins_by_clock {
            return self;
        }
        let opening = opening_from(&self.opening, milliseconds.min(LARGEST_LAST));
        Config {
            opening,
            begins_by_clock: false,
            ..self
        }
    }
}

/// The same opening behind that number, with its members up.
fn opening_from(opening: &Opening, last: u64) -> Opening
    ensures { result ≡ setting_from last opening.now }
{
    let members = members_of(opening.rows());
    let checked = Opening::check(
        opening.me(),
        opening.k(),
        opening.rtt(),
        opening.period(),
        members.as_slice(),
        last,
        opening.version(),
    );
    checked.unwrap()
}

/// The members of rows, and their addresses.
fn members_of(rows: &[Row]) -> ArrayVec<(Id, Peer), KNOWN_MEMBERS>
    requires { length rows.now ≤ KNOWN_MEMBERS }
    ensures { result.items ≡ members_of rows.now }
{
    let mut members = ArrayVec::new();
    for row in rows {
        members.push((row.id, row.peer));
    }
    members
}
