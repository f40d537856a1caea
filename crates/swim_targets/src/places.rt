//! Where an id stands.

ghost use Rattle.std.specs.Prelude.{◌≡◌, false, MatchOption};
ghost use Rattle.swim_wire.specs.Ids.{has, has_twice};
ghost use Rattle.swim_targets.specs.Places.{IsFirstAt};

use swim_wire::Id;

/// The first place of the id.
pub(crate) fn place_of(ids: &[Id], id: Id) -> Option<usize>
    ensures { MatchOption result (has ids.now id ≡ false) (IsFirstAt ids.now id) }
{
    for (i, other) in ids.iter().enumerate() {
        if *other == id {
            return Some(i);
        }
    }
    None
}

/// Whether the id is on the list.
pub(crate) fn has(ids: &[Id], id: Id) -> bool
    ensures { result ≡ has ids.now id }
{
    place_of(ids, id).is_some()
}

/// Whether some id stands twice.
pub(crate) fn has_twice(ids: &[Id]) -> bool
    ensures { result ≡ has_twice ids.now }
{
    for (i, id) in ids.iter().enumerate() {
        if has(&ids[i + 1..], *id) {
            return true;
        }
    }
    false
}
