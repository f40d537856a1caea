//! The members of a picture, in the order of their lanes.

ghost use Rattle.std.specs.Prelude.{◌<◌, IfSome, length};

use swim_wire::Id;

/// Where a member stands among members that ascend.
pub(crate) fn place_of(members: &[Id], member: Id) -> Option<usize>
    ensures { IfSome result (λ place. place < length members.now) }
{
    members.binary_search(&member).ok()
}
