//! Copies of arrays of a fixed capacity. They take no memory.

ghost use Rattle.std.specs.Prelude.{◌≡◌, ◌≤◌, length};

use arrayvec::ArrayVec;

/// The items, in order.
pub(crate) fn copied<T: Copy + Default, const N: usize>(items: &[T]) -> ArrayVec<T, N>
    requires { length items.now ≤ N }
    ensures { result.items ≡ items.now }
{
    let mut copy = ArrayVec::new();
    let _all_fit = copy.try_extend_from_slice(items);
    copy
}
