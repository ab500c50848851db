//! The position of the cell that names a child.
//!
//! The caller shows that there is such a cell, so the call returns a position and no `Option`.

ghost use Rattle.std.specs.Prelude.{◌≡◌, ◌<◌, ℤ, nat_eq, unsigned_abs, count_by, length, slice_index_or};

use rt_tree_node::{Key, key_of};

/// The position of the first cell that names the node at the key.
pub(crate) fn child_position(numbers: &[i64], key: Key) -> usize
    requires { 0 < count_by (λ n. nat_eq (unsigned_abs n) key) numbers.now }
    ensures within { result < length numbers.now }
    ensures names { (d : ℤ) → unsigned_abs (slice_index_or numbers.now result d) ≡ key }
{
    for (place, number) in numbers.iter().enumerate() {
        if key_of(*number) == key {
            return place;
        }
    }
    0
}
