//! What stands in a node, and what is pending.
//!
//! The number of a cell is a row's id in a leaf, and a child's key above the leaves.

ghost use Rattle.std.specs.Prelude.{◌≡◌, ◌^◌, ◌<◌, pos, unsigned_abs};
ghost use Rattle.rt_tree_node.specs.Places.{key_of as key_in};

use crate::key::Key;
use rt_box::Rect;

/// A cell of a node: in a leaf a row's id and box, above the leaves a child's key and the least box around
/// its cells.
#[derive(Clone, Copy, Debug)]
pub struct Cell<const D: usize> {
    /// The row's id, or the child's key.
    pub number: i64,
    /// The box.
    pub rect: Rect<D>,
}

impl<const D: usize> Cell<D> {
    /// The key of the node that a cell above the leaves names.
    #[inline]
    pub fn key(&self) -> Key
        ensures { result ≡ key_in self.now }
    {
        key_of(self.number)
    }
}

/// A cell that is pending: it is to be placed in a node of a level.
#[derive(Clone, Copy, Debug)]
pub struct Pending<const D: usize> {
    /// The level of the node, from 0 at the leaves.
    pub level: u8,
    /// The cell.
    pub cell: Cell<D>,
}

/// The key that a cell above the leaves has as its number.
#[inline]
pub fn key_of(number: i64) -> Key
    ensures { result ≡ unsigned_abs number }
{
    Key::new(number.unsigned_abs() as usize)
}

/// The number of a cell that names the node at this key.
#[inline]
pub fn number_of(key: Key) -> i64
    requires { key < 2 ^ 63 }
    ensures { result ≡ pos key }
{
    key.index() as i64
}
