//! What a shadow lists: nodes with their cells, and row entries.
//!
//! All of it is plain data that may be wrong: a number may name no node, and `lo` may exceed `hi`. `check` finds
//! that.

ghost use Rattle.std.specs.Prelude.{◌≡◌, length};

use sqlite_items::Items;

/// A cell of a node: the number of the child that it names, or a row's id in a leaf, and a range
/// `lo..hi` on each of the `D` axes. `lo` may exceed `hi`, which `check` then lists.
#[derive(Clone, Copy, PartialEq, Eq, Debug)]
pub struct RawCell<const D: usize> {
    /// The child's number, or in a leaf the row's id.
    pub number: i64,
    /// The least coordinate on each axis.
    pub lo: [i32; D],
    /// The greatest coordinate on each axis.
    pub hi: [i32; D],
}

impl<const D: usize> RawCell<D> {
    /// The number of axes: as many as lo and hi have coordinates.
    pub fn axes(&self) -> usize
        ensures value { result ≡ D }
        ensures lo { length self.now.lo ≡ D }
        ensures hi { length self.now.hi ≡ D }
    {
        self.lo.len()
    }
}

/// A node: leaves are on level 0.
#[derive(Drop)]
pub struct NodeRow<const D: usize> {
    /// The node's number, at least 1.
    pub number: i64,
    /// How far above the leaves the node is.
    pub level: u8,
    /// The parent's number, at least 1; the root has none.
    pub parent: Option<i64>,
    /// The node's cells, in their order.
    pub cells: Items<RawCell<D>>,
}

/// Which leaf a row lies in.
#[derive(Clone, Copy, PartialEq, Eq, Debug)]
pub struct RowEntry {
    /// The row's id.
    pub id: i64,
    /// The leaf's number, at least 1.
    pub leaf: i64,
}
