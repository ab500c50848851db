//! Where a row lies.
//!
//! One look-up of its id finds it (`IsLocationOf` in `specs/Steps.antt`). A removal that begins there hashes no id.

ghost use Rattle.std.specs.Prelude.{◌≡◌, ◌≤◌, [], None, MatchOption};
ghost use Rattle.std.specs.Ordering.{int_eq};
ghost use Rattle.indexmap.specs.IndexMap.{get as leaf_of};
ghost use Rattle.rt_tree_node.specs.Whole.{IsWhole};
ghost use Rattle.rt_tree_remove.specs.Steps.{IsLocationOf};

use rt_box::Rect;
use rt_tree_node::{Arena, Key, find_leaf, node_at};

/// Where a row lies, until the tree changes.
#[derive(Clone, Copy)]
pub struct Location<const D: usize> {
    /// The index of its id in the map of leaves.
    pub index: usize,
    /// The key of its leaf.
    pub leaf: Key,
    /// The position of its cell in the leaf.
    pub at: usize,
    /// Its box.
    pub rect: Rect<D>,
}

/// Finds the row with the id, if there is one. It is no part of its callers, so that the look-up stands in the program once.
#[inline(never)]
pub fn find_row<const D: usize>(tree: &Arena<D>, id: &i64) -> Option<Location<D>>
    requires few { D ≤ 3 }
    requires whole { IsWhole tree.now }
    requires idle { tree.now.pending.items ≡ [] }
    ensures { MatchOption result (leaf_of int_eq tree.now.leaves id.now ≡ None) (IsLocationOf tree.now id.now) }
{
    let (index, leaf) = find_leaf(&tree.leaves, id)?;
    let node = node_at(&tree.nodes, leaf);
    let at = node.position(id);
    Some(Location {
        index,
        leaf,
        at,
        rect: node.cell(at).rect,
    })
}
