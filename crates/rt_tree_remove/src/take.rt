//! A row that leaves its leaf.
//!
//! The id leaves the map of leaves, and the cell its leaf. The leaf may then have one cell too few (`Takes` in
//! `specs/Steps.antt`).

ghost use Rattle.std.specs.Prelude.{◌≡◌, []};
ghost use Rattle.rt_tree_node.specs.Whole.{IsWhole, IsBranched};
ghost use Rattle.rt_tree_remove.specs.Steps.{IsLocationOf, ForgetsAt, Takes};

use crate::location::Location;
use indexmap::IndexMap;
use rt_tree_node::{Arena, Key, remove_cell};
use std::hash::RandomState;

/// Takes the entry at the index out of the map.
fn forget(leaves: &mut IndexMap<i64, Key, RandomState>, index: usize)
    ensures { ForgetsAt leaves.old leaves.new index }
{
    // The index is known, so the id isn't looked up again.
    let _ = leaves.swap_remove_index(index);
}

/// Takes the row with the id out of its leaf.
pub(crate) fn take_row<const D: usize>(tree: &mut Arena<D>, id: &i64, location: &Location<D>)
    requires whole { IsWhole tree.old }
    requires branched { IsBranched tree.old }
    requires idle { tree.old.pending.items ≡ [] }
    requires location { IsLocationOf tree.old id.now location.now }
    ensures { Takes tree.old tree.new id.now location.now.leaf location.now.at location.now.rect }
{
    forget(&mut tree.leaves, location.index);
    remove_cell(&mut tree.nodes, location.leaf, location.at);
}
