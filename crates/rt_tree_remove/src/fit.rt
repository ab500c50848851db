//! The boxes above a leaf that lost a row and has enough cells left.
//!
//! No node is underfull then, so that the way up only fits boxes (`Condenses` in `specs/Steps.antt`). The row's id may keep its
//! entry in the map of leaves, which no step reads.

ghost use Rattle.std.specs.Prelude.{◌≡◌, ◌^◌, ◌≤◌, Some};
ghost use Rattle.rt_tree_node.specs.Places.{level_at};
ghost use Rattle.rt_tree_remove.specs.Steps.{IsSoundButForMap, IsRoomy, HasLeastWhereInside, FitsAbove};

use crate::condense::lies_inside_leaf;
use rt_box::Rect;
use rt_tree_node::{Arena, Key, node_at};
use rt_tree_place::{has_least_box, refit};

/// Fits the boxes above the leaf, which lost a row with this box and has enough cells.
pub(crate) fn fit_above<const D: usize>(tree: &mut Arena<D>, leaf: Key, rect: &Rect<D>)
    requires but { IsSoundButForMap tree.old leaf }
    requires keys { tree.old.nodes.capacity ≤ 2 ^ 62 }
    requires bottom { level_at tree.old.nodes leaf ≡ Some 0 }
    requires roomy { IsRoomy tree.old leaf }
    requires inside { HasLeastWhereInside tree.old.nodes leaf rect.now }
    ensures { FitsAbove tree.old tree.new leaf }
{
    // Most rows lie inside their leaf's box.
    if lies_inside_leaf(tree, leaf, rect) {
        return;
    }
    let mut key = leaf;
    while let Some(parent) = node_at(&tree.nodes, key).parent() {
        if has_least_box(&tree.nodes, key, parent) {
            return;
        }
        refit(&mut tree.nodes, key, parent);
        key = parent;
    }
}
