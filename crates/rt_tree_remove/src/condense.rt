//! The way up from a leaf that lost a row.
//!
//! Only the node at hand may be out of shape (`IsSoundBut` in `specs/Steps.antt`). The way up stops early if that node has
//! enough cells and the cell above it has the least box already.

ghost use Rattle.std.specs.Prelude.{◌≡◌, ◌-◌, ◌*◌, ◌^◌, ◌≤◌, Some, true, vec_capacity};
ghost use Rattle.rt_box.specs.Capacity.{least_fill};
ghost use Rattle.rt_tree_node.specs.Places.{level_at, parent_at};
ghost use Rattle.rt_tree_remove.specs.Steps.{IsSoundBut, IsSoundButForMap, LiesInside, LiesInsideNode, HasLeastWhereInside, IsCondensed, EndsCondensed, Condenses};

use crate::climb::climb;
use rt_box::Rect;
use rt_tree_node::{Arena, Key, node_at};
use rt_tree_place::{box_above, has_least_box};

/// Whether nothing is left to be done on the way up: the node has enough cells, and the cell above it has the least box.
fn is_condensed<const D: usize>(tree: &Arena<D>, key: Key, parent: Key) -> bool
    requires but { IsSoundBut tree.now key }
    requires up { parent_at tree.now.nodes key ≡ Some parent }
    requires keys { tree.now.nodes.capacity ≤ 2 ^ 62 }
    ensures { result ≡ true → IsCondensed tree.now key parent }
{
    if node_at(&tree.nodes, key).len() < tree.capacity.least() {
        return false;
    }
    has_least_box(&tree.nodes, key, parent)
}

/// Whether the second box touches no side of the first, in which it lies.
fn lies_inside<const D: usize>(outer: &Rect<D>, inner: &Rect<D>) -> bool
    ensures { result ≡ true → LiesInside outer.now inner.now }
{
    inner.facts();
    for axis in 0..outer.axes() {
        let (wide, narrow) = (outer.range(axis), inner.range(axis));
        if wide.lo >= narrow.lo || narrow.hi >= wide.hi {
            return false;
        }
    }
    true
}

/// Whether the box touches no side of the leaf's box.
pub(crate) fn lies_inside_leaf<const D: usize>(tree: &Arena<D>, leaf: Key, rect: &Rect<D>) -> bool
    requires but { IsSoundButForMap tree.now leaf }
    requires keys { tree.now.nodes.capacity ≤ 2 ^ 62 }
    ensures { result ≡ true → LiesInsideNode tree.now.nodes leaf rect.now }
{
    match node_at(&tree.nodes, leaf).parent() {
        Some(parent) => lies_inside(&box_above(&tree.nodes, leaf, parent), rect),
        None => false,
    }
}

/// Whether nothing is left to be done on the way up from a leaf that lost a row with this box, since the row touched no side
/// of the leaf's box. It looks at no other cell of the leaf.
fn stays_condensed<const D: usize>(tree: &Arena<D>, leaf: Key, rect: &Rect<D>) -> bool
    requires but { IsSoundBut tree.now leaf }
    requires keys { tree.now.nodes.capacity ≤ 2 ^ 62 }
    requires inside { HasLeastWhereInside tree.now.nodes leaf rect.now }
    ensures { result ≡ true → EndsCondensed tree.now leaf }
{
    if node_at(&tree.nodes, leaf).len() < tree.capacity.least() {
        return false;
    }
    lies_inside_leaf(tree, leaf, rect)
}

/// Eliminates the underfull nodes from the leaf up, and fits the boxes of the others.
pub(crate) fn condense<const D: usize>(tree: &mut Arena<D>, leaf: Key, rect: &Rect<D>)
    requires but { IsSoundBut tree.old leaf }
    requires keys { tree.old.nodes.capacity ≤ 2 ^ 62 }
    requires bottom { level_at tree.old.nodes leaf ≡ Some 0 }
    requires room { (least_fill tree.old.capacity - 1) * tree.old.level ≤ vec_capacity tree.old.pending }
    requires inside { HasLeastWhereInside tree.old.nodes leaf rect.now }
    ensures { Condenses tree.old tree.new leaf }
{
    // Most rows lie inside their leaf's box.
    if stays_condensed(tree, leaf, rect) {
        return;
    }
    let mut key = leaf;
    while let Some(parent) = node_at(&tree.nodes, key).parent() {
        if is_condensed(tree, key, parent) {
            return;
        }
        climb(tree, key, parent);
        key = parent;
    }
}
