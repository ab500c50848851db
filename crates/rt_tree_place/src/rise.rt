//! The way up from a node that a cell was placed in.
//!
//! Only the node at hand may be out of shape (`IsRising` in `specs/Steps.antt`). The way up stops early if that node isn't
//! overfull and the cell above it has the least box already.

ghost use Rattle.std.specs.Prelude.{◌≡◌, ℕ, ◌+◌, ◌^◌, ◌<◌, ◌≤◌, Some, true, length, vec_len, vec_capacity};
ghost use Rattle.slab.specs.Slab.{HasRoomFor};
ghost use Rattle.rt_tree_node.specs.Places.{cells_at, parent_at};
ghost use Rattle.rt_tree_place.specs.Steps.{HasRoomToGiveUp, IsRising, HasLeastWhereHeld, Rests, Lifts};
ghost use Rattle.rt_tree_place.specs.Rise.{Ascends, HasRisen};

use crate::fit::{has_least_box, is_held, refit};
use crate::overflow::relieve;
use rt_box::Rect;
use rt_tree_node::{Arena, Key, Work, node_at};

/// One step up: the node is relieved if it is overfull, and the parent's cell gets the least box around the cells left.
fn lift<const D: usize>(tree: &mut Arena<D>, key: Key, parent: Key, marks: &mut u8, work: &mut Work)
    requires few { D ≤ 3 }
    requires rising { IsRising tree.old key }
    requires up { parent_at tree.old.nodes key ≡ Some parent }
    requires room { HasRoomFor tree.old.nodes 1 }
    requires keys { tree.old.nodes.capacity ≤ 2 ^ 62 }
    requires height { tree.old.level ≤ 30 }
    requires pending_room { HasRoomToGiveUp tree.old key }
    requires splits { work.old.splits + 1 < 2 ^ 32 }
    requires reinsertions { work.old.reinsertions + 1 < 2 ^ 32 }
    ensures { Lifts tree.old tree.new key parent marks.old marks.new work.old work.new }
{
    relieve(tree, key, parent, marks, work);
    refit(&mut tree.nodes, key, parent);
}

/// Whether nothing is left to be done on the way up: the node isn't overfull, and the cell above it has the least box.
fn is_relieved<const D: usize>(tree: &Arena<D>, key: Key, parent: Key) -> bool
    requires few { D ≤ 3 }
    requires rising { IsRising tree.now key }
    requires up { parent_at tree.now.nodes key ≡ Some parent }
    requires keys { tree.now.nodes.capacity ≤ 2 ^ 62 }
    ensures { result ≡ true → Rests tree.now key parent }
{
    if node_at(&tree.nodes, key).len() > tree.capacity.greatest() {
        return false;
    }
    has_least_box(&tree.nodes, key, parent)
}

/// Whether nothing is left to be done on the way up from a node that a cell was placed in, since the box of the cell above
/// held the new one before. It looks at no other cell of the node.
fn is_settled<const D: usize>(tree: &Arena<D>, key: Key, rect: &Rect<D>) -> bool
    requires few { D ≤ 3 }
    requires rising { IsRising tree.now key }
    requires keys { tree.now.nodes.capacity ≤ 2 ^ 62 }
    requires held { HasLeastWhereHeld tree.now.nodes key rect.now }
    ensures { result ≡ true → (parent : ℕ) × (parent_at tree.now.nodes key ≡ Some parent) × Rests tree.now key parent }
{
    let node = node_at(&tree.nodes, key);
    if node.len() > tree.capacity.greatest() {
        return false;
    }
    match node.parent() {
        Some(parent) => is_held(&tree.nodes, key, parent, rect),
        None => false,
    }
}

/// The steps up from a node that a cell with this box was placed in, to the root, which may then have one cell too many.
pub(crate) fn rise<const D: usize>(
    tree: &mut Arena<D>,
    from: Key,
    rect: &Rect<D>,
    marks: &mut u8,
    work: &mut Work,
)
    requires few { D ≤ 3 }
    requires rising { IsRising tree.old from }
    requires room { HasRoomFor tree.old.nodes 30 }
    requires keys { tree.old.nodes.capacity ≤ 2 ^ 62 }
    requires height { tree.old.level ≤ 30 }
    requires pending_room { vec_len tree.old.pending + 15 ≤ vec_capacity tree.old.pending }
    requires splits { work.old.splits ≤ 2 ^ 31 }
    requires reinsertions { work.old.reinsertions ≤ 2 ^ 31 }
    requires held { HasLeastWhereHeld tree.old.nodes from rect.now }
    ensures risen { HasRisen tree.old tree.new from tree.new.root marks.old marks.new work.old work.new }
    ensures ascends { Ascends tree.old tree.new from marks.old marks.new }
{
    // Most rows come into a leaf whose box holds them already.
    if is_settled(tree, from, rect) {
        return;
    }
    let mut key = from;
    while let Some(parent) = node_at(&tree.nodes, key).parent() {
        if is_relieved(tree, key, parent) {
            return;
        }
        lift(tree, key, parent, marks, work);
        key = parent;
    }
}
