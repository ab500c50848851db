//! One step up from a node that lost a cell.
//!
//! Either the node has enough cells and the box above it is fitted, or the node is eliminated and its cells are pending
//! (`Climbs` in `specs/Steps.antt`).

ghost use Rattle.std.specs.Prelude.{◌≡◌, ◌≢◌, ℕ, ◌+◌, ◌-◌, ◌*◌, ◌^◌, ◌<◌, ◌≤◌, ◌++◌, length, vec_len, vec_capacity};
ghost use Rattle.slab.specs.Slab.{get, ContainsKey};
ghost use Rattle.rt_box.specs.Capacity.{least_fill};
ghost use Rattle.rt_tree_node.specs.Places.{times_named, cells_at, parent_at, pending_at};
ghost use Rattle.rt_tree_remove.specs.Steps.{Dissolves, IsSoundBut, Climbs};

use crate::child::child_position;
use rt_tree_node::{Arena, Key, Node, Nodes, Pending, node_at, remove_cell, remove_node};
use rt_tree_place::refit;

/// Takes the node out of the slab, and the cell that names it out of the parent.
pub(crate) fn remove_child<const D: usize>(nodes: &mut Nodes<D>, key: Key, parent: Key) -> Node<D>
    requires here { ContainsKey nodes.old key }
    requires above { ContainsKey nodes.old parent }
    requires apart { key ≢ parent }
    requires named { 0 < times_named key (cells_at nodes.old parent) }
    ensures node { get nodes.old key ≡ Some result }
    ensures change { (at : ℕ) × Dissolves nodes.old nodes.new key parent at }
{
    let at = child_position(node_at(nodes, parent).numbers(), key);
    remove_cell(nodes, parent, at);
    remove_node(nodes, key)
}

/// Makes the cells of a node pending for other nodes of its level.
pub(crate) fn push_cells<const D: usize>(pending: &mut Vec<Pending<D>>, node: &Node<D>)
    requires { vec_len pending.old + length node.now.cells ≤ vec_capacity pending.old }
    ensures items { pending.new.items ≡ pending.old.items ++ pending_at node.now.level node.now.cells }
    ensures room { vec_capacity pending.new ≡ vec_capacity pending.old }
{
    let level = node.level();
    for at in 0..node.len() {
        let cell = node.cell(at);
        pending.push_reserved(Pending { level, cell });
    }
}

/// An underfull node is taken out of its parent, and its cells are then pending. For any other node, the parent's cell gets
/// the least box around the node's cells.
pub(crate) fn climb<const D: usize>(tree: &mut Arena<D>, key: Key, parent: Key)
    requires but { IsSoundBut tree.old key }
    requires up { parent_at tree.old.nodes key ≡ Some parent }
    requires keys { tree.old.nodes.capacity ≤ 2 ^ 62 }
    requires room { (least_fill tree.old.capacity - 1) * tree.old.level ≤ vec_capacity tree.old.pending }
    ensures { Climbs tree.old tree.new key parent }
{
    if node_at(&tree.nodes, key).len() >= tree.capacity.least() {
        refit(&mut tree.nodes, key, parent);
        return;
    }
    let node = remove_child(&mut tree.nodes, key, parent);
    push_cells(&mut tree.pending, &node);
}
