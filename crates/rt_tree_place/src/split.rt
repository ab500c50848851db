//! An overfull node whose cells are parted between it and a new node.
//!
//! The first group stays. The second one moves, so the entries of its rows, or the parents of its children, change
//! too (`Splits` in `specs/Steps.antt`).

ghost use Rattle.std.specs.Prelude.{◌≡◌, ℕ, suc, ◌+◌, ◌^◌, ◌<◌, ◌≤◌, All, Some, length, take, drop};
ghost use Rattle.slab.specs.Slab.{get, ContainsKey, HasRoomFor};
ghost use Rattle.rt_tree_node.specs.Node.{NodeCells};
ghost use Rattle.rt_tree_node.specs.Places.{cells_at, level_at, picked};
ghost use Rattle.rt_tree_place.specs.Steps.{AreKnown, ArePresent, NameOthers, Adopts, Rehouses, TakesOver, Splits, IsPair, Divides};

use crate::attaching::attach;
use crate::fit::cell_for;
use indexmap::IndexMap;
use rt_tree_choice::{choose_split, sorted_positions};
use rt_tree_node::{
    Arena, Key, Node, Nodes, Pending, add_cells, add_node, hull_at, node_at, set_leaf, set_parent,
    take_cells,
};
use std::hash::RandomState;

/// Notes that the rows of the cells at the positions lie in another leaf now.
fn rehouse<const D: usize>(
    leaves: &mut IndexMap<i64, Key, RandomState>,
    leaf: Key,
    from: &Node<D>,
    positions: &[usize],
)
    requires few { D ≤ 3 }
    requires within { All (λ p. p < length from.now.cells) positions.now }
    requires known { AreKnown leaves.old (picked from.now.cells positions.now) }
    ensures { Rehouses leaves.old leaves.new leaf (picked from.now.cells positions.now) }
{
    for at in positions {
        let cell = from.cell(*at);
        set_leaf(leaves, &cell.number, leaf);
    }
}

/// Makes the nodes that the cells at the positions name the children of another node.
fn adopt<const D: usize>(nodes: &mut Nodes<D>, key: Key, from: &Node<D>, positions: &[usize])
    requires few { D ≤ 3 }
    requires within { All (λ p. p < length from.now.cells) positions.now }
    requires present { ArePresent nodes.old (picked from.now.cells positions.now) }
    ensures { Adopts nodes.old nodes.new key (picked from.now.cells positions.now) }
{
    for at in positions {
        let cell = from.cell(*at);
        set_parent(nodes, cell.key(), Some(key));
    }
}

/// Notes at what the cells at the positions name that they stand in another node now.
fn take_over<const D: usize>(tree: &mut Arena<D>, key: Key, from: &Node<D>, positions: &[usize])
    requires few { D ≤ 3 }
    requires within { All (λ p. p < length from.now.cells) positions.now }
    requires known { from.now.level ≡ 0 → AreKnown tree.old.leaves (picked from.now.cells positions.now) }
    requires present { 1 ≤ from.now.level → ArePresent tree.old.nodes (picked from.now.cells positions.now) }
    ensures { TakesOver tree.old tree.new key from.now.level (picked from.now.cells positions.now) }
{
    if from.level() == 0 {
        rehouse(&mut tree.leaves, key, from, positions);
        return;
    }
    adopt(&mut tree.nodes, key, from, positions);
}

/// The first positions of an order, and the others.
fn groups(order: &[usize], first: usize) -> (&[usize], &[usize])
    requires { first ≤ length order.now }
    ensures first { result.0.now ≡ take first order.now }
    ensures second { result.1.now ≡ drop first order.now }
{
    order.split_at(first)
}

/// Split: the cells of an overfull node are cut into two groups. The first stays, and the second goes to a new node, whose
/// key is returned (Beckmann, Kriegel, Schneider, Seeger 1990, section 4.2).
pub(crate) fn split<const D: usize>(tree: &mut Arena<D>, key: Key) -> Key
    requires few { D ≤ 3 }
    requires present { ContainsKey tree.old.nodes key }
    requires full { length (cells_at tree.old.nodes key) ≡ tree.old.capacity + 1 }
    requires room { HasRoomFor tree.old.nodes 1 }
    requires known { level_at tree.old.nodes key ≡ Some 0 → AreKnown tree.old.leaves (cells_at tree.old.nodes key) }
    requires children { (l : ℕ) → level_at tree.old.nodes key ≡ Some (suc l) → NameOthers tree.old.nodes key }
    ensures { (n : NodeCells D) → get tree.old.nodes key ≡ Some n → Splits tree.old tree.new key n result }
{
    tree.capacity.facts();
    let old = take_cells(&mut tree.nodes, key);
    let cut = choose_split(old.boxes(), tree.capacity);
    let order = sorted_positions(old.boxes(), cut.axis, cut.upper);
    let (first, second) = groups(order.as_slice(), cut.first);
    add_cells(&mut tree.nodes, key, &old, first);
    let cell = old.cell(0);
    let sibling = add_node(
        &mut tree.nodes,
        Node::new(old.level(), old.parent(), &cell.rect),
    );
    take_over(tree, sibling, &old, second);
    add_cells(&mut tree.nodes, sibling, &old, second);
    sibling
}

/// Splits an overfull node below the root, and appends the new node's cell to the parent.
pub(crate) fn divide<const D: usize>(tree: &mut Arena<D>, key: Key, parent: Key)
    requires few { D ≤ 3 }
    requires pair { IsPair tree.old key parent }
    requires full { length (cells_at tree.old.nodes key) ≡ tree.old.capacity + 1 }
    requires room { HasRoomFor tree.old.nodes 1 }
    requires keys { tree.old.nodes.capacity ≤ 2 ^ 62 }
    ensures { Divides tree.old tree.new key parent }
{
    let sibling = split(tree, key);
    let hull = hull_at(&tree.nodes, sibling);
    let cell = cell_for(sibling, &hull);
    let level = node_at(&tree.nodes, parent).level();
    attach(tree, parent, &Pending { level, cell });
}
