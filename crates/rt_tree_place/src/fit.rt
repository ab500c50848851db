//! The box of the cell that names a node, in the node's parent.
//!
//! It is to be the least box around the node's cells (`HasLeastBox` and `Refits` in `specs/Steps.antt`).

ghost use Rattle.std.specs.Prelude.{◌≡◌, ℕ, ◌^◌, ◌<◌, ◌≤◌, ◌↔◌, Some, IsTrue, true, pos, length, slice_index_or};
ghost use Rattle.rt_box.specs.Rect.{Holds};
ghost use Rattle.slab.specs.Slab.{get, ContainsKey};
ghost use Rattle.rt_tree_node.specs.Node.{NodeCells};
ghost use Rattle.rt_tree_node.specs.Places.{times_named, cells_at, no_cell};
ghost use Rattle.rt_tree_place.specs.Steps.{IsNamedAt, IsBoxAbove, IsHeldAbove, HasLeastBox, Refits};

use rt_box::Rect;
use rt_tree_node::{Cell, Key, Nodes, hull_at, node_at, number_of, set_cell, slab_facts};

// A struct, since proofs follow a borrowed field of a value, and not a borrowed integer.

/// The number of the cells that name a node.
#[derive(Clone, Copy, Debug)]
struct NodeNumber {
    number: i64,
}

fn node_number(key: Key) -> NodeNumber
    requires { key < 2 ^ 63 }
    ensures { result.number ≡ pos key }
{
    NodeNumber {
        number: number_of(key),
    }
}

/// The cell that names a node and has this box.
pub fn cell_for<const D: usize>(key: Key, rect: &Rect<D>) -> Cell<D>
    requires { key < 2 ^ 63 }
    ensures number { result.number ≡ pos key }
    ensures rect { result.rect ≡ rect.now }
{
    Cell {
        number: number_of(key),
        rect: *rect,
    }
}

/// Whether the parent's cell that names the node has the least box around the node's cells.
pub fn has_least_box<const D: usize>(nodes: &Nodes<D>, key: Key, parent: Key) -> bool
    requires few { D ≤ 3 }
    requires keys { nodes.now.capacity ≤ 2 ^ 62 }
    requires present { ContainsKey nodes.now key }
    requires some { 1 ≤ length (cells_at nodes.now key) }
    requires above { ContainsKey nodes.now parent }
    requires named { (at : ℕ) × IsNamedAt (cells_at nodes.now parent) at key }
    requires once { times_named key (cells_at nodes.now parent) ≤ 1 }
    ensures { IsTrue result ↔ HasLeastBox nodes.now key parent }
{
    slab_facts(nodes);
    let hull = hull_at(nodes, key);
    let cell = cell_for(key, &hull);
    let node = node_at(nodes, parent);
    let at = node.position(&cell.number);
    node.cell(at).rect == cell.rect
}

/// The box of the parent's cell that names the node.
pub fn box_above<const D: usize>(nodes: &Nodes<D>, key: Key, parent: Key) -> Rect<D>
    requires few { D ≤ 3 }
    requires keys { nodes.now.capacity ≤ 2 ^ 62 }
    requires present { ContainsKey nodes.now key }
    requires above { ContainsKey nodes.now parent }
    requires named { (at : ℕ) × IsNamedAt (cells_at nodes.now parent) at key }
    ensures { IsBoxAbove nodes.now key parent result }
{
    slab_facts(nodes);
    let node = node_at(nodes, parent);
    let wanted = node_number(key);
    let at = node.position(&wanted.number);
    node.cell(at).rect
}

/// Whether the parent's cell that names the node holds the box.
pub(crate) fn is_held<const D: usize>(
    nodes: &Nodes<D>,
    key: Key,
    parent: Key,
    rect: &Rect<D>,
) -> bool
    requires few { D ≤ 3 }
    requires keys { nodes.now.capacity ≤ 2 ^ 62 }
    requires present { ContainsKey nodes.now key }
    requires above { ContainsKey nodes.now parent }
    requires named { (at : ℕ) × IsNamedAt (cells_at nodes.now parent) at key }
    ensures { result ≡ true → IsHeldAbove nodes.now key parent rect.now }
{
    box_above(nodes, key, parent).contains(rect)
}

/// Gives the parent's cell that names the node the least box around the node's cells.
pub fn refit<const D: usize>(nodes: &mut Nodes<D>, key: Key, parent: Key)
    requires few { D ≤ 3 }
    requires keys { nodes.old.capacity ≤ 2 ^ 62 }
    requires present { ContainsKey nodes.old key }
    requires some { 1 ≤ length (cells_at nodes.old key) }
    requires above { ContainsKey nodes.old parent }
    requires named { (at : ℕ) × IsNamedAt (cells_at nodes.old parent) at key }
    ensures { (n : NodeCells D) → get nodes.old parent ≡ Some n → Refits nodes.old nodes.new key parent n }
{
    slab_facts(nodes);
    let hull = hull_at(nodes, key);
    let cell = cell_for(key, &hull);
    let node = node_at(nodes, parent);
    let at = node.position(&cell.number);
    set_cell(nodes, parent, at, &cell);
}
