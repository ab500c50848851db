//! Reading and writing one node of a slab.
//!
//! A call that writes changes the node at its key and no other (`Changes` in `specs/Changes.antt`): callers know the slab
//! and a key, so each method of `Node` that writes has a call on the slab here.

ghost use Rattle.std.specs.Prelude.{◌≡◌, ℕ, ◌+◌, ◌^◌, ◌<◌, ◌≤◌, All, None, Some, [], ◌∷◌, ◌++◌, length, slice_set, remove};
ghost use Rattle.slab.specs.Slab.{get, ContainsKey, HasRoomFor, Updates, slab_len};
ghost use Rattle.rt_box.specs.Capacity.{most_cells};
ghost use Rattle.rt_box.specs.Rect.{IsBox};
ghost use Rattle.rt_tree_node.specs.Places.{cells_at, hull_at, picked};
ghost use Rattle.rt_tree_node.specs.Changes.{Changes, with_more};

use crate::cell::Cell;
use crate::key::Key;
use crate::node::Node;
use crate::nodes::Nodes;
use crate::summing::log;
use rt_box::{Rect, hull_of};
use std::mem;

/// A law: keys of nodes are below the slab's capacity, and 64 bits can count its places. The call does nothing.
#[inline]
pub fn slab_facts<const D: usize>(nodes: &Nodes<D>)
    ensures keys { (key : ℕ) → ContainsKey nodes.now key → key < nodes.now.capacity }
    ensures few { length nodes.now.slots < 2 ^ 64 }
    ensures axes { D ≤ 3 }
{
    let _ = nodes.slab.capacity();
}

/// Puts a node into a vacant place, and returns its key. It takes no memory.
#[inline]
pub fn add_node<const D: usize>(nodes: &mut Nodes<D>, node: Node<D>) -> Key
    requires { HasRoomFor nodes.old 1 }
    ensures was_vacant { get nodes.old result ≡ None }
    ensures updates { Updates nodes.old nodes.new result (Some node.entry) }
    ensures len { slab_len nodes.new ≡ slab_len nodes.old + 1 }
    ensures key_in_range { result < nodes.new.capacity }
    ensures capacity { nodes.new.capacity ≡ nodes.old.capacity }
{
    let key = Key::new(nodes.slab.insert_reserved(node));
    log(&mut nodes.stale, &mut nodes.is_lost, key);
    key
}

/// Takes the node at a key out of the slab.
#[inline]
pub fn remove_node<const D: usize>(nodes: &mut Nodes<D>, key: Key) -> Node<D>
    requires { ContainsKey nodes.old key }
    ensures value { get nodes.old key ≡ Some result }
    ensures updates { Updates nodes.old nodes.new key None }
    ensures capacity { nodes.new.capacity ≡ nodes.old.capacity }
{
    nodes.slab.remove(key.index())
}

/// The node at a key.
#[inline]
pub fn node_at<const D: usize>(nodes: &Nodes<D>, key: Key) -> &Node<D>
    requires { ContainsKey nodes.now key }
    ensures { get nodes.now key ≡ Some result.now }
{
    &nodes.slab[key.index()]
}

/// Puts a node in the place of another.
pub fn put_node<const D: usize>(nodes: &mut Nodes<D>, key: Key, node: Node<D>)
    requires { ContainsKey nodes.old key }
    ensures { Changes (λ n. node.entry) nodes.old nodes.new key }
{
    let place = &mut nodes.slab[key.index()];
    *place = node;
    log(&mut nodes.stale, &mut nodes.is_lost, key);
}

/// Makes the node the child of another, or of none.
pub fn set_parent<const D: usize>(nodes: &mut Nodes<D>, key: Key, parent: Option<Key>)
    requires { ContainsKey nodes.old key }
    ensures { Changes (λ n. record n { parent = parent }) nodes.old nodes.new key }
{
    let node = &mut nodes.slab[key.index()];
    node.set_parent(parent);
}

/// Appends a cell to the node.
pub fn add_cell<const D: usize>(nodes: &mut Nodes<D>, key: Key, cell: &Cell<D>)
    requires present { ContainsKey nodes.old key }
    requires room { length (cells_at nodes.old key) < most_cells }
    ensures { Changes (λ n. record n { cells = n.cells ++ cell.now ∷ [] }) nodes.old nodes.new key }
{
    let node = &mut nodes.slab[key.index()];
    node.add(cell);
    log(&mut nodes.stale, &mut nodes.is_lost, key);
}

/// Puts another cell in the place of the one at a position.
pub fn set_cell<const D: usize>(nodes: &mut Nodes<D>, key: Key, at: usize, cell: &Cell<D>)
    requires present { ContainsKey nodes.old key }
    requires within { at < length (cells_at nodes.old key) }
    ensures { Changes (λ n. record n { cells = slice_set n.cells at cell.now }) nodes.old nodes.new key }
{
    let node = &mut nodes.slab[key.index()];
    let was = node.cell(at).number;
    node.set(at, cell);
    if was != cell.number {
        log(&mut nodes.stale, &mut nodes.is_lost, key);
    }
}

/// Takes out the cell at a position; the cells after it close up.
pub fn remove_cell<const D: usize>(nodes: &mut Nodes<D>, key: Key, at: usize)
    requires present { ContainsKey nodes.old key }
    requires within { at < length (cells_at nodes.old key) }
    ensures { Changes (λ n. record n { cells = remove n.cells at }) nodes.old nodes.new key }
{
    let node = &mut nodes.slab[key.index()];
    node.remove(at);
    log(&mut nodes.stale, &mut nodes.is_lost, key);
}

/// Takes out all cells: returns the node as it was, and leaves one without cells in its place.
pub fn take_cells<const D: usize>(nodes: &mut Nodes<D>, key: Key) -> Node<D>
    requires present { ContainsKey nodes.old key }
    requires some { 1 ≤ length (cells_at nodes.old key) }
    ensures node { get nodes.old key ≡ Some result }
    ensures emptied { Changes (λ n. record n { cells = [] }) nodes.old nodes.new key }
    ensures few { length result.cells ≤ most_cells }
{
    log(&mut nodes.stale, &mut nodes.is_lost, key);
    let node = &mut nodes.slab[key.index()];
    node.facts();
    let empty = node.without_cells();
    mem::replace(node, empty)
}

/// Appends the cells of another node at some positions, in the order of the positions.
pub fn add_cells<const D: usize>(
    nodes: &mut Nodes<D>,
    key: Key,
    from: &Node<D>,
    positions: &[usize],
)
    requires present { ContainsKey nodes.old key }
    requires within { All (λ p. p < length from.now.cells) positions.now }
    requires room { length (cells_at nodes.old key) + length positions.now ≤ most_cells }
    ensures { Changes (with_more (picked from.now.cells positions.now)) nodes.old nodes.new key }
{
    let node = &mut nodes.slab[key.index()];
    node.add_from(from, positions);
    log(&mut nodes.stale, &mut nodes.is_lost, key);
}

/// The least box around the cells of the node.
pub fn hull_at<const D: usize>(nodes: &Nodes<D>, key: Key) -> Rect<D>
    requires present { ContainsKey nodes.now key }
    requires some { 1 ≤ length (cells_at nodes.now key) }
    ensures value { result ≡ hull_at nodes.now key }
    ensures is_box { IsBox D result }
{
    slab_facts(nodes);
    let hull = hull_of(node_at(nodes, key).boxes());
    hull.facts();
    hull
}
