//! A tree from outside: its nodes with numbers in the place of keys.
//!
//! A key is a place in the slab, which depends on what came and went before. A number is a place in preorder,
//! which doesn't (`specs/Outside.antt`).

ghost use Rattle.std.specs.Prelude.{◌≡◌, ℕ, ◌<◌, ◌≤◌, ◌^◌, ◌++◌, [], ◌∷◌, ℤ, All, Some, length, map, IfOk, OnOk};
ghost use Rattle.std.specs.Option.{ForSome, IsSomeAnd, option_map};
ghost use Rattle.std.specs.Ordering.{int_eq};
ghost use Rattle.slab.specs.Slab.{get};
ghost use Rattle.indexmap.specs.IndexMap.{get as leaf_of, keys};
ghost use Rattle.rt_tree_node.specs.Places.{key_of};
ghost use Rattle.rt_tree_node.specs.Whole.{IsWhole};
ghost use Rattle.rt_tree_outside.specs.Outside.{noted, cell_number, cell_row, node_row, row_entry, rising, outside, noted_entry, noted_node, with_nodes, with_rows, AreKnown};

use crate::preorder::{number_keys, preorder};
use indexmap::IndexMap;
use rt_check::{Items, NodeRow, RawCell, RowEntry, Shadow};
use rt_tree_node::{Arena, Cell, Key, Node, find_leaf, node_at};
use std::alloc::{AllocError, Global};
use std::hash::RandomState;

/// The number that is noted for a key.
fn number_at(numbers: &[usize], key: Key) -> i64
    requires known { key < length numbers.now }
    requires small { All (λ n. n < 2 ^ 63) numbers.now }
    ensures { result ≡ noted numbers.now key }
{
    numbers[key.index()] as i64
}

/// The id of a leaf's cell.
fn id_of<const D: usize>(cell: &Cell<D>) -> i64
    ensures { result ≡ cell.now.number }
{
    cell.number
}

/// What a cell names: a row by its id, or a node by its number.
fn cell_number<const D: usize>(cell: &Cell<D>, level: u8, numbers: &[usize]) -> i64
    requires known { 0 < level → key_of cell.now < length numbers.now }
    requires small { All (λ n. n < 2 ^ 63) numbers.now }
    ensures { result ≡ cell_number (noted numbers.now) level cell.now }
{
    if level == 0 {
        return id_of(cell);
    }
    number_at(numbers, cell.key())
}

/// A cell as it is seen from outside.
pub fn cell_row<const D: usize>(cell: &Cell<D>, level: u8, numbers: &[usize]) -> RawCell<D>
    requires known { 0 < level → key_of cell.now < length numbers.now }
    requires small { All (λ n. n < 2 ^ 63) numbers.now }
    ensures { result ≡ cell_row (noted numbers.now) level cell.now }
{
    RawCell {
        number: cell_number(cell, level, numbers),
        lo: cell.rect.lo(),
        hi: cell.rect.hi(),
    }
}

/// The cells of a node, with numbers in the place of keys.
fn cell_rows<const D: usize>(
    alloc: Global,
    node: &Node<D>,
    numbers: &[usize],
) -> Result<Items<RawCell<D>>, AllocError>
    requires known { All (λ c. 0 < node.now.level → key_of c < length numbers.now) node.now.cells }
    requires small { All (λ n. n < 2 ^ 63) numbers.now }
    ensures { IfOk result (λ rows. rows ≡ map (cell_row (noted numbers.now) node.now.level) node.now.cells) }
{
    let mut rows = Items::new(alloc);
    for at in 0..node.len() {
        rows.push(cell_row(&node.cell(at), node.level(), numbers))?;
    }
    Ok(rows)
}

/// The number of a node's parent.
fn parent_number<const D: usize>(node: &Node<D>, numbers: &[usize]) -> Option<i64>
    requires known { ForSome node.now.parent (λ key. key < length numbers.now) }
    requires small { All (λ n. n < 2 ^ 63) numbers.now }
    ensures { result ≡ option_map (noted numbers.now) node.now.parent }
{
    match node.parent() {
        Some(key) => Some(number_at(numbers, key)),
        None => None,
    }
}

/// The node at a key, with numbers in the place of keys.
pub(crate) fn node_row<const D: usize>(
    alloc: Global,
    node: &Node<D>,
    key: Key,
    numbers: &[usize],
) -> Result<NodeRow<D>, AllocError>
    requires known { AreKnown (length numbers.now) key node.now }
    requires small { All (λ n. n < 2 ^ 63) numbers.now }
    ensures { IfOk result (λ row. row ≡ node_row (noted numbers.now) key (Some node.now)) }
{
    Ok(NodeRow {
        number: number_at(numbers, key),
        level: node.level(),
        parent: parent_number(node, numbers),
        cells: cell_rows(alloc, node, numbers)?,
    })
}

/// Lists the node at a key.
fn list_node<const D: usize>(
    shadow: &mut Shadow<D>,
    alloc: Global,
    tree: &Arena<D>,
    key: Key,
    numbers: &[usize],
) -> Result<(), AllocError>
    requires few { D ≤ 3 }
    requires known { IsSomeAnd (get tree.now.nodes key) (AreKnown (length numbers.now) key) }
    requires small { All (λ n. n < 2 ^ 63) numbers.now }
    ensures { OnOk result (shadow.new ≡ with_nodes shadow.old (noted_node numbers.now tree.now.nodes key ∷ [])) }
{
    let row = node_row(alloc, node_at(&tree.nodes, key), key, numbers)?;
    match shadow.add_node(row) {
        Ok(()) => Ok(()),
        Err(_) => Err(AllocError),
    }
}

/// Lists the nodes at the keys, in their order.
fn list_nodes<const D: usize>(
    shadow: &mut Shadow<D>,
    alloc: Global,
    tree: &Arena<D>,
    order: &[Key],
    numbers: &[usize],
) -> Result<(), AllocError>
    requires few { D ≤ 3 }
    requires known { All (λ key. IsSomeAnd (get tree.now.nodes key) (AreKnown (length numbers.now) key)) order.now }
    requires small { All (λ n. n < 2 ^ 63) numbers.now }
    ensures { OnOk result (shadow.new ≡ with_nodes shadow.old (map (noted_node numbers.now tree.now.nodes) order.now)) }
{
    for key in order {
        list_node(shadow, alloc, tree, *key, numbers)?;
    }
    Ok(())
}

/// The ids of the rows, in the order of the map.
fn ids_of(alloc: Global, leaves: &IndexMap<i64, Key, RandomState>) -> Result<Vec<i64>, AllocError>
    ensures { IfOk result (λ ids. ids.items ≡ keys leaves.now) }
{
    leaves.keys().copied().collect(alloc)
}

/// The ids of the rows, in rising order.
pub(crate) fn rising_ids(
    alloc: Global,
    leaves: &IndexMap<i64, Key, RandomState>,
) -> Result<Vec<i64>, AllocError>
    ensures { IfOk result (λ ids. ids.items ≡ rising (keys leaves.now)) }
{
    let mut ids = ids_of(alloc, leaves)?;
    ids.sort()?;
    Ok(ids)
}

/// The entry of a row: its leaf by its number.
pub(crate) fn row_entry(
    leaves: &IndexMap<i64, Key, RandomState>,
    id: &i64,
    numbers: &[usize],
) -> RowEntry
    requires known { ForSome (leaf_of int_eq leaves.now id.now) (λ key. key < length numbers.now) }
    requires small { All (λ n. n < 2 ^ 63) numbers.now }
    ensures { result ≡ row_entry (noted numbers.now) (leaf_of int_eq leaves.now) id.now }
{
    let leaf = match find_leaf(leaves, id) {
        Some((_, key)) => number_at(numbers, key),
        None => 0,
    };
    RowEntry { id: *id, leaf }
}

/// Lists the row entries, by rising id.
fn list_rows<const D: usize>(
    shadow: &mut Shadow<D>,
    leaves: &IndexMap<i64, Key, RandomState>,
    ids: &[i64],
    numbers: &[usize],
) -> Result<(), AllocError>
    requires known { (id : ℤ) → ForSome (leaf_of int_eq leaves.now id) (λ key. key < length numbers.now) }
    requires small { All (λ n. n < 2 ^ 63) numbers.now }
    ensures { OnOk result (shadow.new ≡ with_rows shadow.old (map (noted_entry numbers.now leaves.now) ids.now)) }
{
    for id in ids {
        if shadow.add_row(row_entry(leaves, id, numbers)).is_err() {
            return Err(AllocError);
        }
    }
    Ok(())
}

/// The tree from outside: its nodes in preorder, numbered from 1, and its row entries by rising id.
/// Look-ups in it hash by `keys`.
///
/// # Errors
///
/// `AllocError` if no memory is left.
pub fn shadow_of<const D: usize>(
    alloc: Global,
    keys: RandomState,
    tree: &Arena<D>,
) -> Result<Shadow<D>, AllocError>
    requires whole { IsWhole tree.now }
    requires settled { tree.now.pending.items ≡ [] }
    requires some { 1 ≤ D }
    requires few { D ≤ 3 }
    ensures { IfOk result (λ shadow. shadow ≡ outside tree.now) }
{
    let order = preorder(alloc, tree)?;
    let numbers = number_keys(alloc, order.as_slice(), tree.nodes.capacity())?;
    let ids = rising_ids(alloc, &tree.leaves)?;
    let mut shadow = Shadow::new(alloc, keys, tree.capacity, 1);
    list_nodes(
        &mut shadow,
        alloc,
        tree,
        order.as_slice(),
        numbers.as_slice(),
    )?;
    list_rows(
        &mut shadow,
        &tree.leaves,
        ids.as_slice(),
        numbers.as_slice(),
    )?;
    Ok(shadow)
}
