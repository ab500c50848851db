//! Whether a tree from outside is a shadow that is at hand. No second shadow is made.

ghost use Rattle.std.specs.Prelude.{◌≡◌, ◌<◌, ◌≤◌, ◌^◌, ℤ, pos, [], true, All, length, map, IfOk};
ghost use Rattle.std.specs.Option.{ForSome, IsSomeAnd};
ghost use Rattle.std.specs.Ordering.{int_eq};
ghost use Rattle.slab.specs.Slab.{get};
ghost use Rattle.indexmap.specs.IndexMap.{get as leaf_of};
ghost use Rattle.rt_tree_node.specs.Whole.{IsWhole};
ghost use Rattle.rt_tree_outside.specs.Outside.{outside, noted_entry, noted_node, AreNoted, AreKnown};

use crate::outside::{node_row, rising_ids, row_entry};
use crate::preorder::{number_keys, preorder};
use indexmap::IndexMap;
use rt_check::{NodeRow, RawCell, RowEntry, Shadow};
use rt_tree_node::{Arena, Key, node_at};
use std::alloc::{AllocError, Global};
use std::hash::RandomState;

/// Whether the coordinates are equal on each axis.
fn is_same_point<const D: usize>(point: &[i32; D], other: &[i32; D]) -> bool
    ensures same { result ≡ true → point.now ≡ other.now }
    ensures all { point.now ≡ other.now → result ≡ true }
{
    point == other
}

/// Whether two cells are equal.
fn is_same_cell<const D: usize>(cell: &RawCell<D>, other: &RawCell<D>) -> bool
    ensures same { result ≡ true → cell.now ≡ other.now }
    ensures all { cell.now ≡ other.now → result ≡ true }
{
    cell.number == other.number
        && is_same_point(&cell.lo, &other.lo)
        && is_same_point(&cell.hi, &other.hi)
}

/// Whether two nodes have equal cells.
fn have_same_cells<const D: usize>(node: &NodeRow<D>, other: &NodeRow<D>) -> bool
    requires { D ≤ 3 }
    ensures same { result ≡ true → node.now.cells ≡ other.now.cells }
    ensures all { node.now.cells ≡ other.now.cells → result ≡ true }
{
    let (cells, others) = (node.cells.as_slice(), other.cells.as_slice());
    if cells.len() != others.len() {
        return false;
    }
    for (at, cell) in cells.iter().enumerate() {
        if !is_same_cell(cell, &others[at]) {
            return false;
        }
    }
    true
}

/// Whether two nodes are equal.
fn is_same_node<const D: usize>(node: &NodeRow<D>, other: &NodeRow<D>) -> bool
    requires { D ≤ 3 }
    ensures same { result ≡ true → node.now ≡ other.now }
    ensures all { node.now ≡ other.now → result ≡ true }
{
    node.number == other.number
        && node.level == other.level
        && node.parent == other.parent
        && have_same_cells(node, other)
}

/// Whether the node at a key, with numbers in the place of keys, is the listed one.
fn is_seen_at<const D: usize>(
    alloc: Global,
    tree: &Arena<D>,
    key: Key,
    numbers: &[usize],
    listed: &NodeRow<D>,
) -> Result<bool, AllocError>
    requires few { D ≤ 3 }
    requires known { IsSomeAnd (get tree.now.nodes key) (AreKnown (length numbers.now) key) }
    requires small { All (λ n. n < 2 ^ 63) numbers.now }
    ensures same { IfOk result (λ is. is ≡ true → noted_node numbers.now tree.now.nodes key ≡ listed.now) }
    ensures all { IfOk result (λ is. noted_node numbers.now tree.now.nodes key ≡ listed.now → is ≡ true) }
{
    let row = node_row(alloc, node_at(&tree.nodes, key), key, numbers)?;
    Ok(is_same_node(&row, listed))
}

/// Whether the nodes at the keys are the listed ones, in their order.
fn are_seen_at<const D: usize>(
    alloc: Global,
    tree: &Arena<D>,
    order: &[Key],
    numbers: &[usize],
    listed: &[NodeRow<D>],
) -> Result<bool, AllocError>
    requires few { D ≤ 3 }
    requires known { All (λ key. IsSomeAnd (get tree.now.nodes key) (AreKnown (length numbers.now) key)) order.now }
    requires small { All (λ n. n < 2 ^ 63) numbers.now }
    ensures same { IfOk result (λ are. are ≡ true → AreNoted numbers.now tree.now.nodes order.now listed.now) }
    ensures all { IfOk result (λ are. AreNoted numbers.now tree.now.nodes order.now listed.now → are ≡ true) }
{
    if order.len() != listed.len() {
        return Ok(false);
    }
    for (at, key) in order.iter().enumerate() {
        if !is_seen_at(alloc, tree, *key, numbers, &listed[at])? {
            return Ok(false);
        }
    }
    Ok(true)
}

/// Whether the entries of the rows are the listed ones, in the order of the ids.
fn are_entries(
    leaves: &IndexMap<i64, Key, RandomState>,
    ids: &[i64],
    numbers: &[usize],
    listed: &[RowEntry],
) -> bool
    requires known { (id : ℤ) → ForSome (leaf_of int_eq leaves.now id) (λ key. key < length numbers.now) }
    requires small { All (λ n. n < 2 ^ 63) numbers.now }
    ensures same { result ≡ true → map (noted_entry numbers.now leaves.now) ids.now ≡ listed.now }
    ensures all { map (noted_entry numbers.now leaves.now) ids.now ≡ listed.now → result ≡ true }
{
    if ids.len() != listed.len() {
        return false;
    }
    for (at, id) in ids.iter().enumerate() {
        if row_entry(leaves, id, numbers) != listed[at] {
            return false;
        }
    }
    true
}

/// Whether the root has the number of the first node in preorder.
fn is_root_first<const D: usize>(shadow: &Shadow<D>) -> bool
    ensures same { result ≡ true → shadow.now.root ≡ pos 1 }
    ensures all { shadow.now.root ≡ pos 1 → result ≡ true }
{
    shadow.root() == 1
}

/// Whether the tree from outside is that shadow.
///
/// # Errors
///
/// `AllocError` if no memory is left.
pub fn is_seen_as<const D: usize>(
    alloc: Global,
    tree: &Arena<D>,
    shadow: &Shadow<D>,
) -> Result<bool, AllocError>
    requires whole { IsWhole tree.now }
    requires settled { tree.now.pending.items ≡ [] }
    requires few { D ≤ 3 }
    ensures same { IfOk result (λ is. is ≡ true → outside tree.now ≡ shadow.now) }
    ensures all { IfOk result (λ is. outside tree.now ≡ shadow.now → is ≡ true) }
{
    let rooted = is_root_first(shadow);
    if !rooted || tree.capacity.greatest() != shadow.capacity().greatest() {
        return Ok(false);
    }
    let order = preorder(alloc, tree)?;
    let numbers = number_keys(alloc, order.as_slice(), tree.nodes.capacity())?;
    let ids = rising_ids(alloc, &tree.leaves)?;
    let (order, numbers) = (order.as_slice(), numbers.as_slice());
    let seen = are_seen_at(alloc, tree, order, numbers, shadow.nodes())?;
    if !seen {
        return Ok(false);
    }
    Ok(are_entries(&tree.leaves, ids.as_slice(), numbers, shadow.rows()))
}
