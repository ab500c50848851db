//! A tree's bytes, written node by node.

ghost use Rattle.std.specs.Prelude.{◌≡◌, ◌<◌, ◌≤◌, ◌^◌, ◌++◌, [], All, Some, length, map, IfOk, OnOk, FitsSigned};
ghost use Rattle.std.specs.Int.{w32};
ghost use Rattle.std.specs.List.{flat_map};
ghost use Rattle.std.specs.Option.{IsSomeAnd};
ghost use Rattle.slab.specs.Slab.{get};
ghost use Rattle.rt_tree_node.specs.Places.{key_of};
ghost use Rattle.rt_tree_node.specs.Whole.{IsWhole};
ghost use Rattle.rt_tree_outside.specs.Outside.{noted, noted_node, node_row, cell_row as cell_seen, outside, AreKnown};
ghost use Rattle.rt_map.specs.Written.{IsCellWritten, IsNodeWritten};
ghost use Rattle.rt_map.specs.TreeBytes.{short_bytes, cell_bytes, node_bytes, head_bytes, tree_bytes};

use rt_box::Capacity;
use rt_check::RawCell;
use rt_tree_node::{Arena, Key, Node, node_at};
use rt_tree_outside::cell_row;
use rt_tree_outside::preorder::{number_keys, preorder};
use std::alloc::{AllocError, Global};

/// The version of the form.
pub(crate) const VERSION: u8 = 1;

/// Appends a coordinate.
fn push_coordinate(bytes: &mut Vec<u8>, coordinate: &i32) -> Result<(), AllocError>
    ensures bytes { OnOk result (bytes.new.items ≡ bytes.old.items ++ short_bytes coordinate.now) }
    ensures fits { FitsSigned w32 coordinate.now }
{
    bytes.extend_from_slice(&coordinate.to_be_bytes())
}

/// Appends the coordinates of a point.
fn push_point<const D: usize>(bytes: &mut Vec<u8>, point: &[i32; D]) -> Result<(), AllocError>
    ensures bytes { OnOk result (bytes.new.items ≡ bytes.old.items ++ flat_map short_bytes point.now) }
    ensures axes { OnOk result (length point.now ≡ D) }
    ensures fits { OnOk result (All (FitsSigned w32) point.now) }
{
    for coordinate in point {
        push_coordinate(bytes, coordinate)?;
    }
    Ok(())
}

/// Appends a cell.
fn push_cell<const D: usize>(bytes: &mut Vec<u8>, cell: &RawCell<D>) -> Result<(), AllocError>
    ensures bytes { OnOk result (bytes.new.items ≡ bytes.old.items ++ cell_bytes cell.now) }
    ensures written { OnOk result (IsCellWritten cell.now) }
{
    bytes.extend_from_slice(&cell.number.to_be_bytes())?;
    push_point(bytes, &cell.lo)?;
    push_point(bytes, &cell.hi)
}

/// Appends the cells of a node, with numbers in the place of keys.
fn push_cells<const D: usize>(
    bytes: &mut Vec<u8>,
    node: &Node<D>,
    numbers: &[usize],
) -> Result<(), AllocError>
    requires known { All (λ c. 0 < node.now.level → key_of c < length numbers.now) node.now.cells }
    requires small { All (λ n. n < 2 ^ 63) numbers.now }
    ensures bytes { OnOk result (bytes.new.items ≡ bytes.old.items ++
        flat_map cell_bytes (map (cell_seen (noted numbers.now) node.now.level) node.now.cells)) }
    ensures written { OnOk result (All IsCellWritten
        (map (cell_seen (noted numbers.now) node.now.level) node.now.cells)) }
{
    for at in 0..node.len() {
        push_cell(bytes, &cell_row(&node.cell(at), node.level(), numbers))?;
    }
    Ok(())
}

/// Appends a node, with numbers in the place of keys.
fn push_node<const D: usize>(
    bytes: &mut Vec<u8>,
    node: &Node<D>,
    key: Key,
    numbers: &[usize],
) -> Result<(), AllocError>
    requires known { AreKnown (length numbers.now) key node.now }
    requires small { All (λ n. n < 2 ^ 63) numbers.now }
    ensures bytes { OnOk result (bytes.new.items ≡ bytes.old.items ++
        node_bytes (node_row (noted numbers.now) key (Some node.now))) }
    ensures written { OnOk result (IsNodeWritten (node_row (noted numbers.now) key (Some node.now))) }
{
    bytes.extend_from_slice(&[node.level(), node.len() as u8])?;
    push_cells(bytes, node, numbers)
}

/// Appends the nodes at the keys, in their order.
fn push_nodes<const D: usize>(
    bytes: &mut Vec<u8>,
    tree: &Arena<D>,
    order: &[Key],
    numbers: &[usize],
) -> Result<(), AllocError>
    requires few { D ≤ 3 }
    requires known { All (λ key. IsSomeAnd (get tree.now.nodes key) (AreKnown (length numbers.now) key)) order.now }
    requires small { All (λ n. n < 2 ^ 63) numbers.now }
    ensures bytes { OnOk result (bytes.new.items ≡ bytes.old.items ++
        flat_map node_bytes (map (noted_node numbers.now tree.now.nodes) order.now)) }
    ensures written { OnOk result (All IsNodeWritten (map (noted_node numbers.now tree.now.nodes) order.now)) }
{
    for key in order {
        push_node(bytes, node_at(&tree.nodes, *key), *key, numbers)?;
    }
    Ok(())
}

/// Appends the head.
fn push_head(bytes: &mut Vec<u8>, axes: u8, capacity: Capacity) -> Result<(), AllocError>
    ensures { OnOk result (bytes.new.items ≡ bytes.old.items ++ head_bytes axes capacity) }
{
    let most = capacity.greatest() as u8;
    bytes.extend_from_slice(&[74, 68, 84, VERSION, axes, most])
}

/// The tree's bytes.
///
/// # Errors
///
/// `AllocError` if no memory is left.
pub(crate) fn bytes_of<const D: usize>(
    alloc: Global,
    tree: &Arena<D>,
) -> Result<Vec<u8>, AllocError>
    requires whole { IsWhole tree.now }
    requires settled { tree.now.pending.items ≡ [] }
    requires few { D ≤ 3 }
    ensures bytes { IfOk result (λ bytes. bytes.items ≡ tree_bytes (outside tree.now)) }
    ensures written { OnOk result (All IsNodeWritten (outside tree.now).nodes) }
{
    let order = preorder(alloc, tree)?;
    let numbers = number_keys(alloc, order.as_slice(), tree.nodes.capacity())?;
    let mut bytes = Vec::new(alloc);
    push_head(&mut bytes, D as u8, tree.capacity)?;
    push_nodes(&mut bytes, tree, order.as_slice(), numbers.as_slice())?;
    Ok(bytes)
}
