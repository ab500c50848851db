//! What bytes say of a tree.
//!
//! Of the bytes of lists, each call reads what the lists say (`specs/ReadingInside.antt`).

ghost use Rattle.std.specs.Prelude.{◌≡◌, ◌≢◌, ℕ, ◌+◌, ◌*◌, ◌≤◌, ◌++◌, ℤ, List, true, length, map, All, FitsSigned};
ghost use Rattle.std.specs.Prelude.{IsSomeAnd, MatchResult, IfOk, IfErr, OnOk};
ghost use Rattle.std.specs.Int.{w32, w64};
ghost use Rattle.std.specs.List.{flat_map};
ghost use Rattle.rt_check.specs.declared.node.NodeRow.{NodeRow};
ghost use Rattle.rt_check.specs.declared.node.RawCell.{RawCell};
ghost use Rattle.rt_check.specs.Shadow.{ShadowLists};
ghost use Rattle.rt_check.specs.Conditions.{is_ordered};
ghost use Rattle.rt_tree.specs.Lists.{row_in};
ghost use Rattle.rt_map.specs.TreeBytes.{long_bytes, short_bytes, cell_bytes, node_bytes, tree_bytes};
ghost use Rattle.rt_map.specs.Written.{IsCellWritten};
ghost use Rattle.rt_map.specs.BytesFaults.{BeginAsTree, HasRows};
ghost use Rattle.rt_map.specs.ReadingInside.{AreRows, AreNodes, AreParts, ReadsNodes, CountsNodes, IsReadAs};
ghost use Rattle.rt_map.specs.declared.bytes_fault.BytesFault.TheVariants.{Bad, TooMany, Memory};

use crate::bytes_fault::BytesFault;
use crate::shape::Shape;
use crate::writing::VERSION;
use rt_box::{Capacity, Rect};
use rt_tree_walk::Row;
use std::alloc::Global;

/// What bytes say of a tree.
#[derive(Drop)]
pub(crate) struct Parts<const D: usize> {
    /// The most cells of a node.
    pub(crate) capacity: Capacity,
    /// The shapes of the nodes, in their order.
    pub(crate) shapes: Vec<Shape>,
    /// The rows, in the order of the leaves.
    pub(crate) rows: Vec<Row<D>>,
}

/// The number in four bytes.
fn short_of(bytes: &[u8]) -> i32
    requires { 4 ≤ length bytes.now }
    ensures { (z : ℤ) → FitsSigned w32 z → bytes.now ≡ short_bytes z → result ≡ z }
{
    i32::from_be_bytes([bytes[0], bytes[1], bytes[2], bytes[3]])
}

/// The number in eight bytes.
fn long_of(bytes: &[u8]) -> i64
    requires { 8 ≤ length bytes.now }
    ensures { (z : ℤ) → FitsSigned w64 z → bytes.now ≡ long_bytes z → result ≡ z }
{
    i64::from_be_bytes([
        bytes[0], bytes[1], bytes[2], bytes[3], bytes[4], bytes[5], bytes[6], bytes[7],
    ])
}

/// The coordinates of a point.
fn read_point<const D: usize>(bytes: &[u8]) -> [i32; D]
    requires { length bytes.now ≡ 4 * D }
    ensures { (point : List ℤ) → length point ≡ D → All (FitsSigned w32) point →
        bytes.now ≡ flat_map short_bytes point → result ≡ point }
{
    let mut point = [0; D];
    let mut left = bytes;
    for axis in 0..D {
        let (number, rest) = left.split_at(4);
        point[axis] = short_of(number);
        left = rest;
    }
    point
}

/// The row that a leaf's cell is, unless some lo is above its hi.
fn read_row<const D: usize>(bytes: &[u8]) -> Option<Row<D>>
    requires some { 1 ≤ D }
    requires few { D ≤ 3 }
    requires long { length bytes.now ≡ 8 + 8 * D }
    ensures { (cell : RawCell D) → IsCellWritten cell → is_ordered cell ≡ true → bytes.now ≡ cell_bytes cell →
        IsSomeAnd result (λ row. row ≡ row_in cell) }
{
    let (number, rest) = bytes.split_at(8);
    let (lo, hi) = rest.split_at(4 * D);
    let rect = Rect::new(read_point(lo), read_point(hi))?;
    Some(Row {
        id: long_of(number),
        rect,
    })
}

/// Appends the rows of a leaf's cells, each of which has `width` bytes.
fn read_rows<const D: usize>(
    rows: &mut Vec<Row<D>>,
    bytes: &[u8],
    width: usize,
) -> Result<(), BytesFault>
    requires some { 1 ≤ D }
    requires few { D ≤ 3 }
    requires width { width ≡ 8 + 8 * D }
    ensures read { (cells : List (RawCell D)) → AreRows cells → bytes.now ≡ flat_map cell_bytes cells →
        MatchResult result (λ _. rows.new.items ≡ rows.old.items ++ map row_in cells) (λ fault. fault ≡ Memory) }
    ensures count { (count : ℕ) → length bytes.now ≡ count * width →
        OnOk result (length rows.new.items ≡ length rows.old.items + count) }
    ensures fault { IfErr result (λ fault. fault ≢ TooMany) }
{
    let mut left = bytes;
    while left.len() >= width {
        let (cell, rest) = left.split_at(width);
        let Some(row) = read_row(cell) else {
            return Err(BytesFault::Bad);
        };
        match rows.push(row) {
            Ok(()) => {}
            Err(_) => return Err(BytesFault::Memory),
        }
        left = rest;
    }
    Ok(())
}

/// Reads nodes to the end.
fn read_nodes<const D: usize>(parts: &mut Parts<D>, bytes: &[u8]) -> Result<(), BytesFault>
    requires some { 1 ≤ D }
    requires few { D ≤ 3 }
    ensures read { (nodes : List (NodeRow D)) → AreNodes nodes → bytes.now ≡ flat_map node_bytes nodes →
        MatchResult result (λ _. ReadsNodes parts.old parts.new nodes) (λ fault. fault ≡ Memory) }
    ensures count { OnOk result (CountsNodes parts.old parts.new bytes.now) }
    ensures fault { IfErr result (λ fault. fault ≢ TooMany) }
{
    let width = 8 + 8 * D;
    let mut left = bytes;
    while left.len() >= 2 {
        let (level, count) = (left[0], left[1]);
        let (_, after) = left.split_at(2);
        let cells = usize::from(count);
        let length = cells.saturating_mul(width);
        if length > after.len() {
            return Err(BytesFault::Bad);
        }
        let (run, rest) = after.split_at(length);
        match parts.shapes.push(Shape { level, cells }) {
            Ok(()) => {}
            Err(_) => return Err(BytesFault::Memory),
        }
        if level == 0 {
            read_rows(&mut parts.rows, run, width)?;
        }
        left = rest;
    }
    if left.is_empty() {
        return Ok(());
    }
    Err(BytesFault::Bad)
}

/// What bytes say of a tree of `D` axes.
///
/// # Errors
///
/// `Bad` if they can't be those of such a tree, at once if they don't begin so, and `Memory` if no memory is left.
pub(crate) fn read<const D: usize>(alloc: Global, bytes: &[u8]) -> Result<Parts<D>, BytesFault>
    requires some { 1 ≤ D }
    requires few { D ≤ 3 }
    ensures read { (s : ShadowLists D) → AreParts s → tree_bytes s ≡ bytes.now →
        MatchResult result (λ parts. IsReadAs parts s) (λ fault. fault ≡ Memory) }
    ensures count { IfOk result (λ parts. HasRows D bytes.now (length parts.rows.items)) }
    ensures fault { IfErr result (λ fault. fault ≢ TooMany) }
    ensures head { ¬ BeginAsTree D bytes.now → result ≡ Err Bad }
{
    let [74, 68, 84, version, axes, most, nodes @ ..] = bytes else {
        return Err(BytesFault::Bad);
    };
    if *version != VERSION || usize::from(*axes) != D {
        return Err(BytesFault::Bad);
    }
    let Some(capacity) = Capacity::new(*most) else {
        return Err(BytesFault::Bad);
    };
    capacity.facts();
    let mut parts = Parts {
        capacity,
        shapes: Vec::new(alloc),
        rows: Vec::new(alloc),
    };
    read_nodes(&mut parts, nodes)?;
    Ok(parts)
}
