//! A tree that is made of a shadow.
//!
//! The rows are packed into leaves as the shadow has them, and so on upwards. A sound shadow whose nodes stand in preorder shows
//! one nested tree, so this makes it again. If the tree from outside isn't the shadow, the rows are packed as those of any list.

ghost use Rattle.std.specs.Prelude.{◌≡◌, ◌≢◌, ◌≤◌, ◌++◌, true, map, All, IsSome, IfOk, IfErr, IfSome, IfNone, OnOk};
ghost use Rattle.rt_check.specs.Conditions.{is_ordered};
ghost use Rattle.rt_tree_pack.specs.Packing.{IsFaultOf};
ghost use Rattle.rt_map.specs.Packing.{ids};
ghost use Rattle.rt_tree.specs.Lists.{IsInShape, row_in, rows_of};
ghost use Rattle.rt_map.specs.Restoring.{IsRestoredOf, IsRestoreFaultOf};
ghost use Rattle.rt_map.specs.ReadingInside.{shape_in};
ghost use Rattle.rt_tree_one.specs.Laws.{HaveAxes};
ghost use Rattle.rt_map.specs.RestoringInside.{LacksRowsIn, LacksRows, IsArenaSeenAs, IsArenaRestoredOf};
ghost use Rattle.rt_tree_outside.specs.Outside.{outside};

use crate::packing::pack_rows;
use crate::restore::shaped_arena;
use crate::restore_fault::RestoreFault;
use crate::shape::Shape;
use rt_box::Rect;
use rt_check::{NodeRow, RawCell, Shadow};
use rt_tree::Tree;
use rt_tree_node::{Arena, leaves_facts};
use rt_tree_outside::is_seen_as;
use rt_tree_pack::PackFault;
use rt_tree_walk::Row;
use std::alloc::{AllocError, Global};
use std::hash::RandomState;

/// A row with the cell's id and this box.
fn row_with<const D: usize>(cell: &RawCell<D>, rect: &Rect<D>) -> Row<D>
    ensures { result ≡ record { id = cell.now.number; rect = rect.now } }
{
    Row {
        id: cell.number,
        rect: *rect,
    }
}

/// The row of a leaf's cell, unless on some axis lo is above hi.
fn cell_row<const D: usize>(cell: &RawCell<D>) -> Option<Row<D>>
    requires some { 1 ≤ D }
    requires few { D ≤ 3 }
    ensures none { IfNone result (is_ordered cell.now ≢ true) }
    ensures row { IfSome result (λ row. row ≡ row_in cell.now) }
{
    cell.axes();
    match Rect::new(cell.lo, cell.hi) {
        Some(rect) => Some(row_with(cell, &rect)),
        None => None,
    }
}

/// Appends the rows of a leaf.
fn push_rows<const D: usize>(rows: &mut Vec<Row<D>>, leaf: &NodeRow<D>) -> Result<(), RestoreFault>
    requires some { 1 ≤ D }
    requires few { D ≤ 3 }
    ensures rows { OnOk result (rows.new.items ≡ rows.old.items ++ map row_in leaf.now.cells) }
    ensures fault { IfErr result (λ fault. LacksRowsIn leaf.now fault) }
{
    for cell in leaf.cells.as_slice() {
        let Some(row) = cell_row(cell) else {
            return Err(RestoreFault::NoBox);
        };
        match rows.push(row) {
            Ok(()) => {}
            Err(_) => return Err(RestoreFault::Memory),
        }
    }
    Ok(())
}

/// The rows of the shadow, in the order of its leaves.
fn shadow_rows<const D: usize>(
    alloc: Global,
    shadow: &Shadow<D>,
) -> Result<Vec<Row<D>>, RestoreFault>
    requires some { 1 ≤ D }
    requires few { D ≤ 3 }
    ensures rows { IfOk result (λ rows. rows.items ≡ rows_of shadow.now) }
    ensures fault { IfErr result (λ fault. LacksRows shadow.now fault) }
{
    let mut rows = Vec::with_capacity(alloc, shadow.rows().len())?;
    for node in shadow.nodes() {
        if node.level == 0 {
            push_rows(&mut rows, node)?;
        }
    }
    Ok(rows)
}

/// A law: each cell of the node has a lo and a hi on each axis. The call does nothing.
fn have_axes<const D: usize>(node: &NodeRow<D>)
    ensures { HaveAxes node.now }
{
    for cell in node.cells.as_slice() {
        cell.axes();
    }
}

/// The shapes of the shadow's nodes, in their order.
fn shapes_of<const D: usize>(alloc: Global, shadow: &Shadow<D>) -> Result<Vec<Shape>, AllocError>
    ensures shapes { IfOk result (λ shapes. shapes.items ≡ map shape_in shadow.now.nodes) }
    ensures axes { OnOk result (All HaveAxes shadow.now.nodes) }
{
    let mut shapes = Vec::with_capacity(alloc, shadow.nodes().len())?;
    for node in shadow.nodes() {
        have_axes(node);
        shapes.push(Shape {
            level: node.level,
            cells: node.cells.len(),
        })?;
    }
    Ok(shapes)
}

/// The nodes of the tree that is the shadow, if its rows make that tree in nodes of its shapes.
fn same_arena<const D: usize>(
    alloc: Global,
    keys: RandomState,
    shadow: &Shadow<D>,
    rows: &[Row<D>],
) -> Result<Option<Arena<D>>, PackFault>
    requires some { 1 ≤ D }
    requires few { D ≤ 3 }
    ensures arena { IfOk result (λ found. IfSome found (λ arena. IsArenaSeenAs arena shadow.now)) }
    ensures fault { IfErr result (λ fault. IsFaultOf (ids rows.now) fault) }
    ensures again { IsInShape shadow.now → rows.now ≡ rows_of shadow.now → IfOk result (λ found. IsSome found) }
{
    let capacity = shadow.capacity();
    capacity.facts();
    let shapes = shapes_of(alloc, shadow)?;
    let Some(arena) = shaped_arena(alloc, keys, capacity, &shapes, rows)? else {
        return Ok(None);
    };
    leaves_facts(&arena.leaves);
    let seen = is_seen_as(alloc, &arena, shadow)?;
    if !seen {
        return Ok(None);
    }
    Ok(Some(arena))
}

/// The nodes of a tree that is the shadow, or has its rows.
pub(crate) fn shadow_arena<const D: usize>(
    alloc: Global,
    keys: RandomState,
    shadow: &Shadow<D>,
) -> Result<Arena<D>, RestoreFault>
    requires some { 1 ≤ D }
    requires few { D ≤ 3 }
    ensures arena { IfOk result (λ arena. IsArenaRestoredOf arena shadow.now) }
    ensures again { IsInShape shadow.now → IfOk result (λ arena. outside arena ≡ shadow.now) }
    ensures fault { IfErr result (λ fault. IsRestoreFaultOf shadow.now fault) }
{
    let rows = shadow_rows(alloc, shadow)?;
    let found = same_arena(alloc, keys, shadow, &rows)?;
    match found {
        Some(arena) => Ok(arena),
        None => Ok(pack_rows(alloc, keys, shadow.capacity(), &rows)?),
    }
}

/// A tree of the shadow's rows. If the shadow is sound, with its nodes in preorder and its row entries by rising id, as `shadow`
/// lists them, it is that very tree. Else the rows may be packed. Look-ups by id hash by `keys`, which are to be random if others
/// choose the ids.
///
/// # Errors
///
/// `NoBox` if a row's cell has some lo above its hi, `TooMany` if there are more rows than `MOST_ROWS_OF_A_TREE`, `Repeated` if
/// two have one id, and `Memory` if no memory is left.
pub fn from_shadow<const D: usize>(
    alloc: Global,
    keys: RandomState,
    shadow: &Shadow<D>,
) -> Result<Tree<D>, RestoreFault>
    requires some { 1 ≤ D }
    requires few { D ≤ 3 }
    ensures tree { IfOk result (λ tree. IsRestoredOf tree.lists shadow.now) }
    ensures again { IsInShape shadow.now → IfOk result (λ tree. tree.lists ≡ shadow.now) }
    ensures spare { IfOk result (λ tree. tree.spare ≡ 0) }
    ensures fault { IfErr result (λ fault. IsRestoreFaultOf shadow.now fault) }
{
    let arena = shadow_arena(alloc, keys, shadow)?;
    Ok(Tree::from_arena(arena))
}
