//! A tree that is made of a list of rows.

ghost use Rattle.std.specs.Prelude.{◌≡◌, ◌≤◌, length, map, IfOk, IfErr};
ghost use Rattle.rt_tree_node.specs.Places.{numbers};
ghost use Rattle.rt_tree_node.specs.Whole.{most_rows_of_a_tree};
ghost use Rattle.rt_tree_pack.specs.Packing.{IsFaultOf};
ghost use Rattle.rt_map.specs.Packing.{ids, IsPackedOf};
ghost use Rattle.rt_map.specs.PackingInside.{cell_of, IsReadyFor, IsArenaOf};

use rt_box::Capacity;
use rt_tree::{MOST_ROWS_OF_A_TREE, Row, Tree, bare_arena, nodes_for};
use rt_tree_node::{Arena, Cell};
use rt_tree_pack::{PackFault, enter, pack};
use std::alloc::{AllocError, Global};
use std::hash::RandomState;

/// The row as a cell of a leaf.
fn row_cell<const D: usize>(row: &Row<D>) -> Cell<D>
    ensures { result ≡ cell_of row.now }
{
    Cell {
        number: row.id,
        rect: row.rect,
    }
}

/// The rows as cells of leaves, in their order.
pub(crate) fn row_cells<const D: usize>(
    alloc: Global,
    rows: &[Row<D>],
) -> Result<Vec<Cell<D>>, AllocError>
    ensures { IfOk result (λ cells. cells.items ≡ map cell_of rows.now) }
{
    let mut cells = Vec::with_capacity(alloc, rows.len())?;
    for row in rows {
        cells.push(row_cell(row))?;
    }
    Ok(cells)
}

/// The nodes of a tree without rows that is ready for these: there is room for them, and each of their ids has an entry.
pub(crate) fn ready_arena<const D: usize>(
    alloc: Global,
    keys: RandomState,
    capacity: Capacity,
    cells: &[Cell<D>],
) -> Result<Arena<D>, PackFault>
    requires some { 1 ≤ D }
    requires few { D ≤ 3 }
    requires most { length cells.now ≤ most_rows_of_a_tree }
    ensures arena { IfOk result (λ arena. IsReadyFor arena capacity cells.now) }
    ensures fault { IfErr result (λ fault. IsFaultOf (numbers cells.now) fault) }
{
    let mut arena = bare_arena(alloc, keys, capacity, nodes_for(capacity, cells.len()))?;
    arena.leaves.reserve(cells.len())?;
    let root = arena.root;
    enter(&mut arena.leaves, cells, root)?;
    Ok(arena)
}

/// The nodes of a tree that is made of these rows.
pub(crate) fn pack_rows<const D: usize>(
    alloc: Global,
    keys: RandomState,
    capacity: Capacity,
    rows: &[Row<D>],
) -> Result<Arena<D>, PackFault>
    requires some { 1 ≤ D }
    requires few { D ≤ 3 }
    ensures arena { IfOk result (λ arena. IsArenaOf arena capacity rows.now) }
    ensures fault { IfErr result (λ fault. IsFaultOf (ids rows.now) fault) }
{
    if rows.len() > MOST_ROWS_OF_A_TREE {
        return Err(PackFault::TooMany);
    }
    let cells = row_cells(alloc, rows)?;
    let mut arena = ready_arena(alloc, keys, capacity, &cells)?;
    pack(alloc, &mut arena, cells)?;
    Ok(arena)
}

/// A tree of these rows, packed all at once: few of its nodes have fewer cells than they may have. Look-ups by id hash by
/// `keys`, which are to be random if others choose the ids.
///
/// # Errors
///
/// `TooMany` if there are more rows than `MOST_ROWS_OF_A_TREE`, `Repeated` if two have one id, and `Memory` if no memory is
/// left.
pub fn from_rows<const D: usize>(
    alloc: Global,
    keys: RandomState,
    capacity: Capacity,
    rows: &[Row<D>],
) -> Result<Tree<D>, PackFault>
    requires some { 1 ≤ D }
    requires few { D ≤ 3 }
    ensures tree { IfOk result (λ tree. IsPackedOf tree.lists capacity rows.now) }
    ensures spare { IfOk result (λ tree. tree.spare ≡ 0) }
    ensures fault { IfErr result (λ fault. IsFaultOf (ids rows.now) fault) }
{
    let arena = pack_rows(alloc, keys, capacity, rows)?;
    Ok(Tree::from_arena(arena))
}
