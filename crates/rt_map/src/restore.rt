//! A tree restored: its rows go into nodes of given shapes.
//!
//! `restore` packs the rows into leaves that have as many cells each as the leaves among the shapes, the cells that name those
//! into nodes as the shapes of the next level say, and so on up to the root. The levels stand among the shapes of a tree in
//! preorder in their order, so of its shapes and rows that tree comes again. If some number doesn't fit, no tree is made. Whether
//! shapes and rows at hand are those of a tree, the caller tests: it compares what was made with what it was made of.

ghost use Rattle.std.specs.Prelude.{◌≡◌, ◌^◌, ◌<◌, ◌≤◌, true, length, IfOk, OnOk, IfErr, IfSome, IsSomeAnd, MatchResult, IsPermutation};
ghost use Rattle.rt_tree.specs.Bare.{IsBare};
ghost use Rattle.rt_tree.specs.Kept.{IsKeptWith};
ghost use Rattle.rt_tree_pack.specs.Packing.{AreEntered, IsFaultOf};
ghost use Rattle.rt_tree_pack.specs.declared.fault.PackFault.TheVariants.{Memory};
ghost use Rattle.rt_map.specs.Packing.{ids};
ghost use Rattle.rt_map.specs.PackingInside.{IsReadyFor};
ghost use Rattle.rt_map.specs.Levels.{Restores};
ghost use Rattle.rt_map.specs.LevelSteps.{FitsRoot};
ghost use Rattle.rt_map.specs.Meant.{top_level, rows_in, IsMeant, IsListed, IsMade};
ghost use Rattle.rt_tree_node.specs.Places.{numbers};
ghost use Rattle.rt_tree_node.specs.Whole.{HasRoom, most_rows_of_a_tree};
ghost use Rattle.rt_tree_rules.specs.Nested.{Tree};
ghost use Rattle.rt_tree_obeys.specs.View.{tree_in};

use crate::packing::{ready_arena, row_cells};
use crate::restore_level::restore_level;
use crate::shape::Shape;
use rt_box::Capacity;
use rt_tree::MOST_ROWS_OF_A_TREE;
use rt_tree_node::{Arena, Cell};
use rt_tree_pack::{PackFault, fill, lift_root};
use rt_tree_walk::Row;
use std::alloc::{AllocError, Global};
use std::hash::RandomState;

/// Whether the root may have that many cells.
fn fits_root<const D: usize>(tree: &Arena<D>, count: usize) -> bool
    ensures fits { result ≡ true → FitsRoot tree.now count }
    ensures all { FitsRoot tree.now count → result ≡ true }
{
    count <= tree.capacity.greatest() && (tree.level == 0 || 2 <= count)
}

/// The level of the first shape, which is taken for the root's.
fn root_level(shapes: &[Shape]) -> u8
    ensures value { result ≡ top_level shapes.now }
    ensures byte { result < 256 }
{
    if shapes.is_empty() {
        return 0;
    }
    shapes[0].level
}

/// Puts the rows, whose ids have entries already, into a tree without rows: into nodes of these shapes. The
/// first shape is taken for the root's. If some node would have too few cells or too many, or if there isn't room for the
/// nodes, the answer is `false`, and the tree is out of shape.
///
/// # Errors
///
/// `AllocError` if no memory is left. The tree is then out of shape.
fn restore<const D: usize>(
    alloc: Global,
    tree: &mut Arena<D>,
    shapes: &[Shape],
    rows: Vec<Cell<D>>,
) -> Result<bool, AllocError>
    requires few { D ≤ 3 }
    requires bare { IsBare tree.old }
    requires entered { AreEntered tree.old rows.items }
    requires keys { tree.old.nodes.capacity ≤ 2 ^ 62 }
    ensures steps { IfOk result (λ done. done ≡ true → Restores tree.old tree.new rows.entry.items) }
    ensures meant { (meant : Tree) → IsMeant tree.old.capacity shapes.now (rows_in rows.entry.items) meant →
        HasRoom tree.old (length rows.entry.items) → IfOk result (λ done. (done ≡ true) × (tree_in tree.new ≡ meant)) }
{
    let top = root_level(shapes);
    let mut cells = rows;
    while tree.level < top && !cells.is_empty() {
        let level = tree.level;
        lift_root(tree, &cells[0].rect);
        let Some(next) = restore_level(alloc, tree, level, &cells, shapes)? else {
            return Ok(false);
        };
        cells = next;
    }
    let fits = fits_root(tree, cells.len());
    if !fits {
        return Ok(false);
    }
    let (root, level) = (tree.root, tree.level);
    fill(tree, root, level, &cells);
    Ok(true)
}

/// Whether no id is negative or above the number of rows, as ids that count up from 0 or 1.
fn count_up<const D: usize>(rows: &[Cell<D>]) -> bool {
    rows.iter().all(|row| 0 <= row.number && row.number as u64 <= rows.len() as u64)
}

/// The rows by rising id.
fn rising<const D: usize>(alloc: Global, rows: &[Cell<D>]) -> Result<Vec<Cell<D>>, AllocError>
    ensures { IfOk result (λ sorted. IsPermutation rows.now sorted.items) }
{
    let mut sorted = Vec::with_capacity(alloc, rows.len())?;
    sorted.extend_from_slice(rows)?;
    sorted.sort_unstable_by_key(|row: &Cell<D>| -> i64 { row.number });
    Ok(sorted)
}

/// The nodes of a tree without rows that is ready for these. Ids that count up get their entries by rising id: a look-up tries
/// the place of such an id first, and hashes no id that it finds there.
fn arena_by_id<const D: usize>(
    alloc: Global,
    keys: RandomState,
    capacity: Capacity,
    rows: &[Cell<D>],
) -> Result<Arena<D>, PackFault>
    requires some { 1 ≤ D }
    requires few { D ≤ 3 }
    requires most { length rows.now ≤ most_rows_of_a_tree }
    ensures arena { IfOk result (λ arena. IsReadyFor arena capacity rows.now) }
    ensures fault { IfErr result (λ fault. IsFaultOf (numbers rows.now) fault) }
{
    if count_up(rows) {
        let sorted = rising(alloc, rows)?;
        match ready_arena(alloc, keys, capacity, &sorted) {
            Ok(arena) => return Ok(arena),
            Err(PackFault::Memory) => return Err(PackFault::Memory),
            // Which row is told depends on their order.
            Err(_) => {}
        }
    }
    ready_arena(alloc, keys, capacity, rows)
}

/// The nodes of a tree with these rows, in nodes of these shapes; none if the rows don't fit.
pub(crate) fn shaped_arena<const D: usize>(
    alloc: Global,
    keys: RandomState,
    capacity: Capacity,
    shapes: &[Shape],
    rows: &[Row<D>],
) -> Result<Option<Arena<D>>, PackFault>
    requires some { 1 ≤ D }
    requires few { D ≤ 3 }
    ensures arena { IfOk result (λ found. IfSome found (λ arena. IsKeptWith arena 0)) }
    ensures most { OnOk result (length rows.now ≤ most_rows_of_a_tree) }
    ensures fault { IfErr result (λ fault. IsFaultOf (ids rows.now) fault) }
    ensures meant { (meant : Tree) → IsListed capacity shapes.now rows.now meant →
        MatchResult result (λ found. IsSomeAnd found (λ arena. IsMade arena capacity meant)) (λ fault. fault ≡ Memory) }
{
    if rows.len() > MOST_ROWS_OF_A_TREE {
        return Err(PackFault::TooMany);
    }
    let cells = row_cells(alloc, rows)?;
    let mut arena = arena_by_id(alloc, keys, capacity, &cells)?;
    let done = restore(alloc, &mut arena, shapes, cells)?;
    if !done {
        return Ok(None);
    }
    Ok(Some(arena))
}
