//! A level of nodes, each with as many cells as its shape says.

ghost use Rattle.std.specs.Prelude.{◌≡◌, suc, ◌^◌, ◌≤◌, List, [], true, IfOk, IfSome, IsSomeAnd};
ghost use Rattle.rt_tree_pack.specs.Steps.{IsBelowRoot};
ghost use Rattle.rt_tree_rules.specs.Nested.{Entry};
ghost use Rattle.rt_map.specs.LevelSteps.{FitsNext, RestoresUpTo};
ghost use Rattle.rt_map.specs.Meant.{Awaits, sizes_at};

use crate::shape::Shape;
use rt_tree_node::{Arena, Cell};
use rt_tree_pack::pack_node;
use std::alloc::{AllocError, Global};

/// Whether a node may have that many of the cells that are left, and there is room for it.
fn fits_next<const D: usize>(tree: &Arena<D>, run: usize, left: usize) -> bool
    ensures fits { result ≡ true → FitsNext tree.now run left }
    ensures all { FitsNext tree.now run left → result ≡ true }
{
    let capacity = tree.capacity;
    capacity.least() <= run
        && run <= capacity.greatest()
        && run <= left
        && tree.nodes.len() < tree.nodes.capacity()
}

/// Makes the nodes of a level of its cells, in their order, and returns the cells that name these nodes. If there are too few
/// cells for the shapes of that level, or too many, it returns none.
pub(crate) fn restore_level<const D: usize>(
    alloc: Global,
    tree: &mut Arena<D>,
    level: u8,
    cells: &[Cell<D>],
    shapes: &[Shape],
) -> Result<Option<Vec<Cell<D>>>, AllocError>
    requires few { D ≤ 3 }
    requires below { IsBelowRoot tree.old level cells.now }
    requires keys { tree.old.nodes.capacity ≤ 2 ^ 62 }
    ensures steps { IfOk result (λ made. IfSome made
        (λ next. RestoresUpTo tree.old tree.new level cells.now [] next.items)) }
    ensures meant { (nodes : List (Entry (suc level))) →
        Awaits tree.old level (sizes_at level shapes.now) cells.now [] nodes →
        IfOk result (λ made. IsSomeAnd made (λ next. Awaits tree.new level [] [] next.items nodes)) }
{
    let mut next = Vec::new(alloc);
    let mut left = cells;
    for shape in shapes {
        if shape.level != level {
            continue;
        }
        let fits = fits_next(tree, shape.cells, left.len());
        if !fits {
            return Ok(None);
        }
        let (run, rest) = left.split_at(shape.cells);
        let cell = pack_node(tree, level, run);
        next.push(cell)?;
        left = rest;
    }
    if left.is_empty() {
        return Ok(Some(next));
    }
    Ok(None)
}
