//! A level of nodes.

ghost use Rattle.std.specs.Prelude.{◌≡◌, ◌^◌, ◌<◌, ◌≤◌, [], length, IfOk};
ghost use Rattle.rt_box.specs.Capacity.{least_fill};
ghost use Rattle.rt_tree_pack.specs.Steps.{IsRun, IsBelowRoot, HasRoomToPack, PacksUpTo};

use crate::node::pack_node;
use rt_box::Capacity;
use rt_tree_node::{Arena, Cell};
use std::alloc::{AllocError, Global};

/// How many of the cells that are left the next node gets: all that it can hold, unless too few would be left for a last
/// node.
fn run_length(left: usize, capacity: Capacity) -> usize
    requires { least_fill capacity ≤ left }
    ensures { IsRun capacity left result }
{
    let (least, most) = (capacity.least(), capacity.greatest());
    if left <= most {
        return left;
    }
    if left < most + least {
        return left - least;
    }
    most
}

/// Makes the nodes of a level of its cells, in their order, and returns the cells that name these nodes.
pub(crate) fn pack_level<const D: usize>(
    alloc: Global,
    tree: &mut Arena<D>,
    level: u8,
    cells: &[Cell<D>],
) -> Result<Vec<Cell<D>>, AllocError>
    requires few { D ≤ 3 }
    requires below { IsBelowRoot tree.old level cells.now }
    requires many { tree.old.capacity < length cells.now }
    requires room { HasRoomToPack tree.old cells.now }
    requires keys { tree.old.nodes.capacity ≤ 2 ^ 62 }
    ensures { IfOk result (λ next. PacksUpTo tree.old tree.new level cells.now [] next.items) }
{
    let mut next = Vec::with_capacity(alloc, cells.len() / tree.capacity.greatest() + 1)?;
    let mut left = cells;
    while !left.is_empty() {
        let (run, rest) = left.split_at(run_length(left.len(), tree.capacity));
        let cell = pack_node(tree, level, run);
        next.push(cell)?;
        left = rest;
    }
    Ok(next)
}
