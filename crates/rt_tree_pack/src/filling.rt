//! The cells of a node.

ghost use Rattle.std.specs.Prelude.{◌≡◌, ◌+◌, ◌≤◌, [], Some, length};
ghost use Rattle.slab.specs.Slab.{ContainsKey};
ghost use Rattle.rt_box.specs.Capacity.{most_cells};
ghost use Rattle.rt_tree_node.specs.Places.{cells_at};
ghost use Rattle.rt_tree_pack.specs.Steps.{MayFill, Fills};

use crate::looks::Looks;
use indexmap::IndexMap;
use rt_tree_node::{Arena, Cell, Key, Pending};
use rt_tree_place::attach;
use std::hash::RandomState;

/// Looks at the entries of cells that are rows: they are written next.
fn look_at_entries<const D: usize>(
    leaves: &IndexMap<i64, Key, RandomState>,
    level: u8,
    cells: &[Cell<D>],
) {
    if level > 0 {
        return;
    }
    let mut looks = Looks::new();
    looks.look_at(leaves, cells);
}

/// Appends cells to a node of their level.
pub fn fill<const D: usize>(tree: &mut Arena<D>, key: Key, level: u8, cells: &[Cell<D>])
    requires few { D ≤ 3 }
    requires present { ContainsKey tree.old.nodes key }
    requires room { length (cells_at tree.old.nodes key) + length cells.now ≤ most_cells }
    requires named { MayFill tree.old key level cells.now }
    ensures { Fills tree.old tree.new key level cells.now }
{
    look_at_entries(&tree.leaves, level, cells);
    for cell in cells {
        attach(tree, key, &Pending { level, cell: *cell });
    }
}
