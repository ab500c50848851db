//! All levels of a tree.

ghost use Rattle.std.specs.Prelude.{◌≡◌, ◌^◌, ◌<◌, ◌≤◌, [], length, OnOk, IfOk};
ghost use Rattle.rt_tree_node.specs.Whole.{HasRoom, most_rows_of_a_tree};
ghost use Rattle.rt_tree.specs.Bare.{IsBare};
ghost use Rattle.rt_tree_pack.specs.Packing.{AreEntered, Packs};
ghost use Rattle.rt_tree_pack.specs.Steps.{PacksBelow};

use crate::filling::fill;
use crate::level::pack_level;
use crate::root::lift_root;
use crate::tile::tile;
use rt_tree_node::{Arena, Cell};
use std::alloc::{AllocError, Global};

/// Packs a tree without rows with these, whose ids have entries already. There is room for the nodes; what
/// it takes beside is lists of the cells that name nodes, and lists for a sort of some of the cells.
///
/// # Errors
///
/// `AllocError` if no memory is left. The tree is then out of shape.
pub fn pack<const D: usize>(
    alloc: Global,
    tree: &mut Arena<D>,
    rows: Vec<Cell<D>>,
) -> Result<(), AllocError>
    requires few { D ≤ 3 }
    requires bare { IsBare tree.old }
    requires entered { AreEntered tree.old rows.items }
    requires most { length rows.items ≤ most_rows_of_a_tree }
    requires room { HasRoom tree.old (length rows.items) }
    ensures { OnOk result (Packs tree.old tree.new rows.entry.items) }
{
    let mut cells = rows;
    while cells.len() > tree.capacity.greatest() {
        tile(alloc, &mut cells, tree.capacity)?;
        let level = tree.level;
        lift_root(tree, &cells[0].rect);
        cells = pack_level(alloc, tree, level, &cells)?;
    }
    let (root, level) = (tree.root, tree.level);
    fill(tree, root, level, &cells);
    Ok(())
}
