//! A node that is packed with cells.

ghost use Rattle.std.specs.Prelude.{◌≡◌, ℕ, ◌+◌, ◌^◌, ◌<◌, ◌≤◌, [], ◌++◌, Some, All, length};
ghost use Rattle.slab.specs.Slab.{HasRoomFor};
ghost use Rattle.rt_box.specs.Capacity.{least_fill};
ghost use Rattle.rt_tree_pack.specs.Steps.{MayPack, PacksNode};

use crate::filling::fill;
use rt_tree_node::{Arena, Cell, Key, Node, add_node, hull_at, slab_facts};
use rt_tree_place::cell_for;

/// Makes a node of the cells, and returns the cell that names it.
pub fn pack_node<const D: usize>(tree: &mut Arena<D>, level: u8, cells: &[Cell<D>]) -> Cell<D>
    requires few { D ≤ 3 }
    requires may { MayPack tree.old level cells.now }
    requires room { HasRoomFor tree.old.nodes 1 }
    requires keys { tree.old.nodes.capacity ≤ 2 ^ 62 }
    ensures { PacksNode tree.old tree.new level cells.now result }
{
    slab_facts(&tree.nodes);
    cells[0].rect.facts();
    let key = add_node(&mut tree.nodes, Node::new(level, None, &cells[0].rect));
    fill(tree, key, level, cells);
    let hull = hull_at(&tree.nodes, key);
    cell_for(key, &hull)
}
