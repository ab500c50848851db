//! A cell that comes into a node of its level.
//!
//! What the cell names then leads back to the node: a row by its entry in the map, a child by its parent
//! (`Attaches` in `specs/Steps.antt`).

ghost use Rattle.std.specs.Prelude.{◌≡◌, ◌≢◌, ◌<◌, ◌≤◌, IsSome, length};
ghost use Rattle.std.specs.Ordering.{int_eq};
ghost use Rattle.indexmap.specs.IndexMap.{get as leaf_of};
ghost use Rattle.slab.specs.Slab.{ContainsKey};
ghost use Rattle.rt_box.specs.Capacity.{most_cells};
ghost use Rattle.rt_tree_node.specs.Places.{cells_at, key_of as key_in};
ghost use Rattle.rt_tree_place.specs.Steps.{Attaches};

use rt_tree_node::{Arena, Key, Pending, add_cell, set_leaf, set_parent};

/// Appends the cell to a node of its level, and notes at what it names that it stands there.
pub fn attach<const D: usize>(tree: &mut Arena<D>, key: Key, entry: &Pending<D>)
    requires present { ContainsKey tree.old.nodes key }
    requires room { length (cells_at tree.old.nodes key) < most_cells }
    requires row { entry.now.level ≡ 0 → IsSome (leaf_of int_eq tree.old.leaves entry.now.cell.number) }
    requires child { 1 ≤ entry.now.level → ContainsKey tree.old.nodes (key_in entry.now.cell) }
    requires apart { 1 ≤ entry.now.level → key_in entry.now.cell ≢ key }
    ensures { Attaches tree.old tree.new key entry.now }
{
    entry.cell.rect.facts();
    if entry.level == 0 {
        // The leaf comes first: the id is hashed while its cache line is on its way.
        add_cell(&mut tree.nodes, key, &entry.cell);
        set_leaf(&mut tree.leaves, &entry.cell.number, key);
        return;
    }
    set_parent(&mut tree.nodes, entry.cell.key(), Some(key));
    add_cell(&mut tree.nodes, key, &entry.cell);
}
