//! The replacement of a row by one that keeps its id.
//!
//! The row is removed and inserted again (`specs/Replacement.antt`). If no other row moves when it is removed, its id keeps its
//! entry in the map of leaves meanwhile: nothing is taken out of the map and put in again.

ghost use Rattle.std.specs.Prelude.{◌≡◌, ◌+◌, ◌-◌, ◌*◌, ◌^◌, ◌≤◌, [], true, vec_capacity};
ghost use Rattle.indexmap.specs.IndexMap.{spare};
ghost use Rattle.rt_box.specs.Capacity.{least_fill};
ghost use Rattle.rt_tree_node.specs.Whole.{IsWhole, IsBranched, HasRoom, row_count, most_rows_of_a_tree};
ghost use Rattle.slab.specs.Slab.{ContainsKey};
ghost use Rattle.rt_tree_remove.specs.Steps.{IsLocationOf, MovesAlone};
ghost use Rattle.rt_tree_remove.specs.Replacement.{Replaces};

use crate::fit::fit_above;
use crate::location::Location;
use crate::remove::remove_found;
use rt_box::Rect;
use rt_tree_node::{Arena, leaves_facts, node_at, remove_cell};
use rt_tree_place::{insert_row, push_row, settle};

/// Whether no other row moves if this one is removed. Most leaves have a cell to spare.
fn moves_alone<const D: usize>(tree: &Arena<D>, location: &Location<D>) -> bool
    requires few { D ≤ 3 }
    requires present { ContainsKey tree.now.nodes location.now.leaf }
    ensures { result ≡ true → MovesAlone tree.now location.now }
{
    node_at(&tree.nodes, location.leaf).len() > tree.capacity.least()
}

/// Moves a row whose removal moves no other: its cell leaves the leaf, the boxes above are fitted, and the cell is pending with
/// the other box, and is placed.
fn move_row<const D: usize>(tree: &mut Arena<D>, id: &i64, location: &Location<D>, rect: &Rect<D>)
    requires whole { IsWhole tree.old }
    requires branched { IsBranched tree.old }
    requires idle { tree.old.pending.items ≡ [] }
    requires location { IsLocationOf tree.old id.now location.now }
    requires alone { MovesAlone tree.old location.now }
    requires rows { row_count tree.old ≤ most_rows_of_a_tree }
    requires room { HasRoom tree.old (row_count tree.old) }
    requires pending_room { 513 ≤ vec_capacity tree.old.pending }
    ensures { Replaces tree.old tree.new id.now location.now.rect rect.now }
{
    leaves_facts(&tree.leaves);
    rect.facts();
    remove_cell(&mut tree.nodes, location.leaf, location.at);
    fit_above(tree, location.leaf, &location.rect);
    push_row(&mut tree.pending, id, rect);
    let _ = settle(tree, 0);
}

/// Gives the row with the id, which was found, another box: it is removed and inserted again. It takes no memory.
pub fn replace_found<const D: usize>(
    tree: &mut Arena<D>,
    id: &i64,
    location: &Location<D>,
    rect: &Rect<D>,
)
    requires whole { IsWhole tree.old }
    requires branched { IsBranched tree.old }
    requires idle { tree.old.pending.items ≡ [] }
    requires location { IsLocationOf tree.old id.now location.now }
    requires rows { row_count tree.old ≤ most_rows_of_a_tree }
    requires room { HasRoom tree.old (row_count tree.old) }
    requires leaves_room { 1 ≤ spare tree.old.leaves }
    requires pending_room { (least_fill tree.old.capacity - 1) * tree.old.level + 512 ≤ vec_capacity tree.old.pending }
    requires one_more { 513 ≤ vec_capacity tree.old.pending }
    ensures { Replaces tree.old tree.new id.now location.now.rect rect.now }
{
    if moves_alone(tree, location) {
        move_row(tree, id, location, rect);
        return;
    }
    remove_found(tree, id, location);
    // No id stands twice in the map of leaves.
    leaves_facts(&tree.leaves);
    let _ = insert_row(tree, id, rect);
}
