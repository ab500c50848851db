//! The removal of a row.
//!
//! Its steps have modules of their own, in this order: `location`, `take`, `condense`, `place`, `give_way`.
//! `specs/Removal.antt` says what they come to.

ghost use Rattle.std.specs.Prelude.{◌≡◌, ◌+◌, ◌-◌, ◌*◌, ◌^◌, ◌++◌, ◌≤◌, [], reverse, vec_capacity};
ghost use Rattle.rt_box.specs.Capacity.{least_fill};
ghost use Rattle.rt_tree_node.specs.Whole.{IsWhole, IsBranched, HasRoom, row_count, most_rows_of_a_tree};
ghost use Rattle.rt_tree_remove.specs.Removal.{Removes};
ghost use Rattle.rt_tree_remove.specs.Steps.{IsLocationOf};

use crate::condense::condense;
use crate::give_way::give_way;
use crate::location::Location;
use crate::place::place_pending;
use crate::take::take_row;
use rt_tree_node::{Arena, Pending};

/// Reverses the pending cells, since the last are placed first.
fn turn_round<const D: usize>(pending: &mut Vec<Pending<D>>)
    ensures items { pending.new.items ≡ reverse pending.old.items }
    ensures room { vec_capacity pending.new ≡ vec_capacity pending.old }
{
    pending.reverse();
}

/// Takes the row with the id, which was found, out of the tree. From the leaf up underfull nodes are eliminated, and their
/// cells are placed again, those of the lowest level first. At last an inner root with one child gives way to it. The call
/// takes no memory.
pub fn remove_found<const D: usize>(tree: &mut Arena<D>, id: &i64, location: &Location<D>)
    requires whole { IsWhole tree.old }
    requires branched { IsBranched tree.old }
    requires idle { tree.old.pending.items ≡ [] }
    requires location { IsLocationOf tree.old id.now location.now }
    requires rows { row_count tree.old ≤ most_rows_of_a_tree }
    requires room { HasRoom tree.old (row_count tree.old) }
    requires pending_room { (least_fill tree.old.capacity - 1) * tree.old.level + 512 ≤ vec_capacity tree.old.pending }
    ensures { Removes tree.old tree.new id.now location.now.rect }
{
    take_row(tree, id, location);
    condense(tree, location.leaf, &location.rect);
    turn_round(&mut tree.pending);
    place_pending(tree);
    give_way(tree);
}
