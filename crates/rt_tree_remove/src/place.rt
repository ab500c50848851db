//! The pending cells at the end of a removal.
//!
//! Each cell is settled by itself, with no level marked before. So a level may give up cells again for each of them.

ghost use Rattle.std.specs.Prelude.{◌≡◌, ◌+◌, ◌^◌, ◌<◌, ◌≤◌, vec_len, vec_capacity};
ghost use Rattle.rt_tree_node.specs.Whole.{IsWhole, HasRoom, row_count, most_rows_of_a_tree};
ghost use Rattle.rt_tree_node.specs.Settles.{Settles};
ghost use Rattle.rt_tree_remove.specs.Steps.{Places};

use rt_tree_node::Arena;
use rt_tree_place::settle;

/// Places the pending cells, each by itself, last first.
pub(crate) fn place_pending<const D: usize>(tree: &mut Arena<D>)
    requires whole { IsWhole tree.old }
    requires rows { row_count tree.old ≤ most_rows_of_a_tree }
    requires room { HasRoom tree.old (row_count tree.old) }
    requires pending_room { vec_len tree.old.pending + 512 ≤ vec_capacity tree.old.pending }
    ensures places { Places tree.old tree.new }
    ensures none_waits { vec_len tree.new.pending ≡ 0 }
{
    while !tree.pending.is_empty() {
        let base = tree.pending.len() - 1;
        // What an insertion takes is counted for its caller; a removal promises no count.
        let _ = settle(tree, base);
    }
}
