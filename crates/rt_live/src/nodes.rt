//! Room for the nodes that searches reach.

ghost use Rattle.std.specs.Prelude.{◌+◌, ◌-◌, ◌*◌, ◌<◌, ◌≤◌, length, IfOk};
ghost use Rattle.rt_live.specs.Rows.{rows_by_id};
ghost use Rattle.rt_live.specs.Room.{HasFewNodes};

use rt_tree::Tree;
use std::alloc::AllocError;

/// A law: a tree has few nodes for its rows. The call does nothing.
pub(crate) fn few_nodes<const D: usize>(tree: &Tree<D>)
    ensures { HasFewNodes tree.now.lists }
{
    // The list of the rows is as long as the tree's.
    tree.is_in_shape();
    tree.is_small();
}

/// More nodes than the tree has with `more` further rows: fewer than `least - 1` rows for each.
pub(crate) fn nodes_with<const D: usize>(
    tree: &Tree<D>,
    more: usize,
    least: usize,
) -> Result<usize, AllocError>
    requires { 2 ≤ least }
    ensures { IfOk result (λ nodes. length (rows_by_id tree.now.lists) + more < nodes * (least - 1)) }
{
    // The list of the rows is as long as the tree's.
    tree.is_in_shape();
    let rows = tree.len().checked_add(more).ok_or(AllocError)?;
    let nodes = (rows / (least - 1)).checked_add(1).ok_or(AllocError)?;
    Ok(nodes)
}
