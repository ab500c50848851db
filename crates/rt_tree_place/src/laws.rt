//! What holds of each whole tree. Each function does nothing: its contract is the law.
//!
//! Callers show by these laws that nodes, levels and pending cells stay within the room that was made for them.

ghost use Rattle.std.specs.Prelude.{ℕ, ◌+◌, ◌-◌, ◌/◌, ◌^◌, ◌≤◌, vec_len};
ghost use Rattle.slab.specs.Slab.{slab_len, HasRoomFor};
ghost use Rattle.rt_box.specs.Capacity.{least_fill};
ghost use Rattle.rt_tree_node.specs.Whole.{IsWhole, HasRoom, row_count};

use rt_tree_node::Arena;

/// A tree has at most one node for each `least - 1` of its rows, and one more; `least` is the least number of cells
/// in a node.
pub fn nodes_are_few<const D: usize>(tree: &Arena<D>)
    requires { IsWhole tree.now }
    ensures { slab_len tree.now.nodes ≤ 1 + row_count tree.now / (least_fill tree.now.capacity - 1) }
{
    let _ = tree;
}

/// A tree has at least as many rows as the least number of cells in a node to the power of its levels above the leaves.
pub fn levels_are_few<const D: usize>(tree: &Arena<D>)
    requires { IsWhole tree.now }
    ensures powers { 1 ≤ tree.now.level → least_fill tree.now.capacity ^ tree.now.level ≤ row_count tree.now }
    ensures doubles { (n : ℕ) → row_count tree.now ≤ 2 ^ n → tree.now.level ≤ n }
{
    let _ = tree;
}

/// No more cells are pending than there are rows, in the tree or pending.
pub fn pending_cells_are_few<const D: usize>(tree: &Arena<D>)
    requires { IsWhole tree.now }
    ensures { vec_len tree.now.pending ≤ row_count tree.now }
{
    let _ = tree;
}

/// If there is room for the nodes of any tree with that many rows, there is room for 32 nodes more.
pub fn room_is_enough<const D: usize>(tree: &Arena<D>)
    requires whole { IsWhole tree.now }
    requires room { HasRoom tree.now (row_count tree.now) }
    ensures { HasRoomFor tree.now.nodes 32 }
{
    let _ = tree;
}
