//! How many rows there are below each node, for counts.
//!
//! `Nodes` learns them. These calls take the whole arena, so that one equation says that all of it stays.

ghost use Rattle.std.specs.Prelude.{◌≡◌, ℕ, ◌≤◌, Some};
ghost use Rattle.rt_tree_node.specs.Places.{level_at};
ghost use Rattle.rt_tree_node.specs.Below.{HangTogether};

use rt_tree_node::Arena;

/// Learns how many rows there are below the nodes that were written. The nodes stay as they are, and it takes no memory.
pub(crate) fn learn<const D: usize>(tree: &mut Arena<D>)
    requires joined { HangTogether tree.old.nodes }
    requires level { (key l : ℕ) → level_at tree.old.nodes key ≡ Some l → l ≤ tree.old.level }
    ensures { tree.new ≡ tree.old }
{
    tree.nodes.learn(tree.level);
}

/// Learns how many rows there are below each node. The nodes stay as they are, and it takes no memory.
pub(crate) fn learn_all<const D: usize>(tree: &mut Arena<D>)
    requires joined { HangTogether tree.old.nodes }
    requires level { (key l : ℕ) → level_at tree.old.nodes key ≡ Some l → l ≤ tree.old.level }
    ensures { tree.new ≡ tree.old }
{
    tree.nodes.learn_all(tree.level);
}
