//! What holds of a tree from outside. Each function does nothing: its contract is the law.
//!
//! A sound tree is defined node by node. These laws say what follows for the list of all nodes.

ghost use Rattle.std.specs.Prelude.{◌≡◌, []};
ghost use Rattle.rt_check.specs.Conditions.{IsSound};
ghost use Rattle.rt_tree_node.specs.Whole.{IsWhole, IsBranched};
ghost use Rattle.rt_tree_outside.specs.InOrder.{IsPreorder, AreByRisingId};
ghost use Rattle.rt_tree_outside.specs.LeafRows.{HasRows};
ghost use Rattle.rt_tree_outside.specs.Outside.{outside};

use rt_tree_node::{Arena, leaves_facts};

/// The checker finds no problem in a whole tree, whose inner root has two cells at least.
pub fn outside_is_sound<const D: usize>(tree: &Arena<D>)
    requires whole { IsWhole tree.now }
    requires settled { tree.now.pending.items ≡ [] }
    requires branched { IsBranched tree.now }
    ensures { IsSound (outside tree.now) }
{
    let _ = tree;
}

/// The nodes are listed in preorder.
pub fn outside_is_in_preorder<const D: usize>(tree: &Arena<D>)
    requires whole { IsWhole tree.now }
    requires settled { tree.now.pending.items ≡ [] }
    ensures { IsPreorder (outside tree.now) }
{
    let _ = tree;
}

/// The row entries are listed by rising id.
pub fn entries_are_by_rising_id<const D: usize>(tree: &Arena<D>)
    ensures { AreByRisingId (outside tree.now).rows }
{
    leaves_facts(&tree.leaves);
}

/// The cells of the leaves are the rows.
pub fn outside_has_the_rows<const D: usize>(tree: &Arena<D>)
    requires whole { IsWhole tree.now }
    requires settled { tree.now.pending.items ≡ [] }
    ensures { HasRows (outside tree.now) tree.now }
{
    let _ = tree;
}
