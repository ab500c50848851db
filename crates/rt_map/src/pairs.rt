//! The pairs of rows whose boxes touch.

ghost use Rattle.std.specs.Prelude.{IfOk};
ghost use Rattle.rt_map.specs.Join.{JoinsIn, JoinsItselfIn};

use rt_tree::Tree;
use rt_tree_join::Pair;
use std::alloc::{AllocError, Global};

/// The pairs of rows, one of each tree, whose boxes touch, each pair once, in no stated order. A
/// common point is enough, be it on an edge.
///
/// Both trees are gone through together: two nodes are looked at only if their boxes touch.
///
/// # Errors
///
/// `AllocError` if no memory is left for the pairs, or for the list of the pairs of nodes that are still to come.
pub fn join<const D: usize>(
    alloc: Global,
    tree: &Tree<D>,
    other: &Tree<D>,
) -> Result<Vec<Pair>, AllocError>
    ensures { IfOk result (λ pairs. JoinsIn tree.now.lists other.now.lists pairs.items) }
{
    rt_tree_join::join(alloc, tree.arena(), other.arena())
}

/// The pairs of two different rows of this tree whose boxes touch, each pair once, in no stated order. The lower id stands on
/// the left.
///
/// # Errors
///
/// `AllocError` if no memory is left for the pairs, or for the list of the pairs of nodes that are still to come.
pub fn join_self<const D: usize>(alloc: Global, tree: &Tree<D>) -> Result<Vec<Pair>, AllocError>
    ensures { IfOk result (λ pairs. JoinsItselfIn tree.now.lists pairs.items) }
{
    rt_tree_join::join_self(alloc, tree.arena())
}
