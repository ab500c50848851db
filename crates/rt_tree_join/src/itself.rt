//! A tree joined with itself.
//!
//! A stack holds the nodes whose rows are to be paired with one another. A leaf's rows are compared, each with the later
//! ones. Of another node each child joins the stack, and is due with each later child that it touches: the pairs of these
//! are found as those of two trees are.

ghost use Rattle.std.specs.Prelude.{◌≡◌, ◌-◌, ◌<◌, ◌≤◌, ◌++◌, [], length, map, All, IfOk, OnOk};
ghost use Rattle.rt_tree_node.specs.Whole.{IsWhole};
ghost use Rattle.rt_tree_join.specs.Join.{JoinsItself};
ghost use Rattle.rt_tree_join.specs.Due.{IsSubtree};
ghost use Rattle.rt_tree_join.specs.Itself.{in_order, children_of, later_pairs, later_due, StartsWithin, GoesWithin};

use crate::due::{Due, Side, Subtree, open};
use crate::joining::{Pair, pair_due, pair_row};
use rt_tree_node::{Arena, Node, node_at};
use std::alloc::{AllocError, Global};

/// Pairs the rows of a leaf with one another: each with the later ones that it touches.
fn pair_within<const D: usize>(pairs: &mut Vec<Pair>, leaf: &Node<D>) -> Result<(), AllocError>
    ensures { OnOk result (pairs.new.items ≡ pairs.old.items ++ later_pairs leaf.now.cells) }
{
    for at in 0..leaf.len() {
        let row = leaf.cell(at);
        pair_row(pairs, Side::Left, &row, leaf, at + 1)?;
    }
    Ok(())
}

/// Opens a node against itself: each child is to be paired with itself, and is due with the later ones that it touches.
fn open_within<const D: usize>(
    nodes: &mut Vec<Subtree<D>>,
    due: &mut Vec<Due<D>>,
    node: &Node<D>,
) -> Result<(), AllocError>
    requires { 0 < node.now.level }
    ensures nodes { OnOk result (nodes.new.items ≡ nodes.old.items ++ children_of node.now) }
    ensures due { OnOk result (due.new.items ≡ due.old.items ++ later_due (node.now.level - 1) node.now.cells) }
{
    let level = node.level() - 1;
    for at in 0..node.len() {
        let child = Subtree::child(&node.cell(at), level);
        nodes.push(child)?;
        open(due, Side::Right, node, at + 1, &child)?;
    }
    Ok(())
}

/// Takes the node that comes next: opens it against itself, or pairs the rows of a leaf.
fn visit_within<const D: usize>(
    pairs: &mut Vec<Pair>,
    nodes: &mut Vec<Subtree<D>>,
    due: &mut Vec<Due<D>>,
    tree: &Arena<D>,
    next: &Subtree<D>,
) -> Result<(), AllocError>
    requires whole { IsWhole tree.now }
    requires settled { tree.now.pending.items ≡ [] }
    requires few { D ≤ 3 }
    requires next { IsSubtree tree.now next.now }
    requires none { due.old.items ≡ [] }
    ensures { OnOk result (GoesWithin tree.now next.now pairs.old pairs.new nodes.old nodes.new due.new) }
{
    let node = node_at(&tree.nodes, next.key);
    if next.level > 0 {
        return open_within(nodes, due, node);
    }
    pair_within(pairs, node)
}

/// The node that comes first: the root, unless the tree has no rows.
fn first_within<const D: usize>(
    alloc: Global,
    tree: &Arena<D>,
) -> Result<Vec<Subtree<D>>, AllocError>
    requires whole { IsWhole tree.now }
    requires settled { tree.now.pending.items ≡ [] }
    requires few { D ≤ 3 }
    ensures { IfOk result (λ nodes. StartsWithin tree.now nodes.items) }
{
    let mut nodes = Vec::new(alloc);
    let Some(root) = Subtree::root(tree) else {
        return Ok(nodes);
    };
    nodes.push(root)?;
    Ok(nodes)
}

/// Puts the lower id of each pair to the left.
fn put_in_order(pairs: &mut Vec<Pair>)
    ensures { pairs.new.items ≡ map in_order pairs.old.items }
{
    for pair in pairs.iter_mut() {
        *pair = pair.in_order();
    }
}

/// The pairs of two different rows of one tree whose boxes touch: each pair once, the row with the lower id on the left, in
/// no stated order.
///
/// # Errors
///
/// `AllocError` if no memory is left for the pairs, or for the lists of nodes and of pairs of nodes that are still to come.
pub fn join_self<const D: usize>(alloc: Global, tree: &Arena<D>) -> Result<Vec<Pair>, AllocError>
    requires whole { IsWhole tree.now }
    requires settled { tree.now.pending.items ≡ [] }
    requires few { D ≤ 3 }
    ensures { IfOk result (λ pairs. JoinsItself tree.now pairs.items) }
{
    let mut pairs = Vec::new(alloc);
    let mut due = Vec::new(alloc);
    let mut nodes = first_within(alloc, tree)?;
    while let Some(next) = nodes.pop() {
        visit_within(&mut pairs, &mut nodes, &mut due, tree, &next)?;
        pair_due(&mut pairs, &mut due, tree, tree)?;
    }
    put_in_order(&mut pairs);
    Ok(pairs)
}
