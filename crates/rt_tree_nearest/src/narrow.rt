//! A first limit for a search: how far the last of k rows of some near leaf is.
//!
//! The answer has no row beyond it, so few children come into the heap. Any leaf gives a limit; a near one gives a close one.

ghost use Rattle.std.specs.Prelude.{◌≡◌, ◌≤◌, [], Some, IfOk, IfSome};
ghost use Rattle.rt_tree_node.specs.Whole.{IsWhole};
ghost use Rattle.rt_tree_node.specs.Places.{level_at};
ghost use Rattle.rt_tree_nearest.specs.Candidates.{IsAimed, IsKeptAfter, IsNarrowed, NamesKey};

use crate::distance::gaps;
use crate::keep::{Kept, keep_rows, reach};
use crate::query::Query;
use rt_box::Rect;
use rt_tree_node::{Arena, Key, Node, node_at};
use std::alloc::{AllocError, Global};

/// The child whose box is nearest by the sum of the gaps on all axes, or `None` if there is none.
fn least_apart<const D: usize>(node: &Node<D>, target: &Rect<D>) -> Option<Key>
    ensures { IfSome result (NamesKey node.now) }
{
    let mut child = None;
    let mut least = u64::MAX;
    for at in 0..node.len() {
        let cell = node.cell(at);
        let distance = gaps(&cell.rect, target);
        if distance < least {
            least = distance;
            child = Some(cell.key());
        }
    }
    child
}

/// A child whose box touches the target, or the nearest one if none does. Most often one does, and a window tells that of all
/// children at once.
fn near_child<const D: usize>(node: &Node<D>, touching: &Query<D>) -> Option<Key>
    ensures { IfSome result (NamesKey node.now) }
{
    let cells = touching.near_cells(node);
    if cells == 0 {
        return least_apart(node, &touching.target);
    }
    Some(node.cell(cells.trailing_zeros() as usize).key())
}

/// A leaf whose rows are likely to be near to the box.
fn near_leaf<const D: usize>(tree: &Arena<D>, target: &Rect<D>) -> Option<Key>
    requires whole { IsWhole tree.now }
    requires settled { tree.now.pending.items ≡ [] }
    requires few { D ≤ 3 }
    ensures { IfSome result (λ key. level_at tree.now.nodes key ≡ Some 0) }
{
    let touching = Query::new(target, 0, 0);
    let mut key = tree.root;
    let mut height = tree.level;
    while height > 0 {
        key = near_child(node_at(&tree.nodes, key), &touching)?;
        height -= 1;
    }
    Some(key)
}

/// A leaf, and what is kept of its rows if they are the first ones seen.
#[derive(Drop)]
pub(crate) struct Near<const D: usize> {
    pub(crate) leaf: Key,
    pub(crate) kept: Kept<D>,
}

/// A query with a limit that is likely to be nearer, and the leaf that gave it, if one did.
#[derive(Drop)]
pub(crate) struct Narrowed<const D: usize> {
    pub(crate) query: Query<D>,
    pub(crate) near: Option<Near<D>>,
}

/// The query with a limit that is likely to be nearer, and the same answer.
pub(crate) fn narrow<const D: usize>(
    alloc: Global,
    tree: &Arena<D>,
    query: &Query<D>,
) -> Result<Narrowed<D>, AllocError>
    requires whole { IsWhole tree.now }
    requires settled { tree.now.pending.items ≡ [] }
    requires few { D ≤ 3 }
    requires aimed { IsAimed query.now }
    requires some { 1 ≤ query.now.k }
    ensures query { IfOk result (λ n. IsNarrowed tree.now query.now n.query) }
    ensures near { IfOk result (λ n. IfSome n.near (IsKeptAfter tree.now n.query [])) }
{
    let unchanged = Narrowed {
        query: *query,
        near: None,
    };
    let Some(key) = near_leaf(tree, &query.target) else {
        return Ok(unchanged);
    };
    let leaf = node_at(&tree.nodes, key);
    if tree.level == 0 || leaf.len() < query.k {
        return Ok(unchanged);
    }
    let mut kept = Kept::Few(Vec::new(alloc));
    keep_rows(alloc, &mut kept, query, leaf)?;
    let Kept::Full(_) = &kept else {
        return Ok(unchanged);
    };
    let limit = reach(&kept, query);
    Ok(Narrowed {
        query: Query::new(&query.target, query.k, limit),
        near: Some(Near { leaf: key, kept }),
    })
}
