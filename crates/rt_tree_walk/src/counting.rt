//! Counts: how many rows a window admits, without a list of them.
//!
//! The walk is that of a search, except that the rows of a leaf are counted, not taken.

ghost use Rattle.std.specs.Prelude.{◌≡◌, ◌^◌, ◌≤◌, ◌<◌, ℕ, [], length, true, Some, IfSome, IfOk, OnOk};
ghost use Rattle.slab.specs.Slab.{ContainsKey};
ghost use Rattle.rt_tree_node.specs.Below.{HangTogether, rows_below};
ghost use Rattle.rt_tree_node.specs.Places.{level_at};
ghost use Rattle.rt_tree_node.specs.Whole.{IsWhole, row_count};
ghost use Rattle.rt_tree_walk.specs.Search.{Counts};
ghost use Rattle.rt_tree_walk.specs.Visits.{IsQuery, MarkHolds, CountsRows, MarksChildren, GoesIntoCounting};

use crate::ahead::{LookAhead, Need};
use crate::searching::{Query, REACHED_ROOM, Reached, boxes_of, take_children};
use rt_box::Window;
use rt_tree_node::{Arena, Node, node_at};
use std::alloc::{AllocError, Global};

/// How many of a leaf's rows the window admits.
fn count_admitted<const D: usize>(leaf: &Node<D>, window: &Window<D>) -> usize
    ensures { CountsRows window.now leaf.now.cells result }
{
    window.admitted(boxes_of(leaf)).count_ones() as usize
}

/// How many rows there are below a marked node, if that is known. There is no look at the node.
#[inline]
fn rows_inside<const D: usize>(tree: &Arena<D>, next: &Reached) -> Option<usize>
    requires { HangTogether tree.now.nodes }
    ensures inside { IfSome result (λ _. next.now.is_inside ≡ true) }
    ensures below { (l : ℕ) → level_at tree.now.nodes next.now.key ≡ Some l →
        IfSome result (λ n. n ≡ length (rows_below tree.now.nodes l next.now.key)) }
{
    if !next.is_inside {
        return None;
    }
    tree.nodes.rows_below(next.key)
}

/// Goes into a node: counts a leaf's rows, or takes another node's children. All rows below a marked node are counted without
/// a look at it, if it is known how many they are.
#[inline(never)]
fn visit<const D: usize>(
    reached: &mut Vec<Reached>,
    tree: &Arena<D>,
    next: Reached,
    query: &Query<D>,
) -> Result<usize, AllocError>
    requires present { ContainsKey tree.now.nodes next.key }
    requires joined { HangTogether tree.now.nodes }
    requires few { D ≤ 3 }
    requires query { IsQuery query.now }
    requires mark { MarkHolds tree.now.nodes query.now.window next }
    ensures count { IfOk result (λ count. GoesIntoCounting tree.now query.now next count reached.old reached.new) }
    ensures marks { OnOk result (MarksChildren tree.now query.now next reached.old reached.new) }
{
    if let Some(rows) = rows_inside(tree, &next) {
        return Ok(rows);
    }
    let node = node_at(&tree.nodes, next.key);
    if node.level() > 0 {
        take_children(reached, node, query)?;
        return Ok(0);
    }
    if next.is_inside {
        return Ok(node.len());
    }
    Ok(count_admitted(node, &query.window))
}

/// Counts the rows whose boxes the window admits: as many as `search` would find.
///
/// # Errors
///
/// `AllocError` if no memory is left for the list of the nodes reached: 16 bytes a node.
pub fn count<const D: usize>(
    alloc: Global,
    tree: &Arena<D>,
    window: &Window<D>,
) -> Result<usize, AllocError>
    requires whole { IsWhole tree.now }
    requires settled { tree.now.pending.items ≡ [] }
    requires few { D ≤ 3 }
    requires small { row_count tree.now < 2 ^ 64 }
    ensures { IfOk result (λ count. Counts tree.now window.now count) }
{
    let mut reached = Vec::with_capacity(alloc, REACHED_ROOM)?;
    reached.push(Reached::root(tree))?;
    let (query, mut ahead) = (
        Query::new(window, Need::Count),
        LookAhead::new(tree, Need::Count),
    );
    let (mut visited, mut count) = (0, 0);
    while visited < reached.len() {
        ahead.look(tree, &reached, visited);
        let next = reached[visited];
        count += visit(&mut reached, tree, next, &query)?;
        visited += 1;
    }
    Ok(count)
}
