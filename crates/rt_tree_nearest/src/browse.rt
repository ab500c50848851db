//! The best first: the node that is nearest is looked at next (Hjaltason, Samet 1999, "Distance browsing in spatial
//! databases", section 3), until it is farther than the rows kept (Roussopoulos, Kelley, Vincent 1995, "Nearest neighbor
//! queries").
//!
//! No row below a node is nearer than its box. So a node that is farther than `k` rows that were seen has no row of the
//! answer below it.

ghost use Rattle.std.specs.Prelude.{◌≡◌, ℕ, suc, None, IfSome, ◌<◌, ◌≤◌, [], ◌++◌, map, filter, nat_le, IfOk, OnOk, unsigned_abs};
ghost use Rattle.std.specs.List.Sorted.{IsPermutation};
ghost use Rattle.std.specs.BinaryHeap.{KeepsHeap, heap_items};
ghost use Rattle.slab.specs.Slab.{ContainsKey};
ghost use Rattle.rt_tree_node.specs.Whole.{IsWhole};
ghost use Rattle.rt_tree_nearest.specs.Candidates.{candidates_of, IsAimed, IsKeptIn, IsKeptAfter, KeepsFrom, KnowsAt, QueuesFrom, ExploresFrom, IsAnswer};

use crate::candidate::Branch;
use crate::keep::{Kept, keep_rows, ordered, reach};
use crate::narrow::{Narrowed, Near, narrow};
use crate::query::Query;
use rt_tree_node::{Arena, Key, Node, node_at};
use rt_tree_walk::Row;
use std::alloc::{AllocError, Global};
use std::cmp::Reverse;
use std::collections::BinaryHeap;

/// Puts the children of a node that aren't too far into the heap.
fn push_children<const D: usize>(
    branches: &mut BinaryHeap<Reverse<Branch>>,
    query: &Query<D>,
    node: &Node<D>,
    most: u128,
) -> Result<(), AllocError>
    requires aimed { IsAimed query.now }
    requires within { most ≤ query.now.limit }
    ensures { OnOk result (QueuesFrom query.now.target most node.now.cells branches.old branches.new) }
{
    let mut rest = query.near_cells(node);
    while rest != 0 {
        let cell = node.cell(rest.trailing_zeros() as usize);
        let branch = Branch::new(&cell, &query.target);
        if branch.distance <= most {
            branches.push(Reverse(branch))?;
        }
        rest &= rest - 1;
    }
    Ok(())
}

/// Sees the rows of a leaf. What is kept after those of the near leaf is known if they come first.
fn see_rows<const D: usize>(
    alloc: Global,
    kept: &mut Kept<D>,
    near: Option<Near<D>>,
    query: &Query<D>,
    key: Key,
    leaf: &Node<D>,
) -> Result<(), AllocError>
    requires kept { IsKeptIn query.now kept.old }
    requires aimed { IsAimed query.now }
    requires near { IfSome near (KnowsAt query.now key leaf.now kept.old) }
    ensures { OnOk result (KeepsFrom query.now (candidates_of query.now leaf.now) kept.old kept.new) }
{
    match near {
        Some(first) if first.leaf == key => {
            *kept = first.kept;
            Ok(())
        }
        _ => keep_rows(alloc, kept, query, leaf),
    }
}

/// Sees the rows of a leaf, or the children of another node.
fn explore<const D: usize>(
    alloc: Global,
    kept: &mut Kept<D>,
    near: &mut Option<Near<D>>,
    branches: &mut BinaryHeap<Reverse<Branch>>,
    query: &Query<D>,
    key: Key,
    node: &Node<D>,
) -> Result<(), AllocError>
    requires kept { IsKeptIn query.now kept.old }
    requires aimed { IsAimed query.now }
    requires near { IfSome near.old (KnowsAt query.now key node.now kept.old) }
    ensures explores { OnOk result (ExploresFrom query.now node.now kept.old kept.new branches.old branches.new) }
    ensures leaf { node.now.level ≡ 0 → near.new ≡ None }
    ensures inner { (l : ℕ) → node.now.level ≡ suc l → near.new ≡ near.old }
{
    if node.level() == 0 {
        return see_rows(alloc, kept, near.take(), query, key, node);
    }
    let most = reach(kept, query);
    push_children(branches, query, node, most)
}

/// The rows that the query asks for, in order.
fn browse<const D: usize>(
    alloc: Global,
    tree: &Arena<D>,
    query: &Query<D>,
    mut near: Option<Near<D>>,
) -> Result<Vec<Row<D>>, AllocError>
    requires whole { IsWhole tree.now }
    requires settled { tree.now.pending.items ≡ [] }
    requires few { D ≤ 3 }
    requires aimed { IsAimed query.now }
    requires some { 1 ≤ query.now.k }
    requires near { IfSome near (IsKeptAfter tree.now query.now []) }
    ensures { IfOk result (λ rows. IsAnswer tree.now query.now rows.items) }
{
    let mut kept = Kept::Few(Vec::new(alloc));
    let mut branches = BinaryHeap::new(alloc);
    branches.push(Reverse(Branch {
        distance: 0,
        key: tree.root,
    }))?;
    while let Some(Reverse(first)) = branches.pop() {
        if first.distance > reach(&kept, query) {
            return ordered(alloc, kept);
        }
        explore(
            alloc,
            &mut kept,
            &mut near,
            &mut branches,
            query,
            first.key,
            node_at(&tree.nodes, first.key),
        )?;
    }
    ordered(alloc, kept)
}

/// The rows that the query asks for, in order. A search within a near limit finds them, and sees less of the tree.
pub(crate) fn find<const D: usize>(
    alloc: Global,
    tree: &Arena<D>,
    query: &Query<D>,
) -> Result<Vec<Row<D>>, AllocError>
    requires whole { IsWhole tree.now }
    requires settled { tree.now.pending.items ≡ [] }
    requires few { D ≤ 3 }
    requires aimed { IsAimed query.now }
    ensures { IfOk result (λ rows. IsAnswer tree.now query.now rows.items) }
{
    if query.k == 0 {
        return Ok(Vec::new(alloc));
    }
    let Narrowed {
        query: nearer,
        near,
    } = narrow(alloc, tree, query)?;
    browse(alloc, tree, &nearer, near)
}
