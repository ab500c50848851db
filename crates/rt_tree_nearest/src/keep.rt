//! The rows kept: the best of those seen so far, at most `k` of them.

ghost use Rattle.std.specs.Prelude.{◌≡◌, ◌<◌, ◌≤◌, [], ◌∷◌, map, length, IfOk, OnOk};
ghost use Rattle.std.specs.BinaryHeap.{IsHeap, heap_items};
ghost use Rattle.rt_tree_nearest.specs.Candidates.{candidate_of, compare, items_in, IsAimed, IsKept, IsKeptIn, IsReach, KeepsFrom, ReplacesFrom, IsOrdered};

use crate::candidate::Candidate;
use crate::query::Query;
use rt_tree_node::Node;
use rt_tree_walk::Row;
use std::alloc::{AllocError, Global};
use std::collections::BinaryHeap;
use std::mem;

/// The rows kept: a list while they are fewer than are asked for, and then a heap whose first is the one to give way. While
/// none gives way, a list takes fewer steps.
#[derive(Drop)]
pub(crate) enum Kept<const D: usize> {
    Few(Vec<Candidate<D>>),
    Full(BinaryHeap<Candidate<D>>),
}

/// The greatest distance at which a further row may be in the answer.
#[inline]
pub(crate) fn reach<const D: usize>(kept: &Kept<D>, query: &Query<D>) -> u128
    requires { IsKeptIn query.now kept.now }
    ensures { IsReach query.now (items_in kept.now) result }
{
    let Kept::Full(heap) = kept else {
        return query.limit;
    };
    match heap.peek() {
        Some(last) => last.distance,
        None => query.limit,
    }
}

/// Puts the row in the place of the last one kept, if it comes before that.
fn replace<const D: usize>(
    heap: &mut BinaryHeap<Candidate<D>>,
    query: &Query<D>,
    candidate: Candidate<D>,
)
    requires kept { IsKept query.now (heap_items heap.old) }
    requires full { length (heap_items heap.old) ≡ query.now.k }
    requires ordered { IsHeap compare (heap_items heap.old) }
    requires within { candidate.distance ≤ query.now.limit }
    ensures { ReplacesFrom query.now candidate.entry heap.old heap.new }
{
    let Some(mut last) = heap.peek_mut() else {
        return;
    };
    if candidate < *last {
        *last = candidate;
    }
}

/// Keeps the row, unless as many others come before it as are asked for.
fn keep<const D: usize>(
    alloc: Global,
    kept: &mut Kept<D>,
    query: &Query<D>,
    candidate: Candidate<D>,
) -> Result<(), AllocError>
    requires { IsKeptIn query.now kept.old }
    ensures { OnOk result (KeepsFrom query.now (candidate.entry ∷ []) kept.old kept.new) }
{
    if candidate.distance > reach(kept, query) {
        return Ok(());
    }
    match kept {
        Kept::Full(heap) => {
            replace(heap, query, candidate);
            Ok(())
        }
        Kept::Few(rows) => {
            rows.push(candidate)?;
            if rows.len() == query.k {
                let full = mem::replace(rows, Vec::new(alloc));
                *kept = Kept::Full(BinaryHeap::from(full));
            }
            Ok(())
        }
    }
}

/// Keeps what is to be kept of the rows of a leaf.
pub(crate) fn keep_rows<const D: usize>(
    alloc: Global,
    kept: &mut Kept<D>,
    query: &Query<D>,
    leaf: &Node<D>,
) -> Result<(), AllocError>
    requires kept { IsKeptIn query.now kept.old }
    requires aimed { IsAimed query.now }
    ensures { OnOk result (KeepsFrom query.now (map (candidate_of query.now.target) leaf.now.cells) kept.old kept.new) }
{
    let mut rest = query.near_cells(leaf);
    while rest != 0 {
        let cell = leaf.cell(rest.trailing_zeros() as usize);
        keep(alloc, kept, query, Candidate::new(&cell, &query.target))?;
        rest &= rest - 1;
    }
    Ok(())
}

/// The rows kept, in order.
pub(crate) fn ordered<const D: usize>(
    alloc: Global,
    kept: Kept<D>,
) -> Result<Vec<Row<D>>, AllocError>
    requires { D ≤ 3 }
    ensures { IfOk result (λ rows. IsOrdered (items_in kept.entry) rows.items) }
{
    let mut candidates = match kept {
        Kept::Few(rows) => rows,
        Kept::Full(heap) => heap.into_vec(),
    };
    candidates.sort_unstable();
    let mut rows = Vec::with_capacity(alloc, candidates.len())?;
    for at in 0..candidates.len() {
        rows.push(candidates[at].row())?;
    }
    Ok(rows)
}
