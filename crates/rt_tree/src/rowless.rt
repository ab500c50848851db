//! The nodes of a tree without rows.

ghost use Rattle.std.specs.Prelude.{◌≡◌, ◌≤◌, ◌^◌, [], vec_capacity, IfOk};
ghost use Rattle.rt_tree.specs.Bare.{IsBare};
ghost use Rattle.rt_tree_outside.specs.Outside.{outside};
ghost use Rattle.rt_tree.specs.Lists.{empty_lists};

use crate::tree::{MOST_NODES, PENDING_ROOM, point};
use indexmap::IndexMap;
use rt_box::Capacity;
use rt_tree_node::{Arena, Node, Nodes, add_node};
use std::alloc::{AllocError, Global};
use std::hash::RandomState;

/// The nodes of a tree without rows, with room for `nodes` of them, for the crates that fill them.
///
/// # Errors
///
/// `AllocError` if no memory is left.
pub fn bare_arena<const D: usize>(
    alloc: Global,
    keys: RandomState,
    capacity: Capacity,
    nodes: usize,
) -> Result<Arena<D>, AllocError>
    requires some { 1 ≤ D }
    requires few { D ≤ 3 }
    requires root { 1 ≤ nodes }
    ensures bare { IfOk result (λ arena. IsBare arena) }
    ensures ids { IfOk result (λ arena. arena.leaves.entries ≡ []) }
    ensures capacity { IfOk result (λ arena. arena.capacity ≡ capacity) }
    ensures room { IfOk result (λ arena. nodes ≤ arena.nodes.capacity) }
    ensures keys { IfOk result (λ arena. arena.nodes.capacity ≤ 2 ^ 62) }
    ensures pending_room { IfOk result (λ arena. 1152 ≤ vec_capacity arena.pending) }
    ensures shown { IfOk result (λ arena. outside arena ≡ empty_lists capacity) }
{
    capacity.facts();
    let mut nodes = Nodes::with_capacity(alloc, nodes)?;
    if nodes.capacity() > MOST_NODES {
        return Err(AllocError);
    }
    let pending = Vec::with_capacity(alloc, PENDING_ROOM)?;
    let root = add_node(&mut nodes, Node::new(0, None, &point()));
    Ok(Arena {
        nodes,
        leaves: IndexMap::with_hasher(alloc, keys),
        pending,
        root,
        level: 0,
        capacity,
    })
}
