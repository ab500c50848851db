//! A tree as bytes, and the tree whose bytes these are.
//!
//! What the bytes say of nodes is taken as their shapes, and the rows are packed into nodes of these. The tree's own bytes are
//! then compared with the given ones. If these are the bytes of a tree, its nodes have these shapes, so that tree comes again.

ghost use Rattle.std.specs.Prelude.{◌≡◌, ◌<◌, ◌≤◌, true, length, Err, IfOk, IfErr, MatchResult};
ghost use Rattle.rt_tree_node.specs.Whole.{most_rows_of_a_tree};
ghost use Rattle.rt_tree_rules.specs.Nested.{Tree as NestedTree};
ghost use Rattle.rt_tree.specs.Kept.{IsKeptWith};
ghost use Rattle.rt_map.specs.TreeBytes.{tree_bytes};
ghost use Rattle.rt_map.specs.Written.{IsTreeBytes};
ghost use Rattle.rt_map.specs.BytesFaults.{BeginAsTree, IsBytesFaultOf};
ghost use Rattle.rt_map.specs.RestoringInside.{IsArenaOfBytes};
ghost use Rattle.rt_map.specs.ReadingInside.{fault_of_rows};
ghost use Rattle.rt_map.specs.Meant.{IsListed, IsMade};
ghost use Rattle.rt_map.specs.declared.bytes_fault.BytesFault.TheVariants.{Bad, TooMany, Memory};

use crate::bytes_fault::BytesFault;
use crate::reading::{Parts, read};
use crate::restore::shaped_arena;
use crate::writing::bytes_of;
use rt_tree::Tree;
use rt_tree_node::Arena;
use rt_tree_pack::PackFault;
use std::alloc::{AllocError, Global};
use std::hash::RandomState;

/// The fault of bytes whose rows make no tree.
fn fault_of(fault: PackFault) -> BytesFault
    ensures { result ≡ fault_of_rows fault }
{
    match fault {
        PackFault::TooMany => BytesFault::TooMany,
        PackFault::Repeated { .. } => BytesFault::Bad,
        PackFault::Memory => BytesFault::Memory,
    }
}

/// Whether the bytes are equal.
fn are_same(bytes: &[u8], others: &[u8]) -> bool
    ensures same { result ≡ true → bytes.now ≡ others.now }
    ensures all { bytes.now ≡ others.now → result ≡ true }
{
    bytes == others
}

/// The nodes of a tree of these parts.
fn arena_of<const D: usize>(
    alloc: Global,
    keys: RandomState,
    parts: &Parts<D>,
) -> Result<Arena<D>, BytesFault>
    requires some { 1 ≤ D }
    requires few { D ≤ 3 }
    ensures kept { IfOk result (λ arena. IsKeptWith arena 0) }
    ensures meant { (meant : NestedTree) →
        IsListed parts.now.capacity parts.now.shapes.items parts.now.rows.items meant →
        MatchResult result (λ arena. IsMade arena parts.now.capacity meant) (λ fault. fault ≡ Memory) }
    ensures many { IfErr result (λ fault. fault ≡ TooMany → most_rows_of_a_tree < length parts.now.rows.items) }
{
    match shaped_arena(alloc, keys, parts.capacity, &parts.shapes, &parts.rows) {
        Ok(Some(arena)) => Ok(arena),
        Ok(None) => Err(BytesFault::Bad),
        Err(fault) => Err(fault_of(fault)),
    }
}

/// The nodes of the tree whose bytes these are.
pub(crate) fn bytes_arena<const D: usize>(
    alloc: Global,
    keys: RandomState,
    bytes: &[u8],
) -> Result<Arena<D>, BytesFault>
    requires some { 1 ≤ D }
    requires few { D ≤ 3 }
    ensures arena { IfOk result (λ arena. IsArenaOfBytes arena bytes.now) }
    ensures fault { IfErr result (λ fault. IsBytesFaultOf D bytes.now fault) }
    ensures head { ¬ BeginAsTree D bytes.now → result ≡ Err Bad }
{
    let parts = read::<D>(alloc, bytes)?;
    let arena = arena_of(alloc, keys, &parts)?;
    let again = bytes_of(alloc, &arena)?;
    let same = are_same(again.as_slice(), bytes);
    if !same {
        return Err(BytesFault::Bad);
    }
    Ok(arena)
}

/// The tree that has these bytes, which `to_bytes` has written. Look-ups by id hash by `keys`, which are to be random if
/// others choose the ids.
///
/// # Errors
///
/// `Bad` if no tree of `D` axes has these bytes, and always if they don't begin as those of one do; `TooMany` if they have more
/// rows than `MOST_ROWS_OF_A_TREE`; and `Memory` if no memory is left. So bytes that `to_bytes` wrote are refused only for want
/// of memory. What is taken is no more than a few times what the bytes take.
pub fn from_bytes<const D: usize>(
    alloc: Global,
    keys: RandomState,
    bytes: &[u8],
) -> Result<Tree<D>, BytesFault>
    requires some { 1 ≤ D }
    requires few { D ≤ 3 }
    ensures tree { IfOk result (λ tree. tree_bytes tree.lists ≡ bytes.now) }
    ensures spare { IfOk result (λ tree. tree.spare ≡ 0) }
    ensures fault { IfErr result (λ fault. IsBytesFaultOf D bytes.now fault) }
    ensures head { ¬ BeginAsTree D bytes.now → result ≡ Err Bad }
{
    let arena = bytes_arena(alloc, keys, bytes)?;
    Ok(Tree::from_arena(arena))
}

/// The tree in a compact form, which `from_bytes` takes again: with two axes 24 bytes a row, and little more for the nodes.
///
/// # Errors
///
/// `AllocError` if no memory is left.
pub fn to_bytes<const D: usize>(alloc: Global, tree: &Tree<D>) -> Result<Vec<u8>, AllocError>
    ensures bytes { IfOk result (λ bytes. bytes.items ≡ tree_bytes tree.now.lists) }
    ensures again { IfOk result (λ bytes. IsTreeBytes D bytes.items) }
{
    tree.is_in_shape();
    tree.is_small();
    bytes_of(alloc, tree.arena())
}
