//! The map of leaves: from a row's id to the key of the leaf that the row lies in.
//!
//! Ids mostly count up from 0 or 1, as those of an INSERT without an id do. So a look-up first tries the places in which such
//! an id stands, and hashes an id only if it isn't there.

ghost use Rattle.std.specs.Prelude.{◌≡◌, ◌≢◌, ℕ, Some, IsSome, IfSome, IfNone, slice_get};
ghost use Rattle.std.specs.Option.{option_map};
ghost use Rattle.std.specs.Ordering.{int_eq};
ghost use Rattle.indexmap.specs.IndexMap.{IsUnique, get as leaf_of};
ghost use Rattle.rt_tree_node.specs.Homes.{Moves};

use crate::key::Key;
use indexmap::IndexMap;
use std::hash::RandomState;

/// A law: no id stands twice in the map of leaves. The call does nothing.
#[inline]
pub fn leaves_facts(leaves: &IndexMap<i64, Key, RandomState>)
    ensures { IsUnique int_eq leaves.now }
{
    let _ = leaves.len();
}

fn is_same_id(own: &i64, other: &i64) -> bool
    ensures { result ≡ int_eq own.now other.now }
{
    own == other
}

/// The leaf of the id, if it stands at this index of the map.
#[inline]
fn leaf_at(leaves: &IndexMap<i64, Key, RandomState>, index: usize, id: &i64) -> Option<Key>
    ensures entry { IfSome result (λ leaf. slice_get leaves.now.entries index ≡ Some (id.now, leaf)) }
    ensures leaf { IfSome result (λ leaf. leaf_of int_eq leaves.now id.now ≡ Some leaf) }
    ensures none { IfNone result ((leaf : ℕ) → slice_get leaves.now.entries index ≢ Some (id.now, leaf)) }
{
    let (own, leaf) = leaves.get_index(index)?;
    if is_same_id(own, id) {
        return Some(*leaf);
    }
    None
}

/// Finds the id by its hash: its index in the map, and its leaf.
#[inline]
fn find_by_hash(leaves: &IndexMap<i64, Key, RandomState>, id: &i64) -> Option<(usize, Key)>
    ensures entry { IfSome result (λ found. slice_get leaves.now.entries found.0 ≡ Some (id.now, found.1)) }
    ensures leaf { option_map (λ found. found.1) result ≡ leaf_of int_eq leaves.now id.now }
{
    let (index, _, leaf) = leaves.get_full(id)?;
    Some((index, *leaf))
}

/// Finds the id: its index in the map, and its leaf. A row that has just come stands last. If ids count up from 0, each
/// stands at its own number, and if they do so from 1, one place before.
#[inline]
pub fn find_leaf(leaves: &IndexMap<i64, Key, RandomState>, id: &i64) -> Option<(usize, Key)>
    ensures entry { IfSome result (λ found. slice_get leaves.now.entries found.0 ≡ Some (id.now, found.1)) }
    ensures leaf { option_map (λ found. found.1) result ≡ leaf_of int_eq leaves.now id.now }
{
    let number = id.unsigned_abs() as usize;
    for index in [leaves.len().wrapping_sub(1), number.wrapping_sub(1), number] {
        if let Some(leaf) = leaf_at(leaves, index, id) {
            return Some((index, leaf));
        }
    }
    find_by_hash(leaves, id)
}

/// Notes the leaf that a row lies in now.
pub fn set_leaf(leaves: &mut IndexMap<i64, Key, RandomState>, id: &i64, leaf: Key)
    requires { IsSome (leaf_of int_eq leaves.old id.now) }
    ensures { Moves leaves.old leaves.new id.now leaf }
{
    if let Some((index, _)) = find_leaf(leaves, id) {
        if let Some(place) = leaves.get_index_mut(index) {
            *place = leaf;
        }
    }
}
