//! The sums of the nodes: how many rows there are below each.

ghost use Rattle.std.specs.Prelude.{◌≡◌, ◌⊎◌, ℕ, ◌+◌, ◌<◌, ◌≤◌, ◌↔◌, [], length, true, false, IsTrue, IfSome, Contains, sum_by, slice_set, unsigned_abs};
ghost use Rattle.slab.specs.Slab.{get};
ghost use Rattle.rt_tree_node.specs.Below.{HangTogether};
ghost use Rattle.rt_tree_node.specs.Sums.{sum_at, total, AddUp, AddUpBelow, Misses, Leaves, Learns, Logs};

use crate::cell::key_of;
use crate::key::Key;
use crate::node::Node;
use slab::Slab;

/// The levels that a tree can have.
const MOST_LEVELS: usize = 256;

/// The sum of a node was changed, and now that of its parent is to follow.
#[derive(Clone, Copy)]
pub(crate) struct Change {
    /// The parent's key.
    key: Key,
    old: usize,
    new: usize,
}

/// What is left to do after a sum was changed.
#[derive(Clone, Copy)]
pub(crate) enum Rise {
    /// The sum is too large.
    Lost,
    Done,
    Up(Change),
}

/// Whether the key is among these.
fn is_among(keys: &[Key], key: Key) -> bool
    ensures { IsTrue result ↔ Contains keys.now key }
{
    keys.iter().any(|k| k.index() == key.index())
}

/// Notes that the node's sum may be wrong.
pub(crate) fn log(stale: &mut Vec<Key>, is_lost: &mut bool, key: Key)
    ensures { Logs stale.old.items stale.new.items is_lost.old is_lost.new key }
{
    if *is_lost || is_among(stale.as_slice(), key) {
        return;
    }
    if stale.len() == stale.capacity() {
        *is_lost = true;
        return;
    }
    stale.push_reserved(key);
}

/// Whether each sum is known to be right.
#[inline]
pub(crate) fn are_right(stale: &[Key], is_lost: bool) -> bool
    ensures known { result ≡ true → is_lost ≡ false }
    ensures none { result ≡ true → length stale.now ≡ 0 }
{
    !is_lost && stale.is_empty()
}

/// The sum of a key: 0 if there is no place for it.
#[inline]
pub(crate) fn sum_of(sums: &[u32], key: Key) -> usize
    ensures { result ≡ sum_at sums.now key }
{
    if key.index() < sums.len() {
        return sums[key.index()] as usize;
    }
    0
}

/// The sum of children, whose keys are these numbers, or `None` if it is too large.
fn sum_of_children(sums: &[u32], numbers: &[i64]) -> Option<usize>
    ensures { IfSome result (λ rows. rows ≡ sum_by (λ n. sum_at sums.now (unsigned_abs n)) numbers.now) }
{
    let mut rows = 0usize;
    for number in numbers {
        rows = rows.checked_add(sum_of(sums, key_of(*number)))?;
    }
    Some(rows)
}

/// How many rows there are below the node, by the sums of its children; `None` if they are too many.
fn total_of<const D: usize>(sums: &[u32], node: &Node<D>) -> Option<usize>
    ensures { IfSome result (λ rows. rows ≡ total sums.now node.now) }
{
    if node.level() == 0 {
        return Some(node.len());
    }
    sum_of_children(sums, node.numbers())
}

/// Writes the sum of a key, and returns whether there was a place for it and 32 bits can hold it.
#[inline]
fn write(sums: &mut Vec<u32>, key: Key, rows: usize) -> bool
    ensures place { result ≡ true → key < length sums.old.items }
    ensures written { result ≡ true → sums.new.items ≡ slice_set sums.old.items key rows }
{
    if key.index() >= sums.len() {
        return false;
    }
    let Ok(sum) = u32::try_from(rows) else {
        return false;
    };
    sums[key.index()] = sum;
    true
}

/// The number that comes to `sum` if a part of it changes.
#[inline]
fn changed(sum: usize, change: Change) -> Option<usize>
    ensures { IfSome result (λ new. new + change.old ≡ sum + change.new) }
{
    sum.checked_add(change.new)?.checked_sub(change.old)
}

/// Carries a change of a child's sum into the sum of its parent.
fn raise<const D: usize>(
    slab: &Slab<Node<D>>,
    sums: &mut Vec<u32>,
    stale: &[Key],
    change: Change,
) -> Rise
    requires joined { HangTogether slab.now }
    requires misses { Misses slab.now sums.old.items stale.now change }
    ensures { Leaves slab.now sums.new.items stale.now result }
{
    let at = change.key;
    if change.old == change.new || is_among(stale, at) {
        return Rise::Done;
    }
    let Some(node) = slab.get(at.index()) else {
        return Rise::Done;
    };
    let old = sum_of(sums.as_slice(), at);
    let Some(new) = changed(old, change) else {
        return Rise::Lost;
    };
    if !write(sums, at, new) {
        return Rise::Lost;
    }
    match node.parent() {
        Some(key) => Rise::Up(Change { key, old, new }),
        None => Rise::Done,
    }
}

/// Carries a change up to the root, and returns whether the sums add up then, except at stale keys.
fn carry<const D: usize>(
    slab: &Slab<Node<D>>,
    sums: &mut Vec<u32>,
    stale: &[Key],
    change: Change,
) -> bool
    requires joined { HangTogether slab.now }
    requires misses { Misses slab.now sums.old.items stale.now change }
    ensures { result ≡ true → AddUp slab.now sums.new.items (Contains stale.now) }
{
    let mut change = change;
    for _ in 0..MOST_LEVELS {
        match raise(slab, sums, stale, change) {
            Rise::Up(next) => change = next,
            Rise::Done => return true,
            Rise::Lost => return false,
        }
    }
    false
}

/// Makes the sum of a key right, and those above it, and returns whether it could.
pub(crate) fn mend<const D: usize>(
    slab: &Slab<Node<D>>,
    sums: &mut Vec<u32>,
    stale: &[Key],
    key: Key,
) -> bool
    requires joined { HangTogether slab.now }
    requires rest { AddUp slab.now sums.old.items (λ k. Contains stale.now k ⊎ (k ≡ key)) }
    ensures { result ≡ true → AddUp slab.now sums.new.items (Contains stale.now) }
{
    let Some(node) = slab.get(key.index()) else {
        return true;
    };
    let Some(new) = total_of(sums.as_slice(), node) else {
        return false;
    };
    let old = sum_of(sums.as_slice(), key);
    carry(slab, sums, stale, Change { key, old, new })
}

/// Makes the sum of a node of a level right, if that of its children are.
fn learn_one<const D: usize>(slab: &Slab<Node<D>>, sums: &mut Vec<u32>, key: Key, level: u8) -> bool
    requires joined { HangTogether slab.now }
    requires lower { AddUpBelow slab.now sums.old.items level }
    ensures { result ≡ true → Learns slab.now sums.old.items sums.new.items level key }
{
    let Some(node) = slab.get(key.index()) else {
        return true;
    };
    if node.level() != level {
        return true;
    }
    let Some(rows) = total_of(sums.as_slice(), node) else {
        return false;
    };
    write(sums, key, rows)
}

/// Makes the sums of a level right, if those of the levels below it are, and returns whether it could.
fn learn_level<const D: usize>(slab: &Slab<Node<D>>, sums: &mut Vec<u32>, level: u8) -> bool
    requires joined { HangTogether slab.now }
    requires lower { AddUpBelow slab.now sums.old.items level }
    ensures { result ≡ true → AddUpBelow slab.now sums.new.items (level + 1) }
{
    for index in 0..slab.capacity() {
        if !learn_one(slab, sums, Key::new(index), level) {
            return false;
        }
    }
    true
}

/// Makes the sums of all levels up to one right, and returns whether it could.
pub(crate) fn learn_levels<const D: usize>(
    slab: &Slab<Node<D>>,
    sums: &mut Vec<u32>,
    top: u8,
) -> bool
    requires { HangTogether slab.now }
    ensures { result ≡ true → AddUpBelow slab.now sums.new.items (top + 1) }
{
    for level in 0..=top {
        if !learn_level(slab, sums, level) {
            return false;
        }
    }
    true
}
