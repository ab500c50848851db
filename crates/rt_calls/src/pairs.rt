//! The pairs of rows whose boxes touch.

ghost use Rattle.std.specs.Prelude.{◌≡◌, ◌≢◌, ◌≤◌, length, option_map};
ghost use Rattle.rt_calls.specs.Buffers.{Copies};
ghost use Rattle.rt_calls.specs.Calls.{OfTree};
ghost use Rattle.rt_calls.specs.Codes.{number_of};
ghost use Rattle.rt_calls.specs.Pairs.{left_ids, right_ids, GivesPairs, OfObjects, OfTrees, Joins, JoinsItself};
ghost use Rattle.rt_calls.specs.declared.code.Code.TheVariants.{Done, BufferTooSmall};

use crate::code::Code;
use crate::lending::{AnyTree, tree_in};
use rt_handle::Object;
use rt_map::Pair;
use rt_tree::Tree;
use std::alloc::Global;

/// Writes the ids of the pairs to the start of two buffers.
fn write_pairs(pairs: &[Pair], left: &mut [i64], right: &mut [i64])
    requires left { length pairs.now ≤ length left.old }
    requires right { length pairs.now ≤ length right.old }
    ensures left { Copies (left_ids pairs.now) left.old left.new Done }
    ensures right { Copies (right_ids pairs.now) right.old right.new Done }
{
    for at in 0..pairs.len() {
        left[at] = pairs[at].left;
        right[at] = pairs[at].right;
    }
}

/// Writes the ids of the pairs to the start of two buffers of one length, and the number of pairs to `total`.
fn give_pairs(pairs: &[Pair], left: &mut [i64], right: &mut [i64], total: &mut u64) -> Code
    requires { length right.old ≡ length left.old }
    ensures given { GivesPairs pairs.now left.old left.new right.old right.new total.new result }
    ensures kept { result ≢ Done → result ≢ BufferTooSmall →
        (left.new ≡ left.old) × (right.new ≡ right.old) × (total.new ≡ total.old) }
{
    *total = pairs.len() as u64;
    if pairs.len() > left.len() {
        return Code::BufferTooSmall;
    }
    write_pairs(pairs, left, right);
    Code::Done
}

/// Writes the pairs of rows of two trees whose boxes touch.
fn join<const D: usize>(
    alloc: Global,
    one: &Tree<D>,
    other: &Tree<D>,
    left: &mut [i64],
    right: &mut [i64],
    total: &mut u64,
) -> Code
    ensures joined { Joins left.old left.new right.old right.new total.old total.new one.now other.now result }
    ensures kept { result ≢ Done → result ≢ BufferTooSmall →
        (left.new ≡ left.old) × (right.new ≡ right.old) × (total.new ≡ total.old) }
{
    if right.len() != left.len() {
        return Code::BadLength;
    }
    match rt_map::join(alloc, one, other) {
        Ok(pairs) => give_pairs(&pairs, left, right, total),
        Err(_) => Code::OutOfMemory,
    }
}

/// Writes the pairs of different rows of a tree whose boxes touch.
fn join_self<const D: usize>(
    alloc: Global,
    tree: &Tree<D>,
    left: &mut [i64],
    right: &mut [i64],
    total: &mut u64,
) -> Code
    ensures joined { JoinsItself left.old left.new right.old right.new total.old total.new tree.now result }
    ensures kept { result ≢ Done → result ≢ BufferTooSmall →
        (left.new ≡ left.old) × (right.new ≡ right.old) × (total.new ≡ total.old) }
{
    if right.len() != left.len() {
        return Code::BadLength;
    }
    match rt_map::join_self(alloc, tree) {
        Ok(pairs) => give_pairs(&pairs, left, right, total),
        Err(_) => Code::OutOfMemory,
    }
}

/// The same of the trees that two objects are.
fn join_objects(
    alloc: Global,
    one: &Object,
    other: &Object,
    left: &mut [i64],
    right: &mut [i64],
    total: &mut u64,
) -> Code
    ensures joined { OfObjects one.now other.now
        (λ D. Joins left.old left.new right.old right.new total.old total.new) (number_of result) }
    ensures kept { result ≢ Done → result ≢ BufferTooSmall →
        (left.new ≡ left.old) × (right.new ≡ right.old) × (total.new ≡ total.old) }
{
    match (tree_in(Some(one)), tree_in(Some(other))) {
        (Err(code), _) => code,
        (_, Err(code)) => code,
        (Ok(AnyTree::Line(one)), Ok(AnyTree::Line(other))) => {
            join(alloc, one.tree, other.tree, left, right, total)
        }
        (Ok(AnyTree::Plane(one)), Ok(AnyTree::Plane(other))) => {
            join(alloc, one.tree, other.tree, left, right, total)
        }
        (Ok(AnyTree::Space(one)), Ok(AnyTree::Space(other))) => {
            join(alloc, one.tree, other.tree, left, right, total)
        }
        _ => Code::BadAxes,
    }
}

/// The same of what two handles hold.
pub fn join_held(
    alloc: Global,
    one: Option<&Object>,
    other: Option<&Object>,
    left: &mut [i64],
    right: &mut [i64],
    total: &mut u64,
) -> Code
    ensures joined { OfTrees (option_map (λ object. object.now) one.entry)
        (option_map (λ object. object.now) other.entry)
        (λ D. Joins left.old left.new right.old right.new total.old total.new) (number_of result) }
    ensures kept { result ≢ Done → result ≢ BufferTooSmall →
        (left.new ≡ left.old) × (right.new ≡ right.old) × (total.new ≡ total.old) }
{
    match one {
        None => Code::Closed,
        Some(one) => match other {
            None => Code::Closed,
            Some(other) => join_objects(alloc, one, other, left, right, total),
        },
    }
}

/// The same of the tree that a handle lends.
pub fn join_self_in(
    alloc: Global,
    held: Option<&Object>,
    left: &mut [i64],
    right: &mut [i64],
    total: &mut u64,
) -> Code
    ensures told { OfTree (option_map (λ object. object.now) held.entry)
        (λ D. JoinsItself left.old left.new right.old right.new total.old total.new) (number_of result) }
    ensures kept { result ≢ Done → result ≢ BufferTooSmall →
        (left.new ≡ left.old) × (right.new ≡ right.old) × (total.new ≡ total.old) }
{
    match tree_in(held) {
        Ok(AnyTree::Line(lent)) => join_self(alloc, lent.tree, left, right, total),
        Ok(AnyTree::Plane(lent)) => join_self(alloc, lent.tree, left, right, total),
        Ok(AnyTree::Space(lent)) => join_self(alloc, lent.tree, left, right, total),
        Err(code) => code,
    }
}
