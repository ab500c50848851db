//! What changes a tree of any number of axes.

ghost use Rattle.std.specs.Prelude.{◌≡◌, ◌≤◌};
ghost use Rattle.rt_calls.specs.Trees.{Makes, OfBox, Inserts, Moves, Removes, Clears};

use crate::code::Code;
use crate::keys::Keys;
use crate::numbers::ends;
use rt_box::{Capacity, Rect};
use rt_handle::HeldTree;
use rt_tree::{MOST_ROWS_OF_A_TREE, Tree};
use std::alloc::Global;
use std::hash::RandomState;

/// A tree without rows.
pub fn new_tree<const D: usize>(
    alloc: Global,
    capacity: u32,
    keys: &Keys,
) -> Result<HeldTree<D>, Code>
    requires some { 1 ≤ D }
    requires few { D ≤ 3 }
    ensures { Makes capacity result }
{
    let Ok(greatest) = u8::try_from(capacity) else {
        return Err(Code::BadCapacity);
    };
    let Some(capacity) = Capacity::new(greatest) else {
        return Err(Code::BadCapacity);
    };
    let Ok(keys) = RandomState::new(keys) else {
        return Err(Code::OutOfMemory);
    };
    match Tree::new(alloc, keys, capacity) {
        Ok(tree) => Ok(HeldTree {
            tree,
            keys,
            capacity,
        }),
        Err(_) => Err(Code::OutOfMemory),
    }
}

/// Inserts a row with the box from `min` to `max`.
fn insert_between<const D: usize>(tree: &mut Tree<D>, id: i64, min: [i32; D], max: [i32; D]) -> Code
    requires some { 1 ≤ D }
    requires few { D ≤ 3 }
    ensures { Inserts id min.entry max.entry tree.old tree.new result }
{
    let Some(rect) = Rect::new(min, max) else {
        return Code::BadBox;
    };
    if tree.get(&id).is_some() {
        return Code::IdTaken;
    }
    if tree.len() >= MOST_ROWS_OF_A_TREE {
        return Code::TreeFull;
    }
    if tree.reserve(1).is_err() {
        return Code::OutOfMemory;
    }
    let _ = tree.insert(&id, &rect);
    Code::Done
}

/// Inserts a row with the box of these numbers.
pub fn insert<const D: usize>(tree: &mut Tree<D>, id: i64, numbers: &[i32]) -> Code
    requires some { 1 ≤ D }
    requires few { D ≤ 3 }
    ensures { OfBox numbers.now (Inserts id) tree.old tree.new result }
{
    match ends(numbers) {
        Some((min, max)) => insert_between(tree, id, *min, *max),
        None => Code::BadLength,
    }
}

/// Gives the row with that id the box from `min` to `max`.
fn replace_between<const D: usize>(
    tree: &mut Tree<D>,
    id: i64,
    min: [i32; D],
    max: [i32; D],
) -> Code
    requires some { 1 ≤ D }
    requires few { D ≤ 3 }
    ensures { Moves id min.entry max.entry tree.old tree.new result }
{
    let Some(rect) = Rect::new(min, max) else {
        return Code::BadBox;
    };
    if !tree.contains(&id) {
        return Code::IdMissing;
    }
    if tree.reserve(1).is_err() {
        return Code::OutOfMemory;
    }
    tree.replace(&id, &rect);
    Code::Done
}

/// Gives the row with that id the box of these numbers.
pub fn replace<const D: usize>(tree: &mut Tree<D>, id: i64, numbers: &[i32]) -> Code
    requires some { 1 ≤ D }
    requires few { D ≤ 3 }
    ensures { OfBox numbers.now (Moves id) tree.old tree.new result }
{
    match ends(numbers) {
        Some((min, max)) => replace_between(tree, id, *min, *max),
        None => Code::BadLength,
    }
}

/// Removes a row.
pub fn remove<const D: usize>(tree: &mut Tree<D>, id: i64) -> Code
    requires some { 1 ≤ D }
    requires few { D ≤ 3 }
    ensures { Removes id tree.old tree.new result }
{
    if tree.get(&id).is_none() {
        return Code::IdMissing;
    }
    let _ = tree.remove(&id);
    Code::Done
}

/// Removes all rows. The tree's memory is freed, and a new tree takes its place.
pub fn clear<const D: usize>(alloc: Global, kept: &mut HeldTree<D>) -> Code
    requires some { 1 ≤ D }
    requires few { D ≤ 3 }
    ensures tree { Clears kept.new.capacity kept.old.tree kept.new.tree result }
    ensures keys { kept.new.keys ≡ kept.old.keys }
    ensures capacity { kept.new.capacity ≡ kept.old.capacity }
{
    match Tree::new(alloc, kept.keys, kept.capacity) {
        Ok(tree) => {
            kept.tree = tree;
            Code::Done
        }
        Err(_) => Code::OutOfMemory,
    }
}
