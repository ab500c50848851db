//! The largest id.
//!
//! The greatest ids stand in a list, the largest last; it has room for `MOST_IDS`, and all others are in the tree alone.
//! An id whose row has left stays in the list until it comes to its end (`specs/GreatestIds.antt`).
//!
//! Only `new` takes memory. The list is filled anew, from all ids of the tree, only if the rows of all listed ids have
//! left. Between two such fillings at least half of `MOST_IDS` rows leave, or as many rows come as there are then. So a
//! row that leaves pays for at most a thousand ids, as if a script deletes a million rows from the top down; one that
//! comes pays for one.

ghost use Rattle.std.specs.Prelude.{◌≡◌, ◌≤◌, ◌<◌, ◌<ℤ◌, ◌+◌, ℤ, Bool, [], true, false, length, vec_len, vec_capacity, insert, drop, IfOk};
ghost use Rattle.std.specs.List.{list_any};
ghost use Rattle.std.specs.List.Sorted.{IsSorted};
ghost use Rattle.std.specs.Ordering.{int_cmp, int_eq};
ghost use Rattle.rt_table_store.specs.GreatestIds.{IsTop, IsUpward, Ranks, HasUpTo, AddsId, RanksAfterId, RanksAfterIds, is_in, RanksAfterLeaving, RanksAfterLeft};

use rt_tree::Tree;
use std::alloc::{AllocError, Global};
use std::marker::Model;

/// The most ids that are listed.
const MOST_IDS: usize = 2048;

/// Takes ids from the end whose rows are gone.
fn drop_gone<const D: usize>(ids: &mut Vec<i64>, tree: &Tree<D>)
    requires few { D ≤ 3 }
    requires order { IsSorted int_cmp ids.old.items }
    ensures upward { IsUpward (is_in tree.now.lists) ids.old.items → IsUpward (is_in tree.now.lists) ids.new.items }
    ensures top { (id : ℤ) → IsTop ids.new.items (Some id) → is_in tree.now.lists id ≡ true }
    ensures order { IsSorted int_cmp ids.new.items }
    ensures capacity { vec_capacity ids.new ≡ vec_capacity ids.old }
{
    while let Some(id) = ids.last() {
        if tree.contains(id) {
            return;
        }
        let _ = ids.pop();
    }
}

/// The place of an id among ids that rise.
fn place_of(ids: &[i64], id: &i64) -> usize
    requires { IsSorted int_cmp ids.now }
    ensures within { result ≤ length ids.now }
    ensures order { IsSorted int_cmp (insert ids.now result id.now) }
{
    match ids.binary_search(id) {
        Ok(place) => place,
        Err(place) => place,
    }
}

/// Whether an id is below all of those that rise.
fn is_below(ids: &[i64], id: &i64) -> bool
    requires { IsSorted int_cmp ids.now }
    ensures some { result ≡ true → 0 < length ids.now }
    ensures below { result ≡ true → (other : ℤ) → list_any (int_eq other) ids.now ≡ true → id.now <ℤ other }
    ensures not { result ≡ false → 0 < length ids.now → HasUpTo ids.now id.now }
{
    match ids.first() {
        Some(first) => *id < *first,
        None => false,
    }
}

/// Puts an id in its place among ids that rise. It takes no memory.
fn put(ids: &mut Vec<i64>, id: &i64)
    requires order { IsSorted int_cmp ids.old.items }
    requires room { vec_len ids.old < vec_capacity ids.old }
    ensures ids { AddsId id.now ids.old.items ids.new.items }
    ensures order { IsSorted int_cmp ids.new.items }
    ensures capacity { vec_capacity ids.old ≤ vec_capacity ids.new }
{
    let place = place_of(ids.as_slice(), id);
    let _ = ids.insert(place, *id);
}

/// Drops the first `count` ids.
fn drop_first(ids: &mut Vec<i64>, count: usize)
    requires { count ≤ vec_len ids.old }
    ensures items { ids.new.items ≡ drop count ids.old.items }
    ensures capacity { vec_capacity ids.new ≡ vec_capacity ids.old }
{
    drop(ids.drain(..count));
}

/// Makes room for an id: the lower half of a full list is dropped.
fn make_room(ids: &mut Vec<i64>)
    requires order { IsSorted int_cmp ids.old.items }
    requires two { 2 ≤ vec_capacity ids.old }
    ensures ranks { (there : ℤ → Bool) → Ranks there ids.old.items → Ranks there ids.new.items }
    ensures order { IsSorted int_cmp ids.new.items }
    ensures room { vec_len ids.new < vec_capacity ids.new }
    ensures capacity { vec_capacity ids.new ≡ vec_capacity ids.old }
{
    if ids.len() < ids.capacity() {
        return;
    }
    drop_first(ids, ids.len() / 2);
}

/// Adds an id that came to the greatest ones. One below them all stays out. It takes no memory.
fn add(ids: &mut Vec<i64>, id: &i64)
    requires order { IsSorted int_cmp ids.old.items }
    requires two { 2 ≤ vec_capacity ids.old }
    ensures ranks { RanksAfterId id.now ids.old.items ids.new.items }
    ensures order { IsSorted int_cmp ids.new.items }
    ensures capacity { vec_capacity ids.old ≤ vec_capacity ids.new }
{
    make_room(ids);
    if is_below(ids.as_slice(), id) {
        return;
    }
    put(ids, id);
}

/// Adds each of the ids.
fn add_all(ids: &mut Vec<i64>, more: &[i64])
    requires order { IsSorted int_cmp ids.old.items }
    requires two { 2 ≤ vec_capacity ids.old }
    ensures ranks { RanksAfterIds more.now ids.old.items ids.new.items }
    ensures order { IsSorted int_cmp ids.new.items }
    ensures capacity { vec_capacity ids.old ≤ vec_capacity ids.new }
{
    for id in more {
        add(ids, id);
    }
}

/// Fills an empty list with ids, in order. It takes no memory.
fn fill(ids: &mut Vec<i64>, more: &[i64])
    requires empty { ids.old.items ≡ [] }
    requires room { vec_len ids.old + length more.now ≤ vec_capacity ids.old }
    ensures ranks { Ranks (λ id. list_any (int_eq id) more.now) ids.new.items }
    ensures order { IsSorted int_cmp ids.new.items }
    ensures capacity { vec_capacity ids.old ≤ vec_capacity ids.new }
{
    let _ = ids.extend_from_slice(more);
    ids.sort_unstable();
}

/// Fills an empty list with the greatest ones of all ids. The last ones go first: if ids rise as they came, all others
/// are below them.
fn refill(ids: &mut Vec<i64>, all: &[i64])
    requires empty { ids.old.items ≡ [] }
    requires two { 2 ≤ vec_capacity ids.old }
    ensures ranks { Ranks (λ id. list_any (int_eq id) all.now) ids.new.items }
    ensures order { IsSorted int_cmp ids.new.items }
    ensures capacity { vec_capacity ids.old ≤ vec_capacity ids.new }
{
    let rest = all.len().saturating_sub(ids.capacity());
    fill(ids, &all[rest..]);
    add_all(ids, &all[..rest]);
}

/// The greatest ids of a table's rows, of which the largest is known.
#[derive(Drop)]
pub(crate) struct Largest {
    ids: Vec<i64>,
}

impl Model for Largest {
    ghost use Rattle.std.specs.Prelude.{List, ℤ, ◌≤◌, vec_capacity};
    ghost use Rattle.std.specs.List.Sorted.{IsSorted};
    ghost use Rattle.std.specs.Ordering.{int_cmp};

    ghost Value = { List ℤ };

    ghost view = { λ l. l.ids.items };

    ghost invariant = { λ l. IsSorted int_cmp l.ids.items × (2 ≤ vec_capacity l.ids) };
}

impl Largest {
    /// No ids.
    pub(crate) fn new(alloc: Global) -> Result<Largest, AllocError>
        ensures { IfOk result (λ largest. largest ≡ []) }
    {
        Ok(Largest {
            ids: Vec::with_capacity(alloc, MOST_IDS)?,
        })
    }

    /// The largest id.
    pub(crate) fn get(&self) -> Option<i64>
        ensures { IsTop self.now result }
    {
        self.ids.last().copied()
    }

    /// A row of that id came. It takes no memory.
    pub(crate) fn push(&mut self, id: &i64)
        ensures { RanksAfterId id.now self.old self.new }
    {
        add(&mut self.ids, id);
    }

    /// Rows left, and these are in the tree. It takes no memory.
    fn settle<const D: usize>(&mut self, tree: &Tree<D>)
        requires { D ≤ 3 }
        ensures { RanksAfterLeaving tree.now.lists self.old self.new }
    {
        drop_gone(&mut self.ids, tree);
        if self.ids.is_empty() {
            refill(&mut self.ids, tree.ids());
        }
    }

    /// The row of that id left, and the others are in the tree. It takes no memory.
    pub(crate) fn remove<const D: usize>(&mut self, id: &i64, tree: &Tree<D>)
        requires { D ≤ 3 }
        ensures { RanksAfterLeft tree.now.lists id.now self.old self.new }
    {
        // Most rows aren't the one of the largest id, which stays then.
        if self.get() == Some(*id) {
            self.settle(tree);
        }
    }
}
