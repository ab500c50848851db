//! A list of rows inserted: all of them, or none.
//!
//! Their ids are looked up first, then room is made for all. What follows can't fail.

ghost use Rattle.std.specs.Prelude.{◌≡◌, ◌+◌, ◌≤◌, length, IfOk, IfErr, OnOk, OnErr};
ghost use Rattle.rt_tree.specs.Lists.{rows_of};
ghost use Rattle.rt_tree_node.specs.Whole.{most_rows_of_a_tree};
ghost use Rattle.rt_tree_many.specs.Insertion.{TellsTaken, AreNew, Claims, GainsRows, InsertsInTurn, IsFaultOf};

use crate::fault::RowsFault;
use indexmap::IndexSet;
use rt_tree::{MOST_ROWS_OF_A_TREE, Row, Tree};
use std::alloc::{AllocError, Global};
use std::hash::RandomState;

/// Adds the id to the ids so far, unless the tree or one of them has it; returns whether it was added.
fn claim<const D: usize>(
    tree: &Tree<D>,
    claimed: &mut IndexSet<i64, RandomState>,
    id: &i64,
) -> Result<bool, AllocError>
    ensures { IfOk result (λ is_new. Claims tree.now.lists claimed.old.keys claimed.new.keys id.now is_new) }
{
    if tree.contains(id) {
        return Ok(false);
    }
    match claimed.insert(*id) {
        Ok(is_new) => Ok(is_new),
        Err(_) => Err(AllocError),
    }
}

/// The place of the first row whose id the tree or an earlier row has.
fn first_taken<const D: usize>(
    tree: &Tree<D>,
    alloc: Global,
    keys: RandomState,
    rows: &[Row<D>],
) -> Result<Option<usize>, AllocError>
    ensures { IfOk result (TellsTaken tree.now.lists rows.now) }
{
    let mut claimed = IndexSet::with_hasher(alloc, keys);
    claimed.reserve(rows.len())?;
    for (at, row) in rows.iter().enumerate() {
        let is_new = claim(tree, &mut claimed, &row.id)?;
        if !is_new {
            return Ok(Some(at));
        }
    }
    Ok(None)
}

/// Inserts rows for which there is room.
fn insert_all<const D: usize>(tree: &mut Tree<D>, rows: &[Row<D>])
    requires new { AreNew tree.old.lists rows.now }
    requires few { length (rows_of tree.old.lists) + length rows.now ≤ most_rows_of_a_tree }
    requires spare { length rows.now ≤ tree.old.spare }
    ensures rows { GainsRows tree.old.lists tree.new.lists rows.now }
    ensures turns { InsertsInTurn tree.old.lists rows.now tree.new.lists }
    ensures capacity { tree.new.lists.capacity ≡ tree.old.lists.capacity }
{
    for row in rows {
        // What is known of the tree's shape tells how many entries it has.
        tree.is_small();
        let _ = tree.insert(&row.id, &row.rect);
    }
}

/// Inserts rows whose ids are new, if there is room for them or memory for more.
fn insert_new<const D: usize>(tree: &mut Tree<D>, rows: &[Row<D>]) -> Result<(), RowsFault>
    requires { AreNew tree.old.lists rows.now }
    ensures rows { OnOk result (GainsRows tree.old.lists tree.new.lists rows.now) }
    ensures turns { OnOk result (InsertsInTurn tree.old.lists rows.now tree.new.lists) }
    ensures capacity { tree.new.lists.capacity ≡ tree.old.lists.capacity }
    ensures fault { IfErr result (λ fault. IsFaultOf tree.old.lists rows.now fault) }
    ensures err { OnErr result (tree.new.lists ≡ tree.old.lists) }
{
    tree.is_small();
    if rows.len() > MOST_ROWS_OF_A_TREE - tree.len() {
        return Err(RowsFault::TooMany);
    }
    tree.reserve(rows.len())?;
    insert_all(tree, rows);
    Ok(())
}

/// Inserts all rows, in their order, or none: after an error the tree has the nodes and rows that it had. The ids are looked
/// up among one another by hash; `keys` are to be random if others choose the ids.
///
/// # Errors
///
/// `Taken` with the place of the first row whose id the tree or an earlier row of the list has; `TooMany` if no id is taken
/// and the tree would have more than `MOST_ROWS_OF_A_TREE` rows; `Memory` if no memory is left.
pub fn insert_rows<const D: usize>(
    tree: &mut Tree<D>,
    alloc: Global,
    keys: RandomState,
    rows: &[Row<D>],
) -> Result<(), RowsFault>
    ensures rows { OnOk result (GainsRows tree.old.lists tree.new.lists rows.now) }
    ensures turns { OnOk result (InsertsInTurn tree.old.lists rows.now tree.new.lists) }
    ensures capacity { tree.new.lists.capacity ≡ tree.old.lists.capacity }
    ensures fault { IfErr result (λ fault. IsFaultOf tree.old.lists rows.now fault) }
    ensures err { OnErr result (tree.new.lists ≡ tree.old.lists) }
{
    match first_taken(tree, alloc, keys, rows)? {
        Some(at) => Err(RowsFault::Taken { at }),
        None => insert_new(tree, rows),
    }
}
