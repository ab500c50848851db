//! The insertion of a row.
//!
//! The row is pending as a cell of level 0, and is placed like any other. Its id is in the map before that, so placing it
//! takes no memory (`specs/Insertion.antt`).

ghost use Rattle.std.specs.Prelude.{◌≡◌, ◌+◌, ◌^◌, ◌<◌, ◌≤◌, [], ◌∷◌, ◌++◌, None, vec_len, vec_capacity};
ghost use Rattle.std.specs.Ordering.{int_eq};
ghost use Rattle.indexmap.specs.IndexMap.{get as leaf_of, spare};
ghost use Rattle.rt_tree_node.specs.Whole.{IsWhole, IsBranched, HasRoom, row_count, most_rows_of_a_tree};
ghost use Rattle.rt_tree_place.specs.NewRow.{pending_row, Learns, AwaitsLeaf};
ghost use Rattle.rt_tree_place.specs.Insertion.{Inserts};

use crate::place::settle;
use indexmap::IndexMap;
use rt_box::Rect;
use rt_tree_node::{Arena, Cell, Key, Pending, Work};
use std::hash::RandomState;

/// Gives an id that isn't in the map a leaf.
fn learn(leaves: &mut IndexMap<i64, Key, RandomState>, id: &i64, leaf: Key)
    requires absent { leaf_of int_eq leaves.old id.now ≡ None }
    requires room { 1 ≤ spare leaves.old }
    ensures { Learns leaves.old leaves.new id.now leaf }
{
    // There is room for one more, so that it takes no memory and can't fail.
    let _ = leaves.insert(*id, leaf);
}

/// Appends a row to the pending cells. It takes no memory.
pub fn push_row<const D: usize>(cells: &mut Vec<Pending<D>>, id: &i64, rect: &Rect<D>)
    requires { vec_len cells.old < vec_capacity cells.old }
    ensures items { cells.new.items ≡ cells.old.items ++ pending_row record { number = id.now; rect = rect.now } ∷ [] }
    ensures room { vec_capacity cells.new ≡ vec_capacity cells.old }
{
    let cell = Cell {
        number: *id,
        rect: *rect,
    };
    cells.push_reserved(Pending { level: 0, cell });
}

/// Makes a row pending for a leaf. Its id gets an entry already, of any leaf, so that placing the row takes no memory.
fn await_leaf<const D: usize>(tree: &mut Arena<D>, id: &i64, rect: &Rect<D>)
    requires absent { leaf_of int_eq tree.old.leaves id.now ≡ None }
    requires leaves_room { 1 ≤ spare tree.old.leaves }
    requires pending_room { vec_len tree.old.pending < vec_capacity tree.old.pending }
    ensures { AwaitsLeaf tree.old tree.new record { number = id.now; rect = rect.now } }
{
    rect.facts();
    let leaf = tree.root;
    learn(&mut tree.leaves, id, leaf);
    push_row(&mut tree.pending, id, rect);
}

/// Puts a row into the tree, which has no row with that id. It takes no memory: there is room for the nodes, the id and
/// the cells that are pending meanwhile.
pub fn insert_row<const D: usize>(tree: &mut Arena<D>, id: &i64, rect: &Rect<D>) -> Work
    requires whole { IsWhole tree.old }
    requires branched { IsBranched tree.old }
    requires idle { tree.old.pending.items ≡ [] }
    requires absent { leaf_of int_eq tree.old.leaves id.now ≡ None }
    requires rows { row_count tree.old < most_rows_of_a_tree }
    requires room { HasRoom tree.old (row_count tree.old + 1) }
    requires leaves_room { 1 ≤ spare tree.old.leaves }
    requires pending_room { 513 ≤ vec_capacity tree.old.pending }
    ensures { Inserts tree.old tree.new id.now rect.now result }
{
    rect.facts();
    await_leaf(tree, id, rect);
    settle(tree, 0)
}
