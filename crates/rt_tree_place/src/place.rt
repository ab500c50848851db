//! The placing of pending cells.
//!
//! Cells of all levels are pending in one list, and the last is placed first. It goes down to its node, the way up puts the
//! nodes above in shape again, and an overfull root is split last (`specs/Placement.antt`). Cells that an overfull node
//! gives up meanwhile join the end of the list, so they are placed before the others (`specs/Turns.antt`).

ghost use Rattle.std.specs.Prelude.{ℕ, ◌+◌, ◌^◌, ◌<◌, ◌≤◌, vec_len, vec_capacity};
ghost use Rattle.slab.specs.Slab.{HasRoomFor};
ghost use Rattle.rt_tree_node.specs.declared.cell.Cell.{Cell};
ghost use Rattle.rt_tree_node.specs.Whole.{IsWhole, HasRoom, row_count, most_rows_of_a_tree};
ghost use Rattle.rt_tree_node.specs.Settles.{Settles};
ghost use Rattle.rt_tree_place.specs.Placement.{PlacesLast};
ghost use Rattle.rt_tree_place.specs.Turns.{PlacesInTurn, CountsWork, IsOnlyPending, PlacesRow};
ghost use Rattle.rt_tree_place.specs.Rise.{IsPending, Enters};

use crate::attaching::attach;
use crate::descent::choose_node;
use crate::grow::grow;
use crate::rise::rise;
use rt_tree_node::{Arena, Key, Pending, Work};

/// Appends the cell to the node of its level that best children lead its box to, and returns that node's key.
fn enter<const D: usize>(tree: &mut Arena<D>, entry: &Pending<D>) -> Key
    requires few { D ≤ 3 }
    requires pending { IsPending tree.old entry.now }
    ensures { Enters tree.old tree.new entry.now result }
{
    let key = choose_node(
        &tree.nodes,
        tree.root,
        tree.level,
        entry.level,
        &entry.cell.rect,
    );
    attach(tree, key, entry);
    key
}

/// Places the last pending cell, in the node of its level that best children lead its box to. From there up to the root each
/// overfull node gives up cells, which are then pending, if its level isn't marked; else it is split. The boxes of cells
/// above are made the least ones again (Beckmann, Kriegel, Schneider, Seeger 1990, section 4.3). The levels below `marks`
/// are the marked ones. `work` counts what was done. The call takes no memory.
pub fn place_last<const D: usize>(tree: &mut Arena<D>, marks: &mut u8, work: &mut Work)
    requires few { D ≤ 3 }
    requires whole { IsWhole tree.old }
    requires waits { 1 ≤ vec_len tree.old.pending }
    requires height { tree.old.level ≤ 30 }
    requires room { HasRoomFor tree.old.nodes 32 }
    requires keys { tree.old.nodes.capacity ≤ 2 ^ 62 }
    requires pending_room { vec_len tree.old.pending + 15 ≤ vec_capacity tree.old.pending }
    requires placements { work.old.placements + 1 < 2 ^ 32 }
    requires splits { work.old.splits ≤ 2 ^ 31 }
    requires reinsertions { work.old.reinsertions ≤ 2 ^ 31 }
    ensures { PlacesLast tree.old tree.new marks.old marks.new work.old work.new }
{
    let entry = tree.pending.pop().unwrap();
    let key = enter(tree, &entry);
    rise(tree, key, &entry.cell.rect, marks, work);
    grow(tree, work);
    work.placements += 1;
}

/// Places pending cells, last first, until `base` remain. No level is marked before, and the marks last until the end: a
/// level gives up cells at most once.
pub fn settle<const D: usize>(tree: &mut Arena<D>, base: usize) -> Work
    requires whole { IsWhole tree.old }
    requires waits { base < vec_len tree.old.pending }
    requires rows { row_count tree.old ≤ most_rows_of_a_tree }
    requires room { HasRoom tree.old (row_count tree.old) }
    requires pending_room { vec_len tree.old.pending + 512 ≤ vec_capacity tree.old.pending }
    ensures settles { Settles tree.old tree.new base }
    ensures turns { (marks : ℕ) × PlacesInTurn tree.old base tree.new marks result }
    ensures counts { CountsWork tree.old tree.new base result }
    ensures alone { (cell : Cell D) → IsOnlyPending tree.old cell → PlacesRow tree.old tree.new cell result }
{
    let mut marks = 0;
    let mut work = Work {
        placements: 0,
        splits: 0,
        reinsertions: 0,
    };
    while tree.pending.len() > base {
        place_last(tree, &mut marks, &mut work);
    }
    work
}
