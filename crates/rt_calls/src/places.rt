//! The rows from a place on, and the box around all rows.
//!
//! The order of places is that of the map of ids, so no call looks at a row that it doesn't write.

ghost use Rattle.std.specs.Prelude.{◌≡◌, ◌≢◌, ◌*◌, ◌≤◌, length, take, drop, All, IsSome};
ghost use Rattle.rt_tree.specs.Lists.{box_of};
ghost use Rattle.rt_calls.specs.Places.{CopiesBoxesOf, TellsIds, TellsRowsInto, TellsBoundsInto};
ghost use Rattle.rt_calls.specs.declared.code.Code.TheVariants.{Done};

use crate::code::Code;
use crate::numbers::{are_matched, write_box};
use rt_tree::Tree;

/// The items from the place on, `most` of them or as many as there are.
fn items_from(items: &[i64], from: u64, most: usize) -> &[i64]
    ensures { result.now ≡ take most (drop from items.now) }
{
    if from >= items.len() as u64 {
        return &[];
    }
    let rest = &items[from as usize..];
    if rest.len() > most {
        &rest[..most]
    } else {
        rest
    }
}

/// Writes the ids of the rows from the place on.
fn copy_ids<const D: usize>(tree: &Tree<D>, from: u64, ids: &mut [i64], total: &mut u64)
    ensures { TellsIds from ids.old ids.new total.new tree.now Done }
{
    let all = tree.ids();
    *total = all.len() as u64;
    let some = items_from(all, from, ids.len());
    ids[..some.len()].copy_from_slice(some);
}

/// Writes the ids of the rows from the place on.
pub fn ids<const D: usize>(tree: &Tree<D>, from: u64, ids: &mut [i64], total: &mut u64) -> Code
    ensures { TellsIds from ids.old ids.new total.new tree.now result }
{
    copy_ids(tree, from, ids, total);
    Code::Done
}

/// Writes the boxes of the rows with these ids.
fn write_boxes_of<const D: usize>(tree: &Tree<D>, ids: &[i64], boxes: &mut [i32])
    requires some { 1 ≤ D }
    requires few { D ≤ 3 }
    requires there { All (λ id. IsSome (box_of tree.now.lists id)) ids.now }
    requires room { length ids.now * (2 * D) ≤ length boxes.old }
    ensures { CopiesBoxesOf tree.now.lists ids.now boxes.old boxes.new }
{
    let mut place = 0;
    for at in 0..ids.len() {
        let id = ids[at];
        let rect = tree.get(&id).unwrap();
        write_box(&rect, boxes, place);
        place += 2 * D;
    }
}

/// Writes the boxes of the rows from the place on, `most` of them or as many as there are.
fn copy_boxes<const D: usize>(tree: &Tree<D>, from: u64, most: usize, boxes: &mut [i32])
    requires some { 1 ≤ D }
    requires few { D ≤ 3 }
    requires room { most * (2 * D) ≤ length boxes.old }
    ensures { CopiesBoxesOf tree.now.lists (take most (drop from tree.now.ids)) boxes.old boxes.new }
{
    let some = items_from(tree.ids(), from, most);
    write_boxes_of(tree, some, boxes);
}

/// Writes the rows from the place on.
pub fn rows<const D: usize>(
    tree: &Tree<D>,
    from: u64,
    ids: &mut [i64],
    boxes: &mut [i32],
    total: &mut u64,
) -> Code
    requires some { 1 ≤ D }
    requires few { D ≤ 3 }
    ensures told { TellsRowsInto from ids.old ids.new boxes.old boxes.new total.new tree.now result }
    ensures kept { result ≢ Done → (ids.new ≡ ids.old) × (boxes.new ≡ boxes.old) × (total.new ≡ total.old) }
{
    if !are_matched::<D>(ids, boxes) {
        return Code::BadLength;
    }
    copy_ids(tree, from, ids, total);
    copy_boxes(tree, from, ids.len(), boxes);
    Code::Done
}

/// Writes the least box around all rows.
pub fn bounds<const D: usize>(tree: &Tree<D>, buffer: &mut [i32]) -> Code
    requires some { 1 ≤ D }
    requires few { D ≤ 3 }
    ensures told { TellsBoundsInto buffer.old buffer.new tree.now result }
    ensures kept { result ≢ Done → buffer.new ≡ buffer.old }
{
    if buffer.len() != 2 * D {
        return Code::BadLength;
    }
    match tree.bounds() {
        Some(rect) => {
            write_box(&rect, buffer, 0);
            Code::Done
        }
        None => Code::Empty,
    }
}
