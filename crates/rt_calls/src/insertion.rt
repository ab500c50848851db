//! Many rows inserted in a call.

ghost use Rattle.std.specs.Prelude.{◌≡◌, ◌*◌, ◌≤◌, Some, length};
ghost use Rattle.rt_calls.specs.Calls.{OnTree};
ghost use Rattle.rt_calls.specs.Codes.{number_of};
ghost use Rattle.rt_calls.specs.Insertion.{InsertsRows, InsertsAll, KeepsPlaceOf};
ghost use Rattle.rt_calls.specs.Numbers.{AreAllOrdered};

use crate::code::Code;
use crate::numbers::{are_matched, first_bad, rows_from};
use rt_handle::{HeldTree, Object};
use rt_tree_many::{RowsFault, insert_rows};
use std::alloc::Global;

/// Inserts rows whose boxes are known to be such.
fn insert_ordered<const D: usize>(
    alloc: Global,
    kept: &mut HeldTree<D>,
    ids: &[i64],
    boxes: &[i32],
    at: &mut u64,
) -> Code
    requires some { 1 ≤ D }
    requires few { D ≤ 3 }
    requires matched { length boxes.now ≡ length ids.now * (2 * D) }
    requires ordered { AreAllOrdered D (length ids.now) boxes.now }
    ensures rows { InsertsRows ids.now boxes.now at.new kept.old.tree kept.new.tree result }
    ensures place { KeepsPlaceOf at.old at.new result }
    ensures keys { kept.new.keys ≡ kept.old.keys }
    ensures capacity { kept.new.capacity ≡ kept.old.capacity }
{
    let Ok(rows) = rows_from(alloc, ids, boxes) else {
        return Code::OutOfMemory;
    };
    match insert_rows(&mut kept.tree, alloc, kept.keys, &rows) {
        Ok(()) => Code::Done,
        Err(RowsFault::Taken { at: place }) => {
            *at = place as u64;
            Code::IdTaken
        }
        Err(RowsFault::TooMany) => Code::TreeFull,
        Err(RowsFault::Memory) => Code::OutOfMemory,
    }
}

/// Inserts rows.
fn insert_all<const D: usize>(
    alloc: Global,
    kept: &mut HeldTree<D>,
    ids: &[i64],
    boxes: &[i32],
    at: &mut u64,
) -> Code
    requires some { 1 ≤ D }
    requires few { D ≤ 3 }
    ensures rows { InsertsAll ids.now boxes.now at.new kept.old.tree kept.new.tree result }
    ensures place { KeepsPlaceOf at.old at.new result }
    ensures keys { kept.new.keys ≡ kept.old.keys }
    ensures capacity { kept.new.capacity ≡ kept.old.capacity }
{
    if !are_matched::<D>(ids, boxes) {
        return Code::BadLength;
    }
    if let Some(place) = first_bad::<D>(boxes, ids.len()) {
        *at = place as u64;
        return Code::BadBox;
    }
    insert_ordered(alloc, kept, ids, boxes, at)
}

/// Inserts rows into the tree that the object is.
pub fn insert_rows_into(
    alloc: Global,
    object: &mut Object,
    ids: &[i64],
    boxes: &[i32],
    at: &mut u64,
) -> Code
    ensures rows { OnTree (Some object.old) (Some object.new)
        (λ D old. InsertsAll ids.now boxes.now at.new old.tree) (number_of result) }
    ensures place { KeepsPlaceOf at.old at.new result }
{
    match object {
        Object::Line(kept) => insert_all(alloc, kept, ids, boxes, at),
        Object::Plane(kept) => insert_all(alloc, kept, ids, boxes, at),
        Object::Space(kept) => insert_all(alloc, kept, ids, boxes, at),
        _ => Code::OtherKind,
    }
}
