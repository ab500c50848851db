//! The rows near a point or a box.

ghost use Rattle.std.specs.Prelude.{◌≡◌, ◌≢◌, ◌*◌, ◌≤◌, length, option_map};
ghost use Rattle.rt_calls.specs.Calls.{OfTree};
ghost use Rattle.rt_calls.specs.Codes.{number_of};
ghost use Rattle.rt_calls.specs.Near.{FindsWithin, FindsWithinRows, FindsNearTo, FindsRowsNearTo};
ghost use Rattle.rt_calls.specs.declared.code.Code.TheVariants.{Done};

use crate::code::Code;
use crate::lending::{AnyTree, tree_in};
use crate::numbers::{are_matched, ends};
use crate::query::give_rows;
use rt_box::Rect;
use rt_handle::Object;
use rt_tree::Tree;
use std::alloc::Global;

/// Writes the ids and the boxes of the rows within the distance of the point, nearest first, and how many they are: as many
/// as there is room for.
fn within_point<const D: usize>(
    alloc: Global,
    tree: &Tree<D>,
    point: &[i32; D],
    distance: u64,
    ids: &mut [i64],
    boxes: &mut [i32],
    total: &mut u64,
) -> Code
    requires some { 1 ≤ D }
    requires few { D ≤ 3 }
    requires matched { length boxes.old ≡ length ids.old * (2 * D) }
    ensures found { FindsWithin point.now distance ids.old ids.new boxes.old boxes.new total.old total.new
        tree.now result }
    ensures kept { result ≢ Done → (ids.new ≡ ids.old) × (boxes.new ≡ boxes.old) × (total.new ≡ total.old) }
{
    match rt_map::within(alloc, tree, point, distance, ids.len()) {
        Ok(rows) => give_rows(&rows, ids, boxes, total),
        Err(_) => Code::OutOfMemory,
    }
}

/// Searches for the rows within a distance of a point.
pub fn within<const D: usize>(
    alloc: Global,
    tree: &Tree<D>,
    point: &[i32],
    distance: u64,
    ids: &mut [i64],
    boxes: &mut [i32],
    total: &mut u64,
) -> Code
    requires some { 1 ≤ D }
    requires few { D ≤ 3 }
    ensures found { FindsWithinRows point.now distance ids.old ids.new boxes.old boxes.new total.old total.new
        tree.now result }
    ensures kept { result ≢ Done → (ids.new ≡ ids.old) × (boxes.new ≡ boxes.old) × (total.new ≡ total.old) }
{
    let Some(point) = point.as_array::<D>() else {
        return Code::BadLength;
    };
    if !are_matched::<D>(ids, boxes) {
        return Code::BadLength;
    }
    within_point(alloc, tree, point, distance, ids, boxes, total)
}

/// Writes the ids and the boxes of the rows nearest to the box from `min` to `max`, nearest first, and how many they are: as
/// many as there is room for.
fn nearest_to_box<const D: usize>(
    alloc: Global,
    tree: &Tree<D>,
    min: &[i32; D],
    max: &[i32; D],
    ids: &mut [i64],
    boxes: &mut [i32],
    total: &mut u64,
) -> Code
    requires some { 1 ≤ D }
    requires few { D ≤ 3 }
    requires matched { length boxes.old ≡ length ids.old * (2 * D) }
    ensures found { FindsNearTo min.now max.now ids.old ids.new boxes.old boxes.new total.old total.new
        tree.now result }
    ensures kept { result ≢ Done → (ids.new ≡ ids.old) × (boxes.new ≡ boxes.old) × (total.new ≡ total.old) }
{
    let Some(rect) = Rect::new(*min, *max) else {
        return Code::BadBox;
    };
    match rt_map::nearest_to(alloc, tree, &rect, ids.len()) {
        Ok(rows) => give_rows(&rows, ids, boxes, total),
        Err(_) => Code::OutOfMemory,
    }
}

/// Searches for the rows nearest to a box.
fn nearest_to<const D: usize>(
    alloc: Global,
    tree: &Tree<D>,
    numbers: &[i32],
    ids: &mut [i64],
    boxes: &mut [i32],
    total: &mut u64,
) -> Code
    requires some { 1 ≤ D }
    requires few { D ≤ 3 }
    ensures found { FindsRowsNearTo numbers.now ids.old ids.new boxes.old boxes.new total.old total.new
        tree.now result }
    ensures kept { result ≢ Done → (ids.new ≡ ids.old) × (boxes.new ≡ boxes.old) × (total.new ≡ total.old) }
{
    let Some((min, max)) = ends(numbers) else {
        return Code::BadLength;
    };
    if !are_matched::<D>(ids, boxes) {
        return Code::BadLength;
    }
    nearest_to_box(alloc, tree, min, max, ids, boxes, total)
}

/// Searches for the rows nearest to a box in the tree that the object is.
pub fn nearest_to_in(
    alloc: Global,
    held: Option<&Object>,
    numbers: &[i32],
    ids: &mut [i64],
    boxes: &mut [i32],
    total: &mut u64,
) -> Code
    ensures found { OfTree (option_map (λ object. object.now) held.entry)
        (λ D. FindsRowsNearTo numbers.now ids.old ids.new boxes.old boxes.new total.old total.new) (number_of result) }
    ensures kept { result ≢ Done → (ids.new ≡ ids.old) × (boxes.new ≡ boxes.old) × (total.new ≡ total.old) }
{
    match tree_in(held) {
        Ok(AnyTree::Line(lent)) => nearest_to(alloc, lent.tree, numbers, ids, boxes, total),
        Ok(AnyTree::Plane(lent)) => nearest_to(alloc, lent.tree, numbers, ids, boxes, total),
        Ok(AnyTree::Space(lent)) => nearest_to(alloc, lent.tree, numbers, ids, boxes, total),
        Err(code) => code,
    }
}
