//! What is read of a tree of any number of axes.

ghost use Rattle.std.specs.Prelude.{◌≡◌, ◌≢◌, ◌*◌, ◌≤◌, length, IfOk};
ghost use Rattle.rt_calls.specs.Relations.{FindsRelated};
ghost use Rattle.rt_calls.specs.Trees.{TellsAxes, Counts, GetsInto, CountsRelated, Gives, GivesRows, OfRelation, OfWindow};
ghost use Rattle.rt_calls.specs.Trees.{Searches, SearchesFitting, SearchesRows, FindsNearest, FindsNearestRows};
ghost use Rattle.rt_calls.specs.declared.code.Code.TheVariants.{Done, BufferTooSmall};

use crate::code::Code;
use crate::numbers::{are_matched, ends, write_box, write_boxes, write_ids};
use crate::relation::Relation;
use crate::window::related_window;
use rt_tree::{Found, Row, Tree};
use std::alloc::{AllocError, Global};

/// Writes the number of axes.
pub fn tell_axes<const D: usize>(_tree: &Tree<D>, axes: &mut u32) -> Code
    requires { D ≤ 3 }
    ensures told { TellsAxes D axes.new result }
    ensures kept { result ≢ Done → axes.new ≡ axes.old }
{
    *axes = D as u32;
    Code::Done
}

/// Writes the number of rows.
pub fn len<const D: usize>(tree: &Tree<D>, rows: &mut u64) -> Code
    ensures { Counts rows.new tree.now result }
{
    *rows = tree.len() as u64;
    Code::Done
}

/// Writes the box of the row with that id.
pub fn get<const D: usize>(tree: &Tree<D>, id: i64, buffer: &mut [i32]) -> Code
    requires some { 1 ≤ D }
    requires few { D ≤ 3 }
    ensures found { GetsInto id buffer.old buffer.new tree.now result }
    ensures kept { result ≢ Done → buffer.new ≡ buffer.old }
{
    if buffer.len() != 2 * D {
        return Code::BadLength;
    }
    match tree.get(&id) {
        Some(rect) => {
            write_box(&rect, buffer, 0);
            Code::Done
        }
        None => Code::IdMissing,
    }
}

/// Writes the number of the rows that lie so to the box from `min` to `max`.
fn count_related<const D: usize>(
    alloc: Global,
    tree: &Tree<D>,
    relation: Relation,
    min: &[i32; D],
    max: &[i32; D],
    total: &mut u64,
) -> Code
    requires some { 1 ≤ D }
    requires few { D ≤ 3 }
    ensures rows { CountsRelated total.new relation min.now max.now tree.now result }
    ensures kept { result ≢ Done → total.new ≡ total.old }
{
    tree.has_boxes();
    match tree.count(alloc, &related_window(relation, min, max)) {
        Ok(rows) => {
            *total = rows as u64;
            Code::Done
        }
        Err(_) => Code::OutOfMemory,
    }
}

/// Counts the rows that lie so to a window.
pub fn count<const D: usize>(
    alloc: Global,
    tree: &Tree<D>,
    relation: u32,
    window: &[i32],
    total: &mut u64,
) -> Code
    requires some { 1 ≤ D }
    requires few { D ≤ 3 }
    ensures rows { OfWindow relation window.now (CountsRelated total.new) tree.now result }
    ensures kept { result ≢ Done → total.new ≡ total.old }
{
    let Some(relation) = Relation::from_number(relation) else {
        return Code::BadRelation;
    };
    let Some((min, max)) = ends(window) else {
        return Code::BadLength;
    };
    count_related(alloc, tree, relation, min, max, total)
}

/// The rows that lie so to the box from `min` to `max`.
fn find_related<const D: usize>(
    alloc: Global,
    tree: &Tree<D>,
    relation: Relation,
    min: &[i32; D],
    max: &[i32; D],
) -> Result<Found<Vec<Row<D>>>, AllocError>
    requires some { 1 ≤ D }
    requires few { D ≤ 3 }
    ensures { IfOk result (λ found. FindsRelated relation tree.now.lists min.now max.now found.rows.items) }
{
    tree.has_boxes();
    tree.search(alloc, &related_window(relation, min, max))
}

/// Writes the ids of the rows to the start of the buffer, and their number to `total`.
fn give<const D: usize>(rows: &[Row<D>], ids: &mut [i64], total: &mut u64) -> Code
    ensures given { Gives rows.now ids.old ids.new total.old total.new result }
    ensures kept { result ≢ Done → result ≢ BufferTooSmall → (ids.new ≡ ids.old) × (total.new ≡ total.old) }
{
    *total = rows.len() as u64;
    if rows.len() > ids.len() {
        return Code::BufferTooSmall;
    }
    write_ids(rows, ids);
    Code::Done
}

/// Writes the ids of the rows and the numbers of their boxes to the start of the buffers, and how many rows they are.
pub(crate) fn give_rows<const D: usize>(
    rows: &[Row<D>],
    ids: &mut [i64],
    boxes: &mut [i32],
    total: &mut u64,
) -> Code
    requires { length boxes.old ≡ length ids.old * (2 * D) }
    ensures given { GivesRows rows.now ids.old ids.new boxes.old boxes.new total.old total.new result }
    ensures kept { result ≢ Done → result ≢ BufferTooSmall →
        (ids.new ≡ ids.old) × (boxes.new ≡ boxes.old) × (total.new ≡ total.old) }
    ensures done { length rows.now ≤ length ids.old → result ≡ Done }
{
    *total = rows.len() as u64;
    if rows.len() > ids.len() {
        return Code::BufferTooSmall;
    }
    write_ids(rows, ids);
    write_boxes(rows, boxes);
    Code::Done
}

/// Writes the ids of the rows that lie so to the box from `min` to `max`, in no stated order, and their number.
fn search_related<const D: usize>(
    alloc: Global,
    tree: &Tree<D>,
    relation: Relation,
    min: &[i32; D],
    max: &[i32; D],
    ids: &mut [i64],
    total: &mut u64,
) -> Code
    requires some { 1 ≤ D }
    requires few { D ≤ 3 }
    ensures found { Searches ids.old ids.new total.old total.new relation min.now max.now tree.now result }
    ensures kept { result ≢ Done → result ≢ BufferTooSmall → (ids.new ≡ ids.old) × (total.new ≡ total.old) }
{
    match find_related(alloc, tree, relation, min, max) {
        Ok(found) => give(&found.rows, ids, total),
        Err(_) => Code::OutOfMemory,
    }
}

/// Searches for the rows that lie so to a window.
pub fn search<const D: usize>(
    alloc: Global,
    tree: &Tree<D>,
    relation: u32,
    window: &[i32],
    ids: &mut [i64],
    total: &mut u64,
) -> Code
    requires some { 1 ≤ D }
    requires few { D ≤ 3 }
    ensures found { OfWindow relation window.now (Searches ids.old ids.new total.old total.new) tree.now result }
    ensures kept { result ≢ Done → result ≢ BufferTooSmall → (ids.new ≡ ids.old) × (total.new ≡ total.old) }
{
    let Some(relation) = Relation::from_number(relation) else {
        return Code::BadRelation;
    };
    let Some((min, max)) = ends(window) else {
        return Code::BadLength;
    };
    search_related(alloc, tree, relation, min, max, ids, total)
}

/// Writes the ids and the boxes of the rows that lie so to the box from `min` to `max`, in no stated order, and their number.
fn search_rows_related<const D: usize>(
    alloc: Global,
    tree: &Tree<D>,
    relation: Relation,
    min: &[i32; D],
    max: &[i32; D],
    ids: &mut [i64],
    boxes: &mut [i32],
    total: &mut u64,
) -> Code
    requires some { 1 ≤ D }
    requires few { D ≤ 3 }
    ensures found { SearchesRows ids.old ids.new boxes.old boxes.new total.old total.new
        relation min.now max.now tree.now result }
    ensures kept { result ≢ Done → result ≢ BufferTooSmall →
        (ids.new ≡ ids.old) × (boxes.new ≡ boxes.old) × (total.new ≡ total.old) }
{
    if !are_matched::<D>(ids, boxes) {
        return Code::BadLength;
    }
    match find_related(alloc, tree, relation, min, max) {
        Ok(found) => give_rows(&found.rows, ids, boxes, total),
        Err(_) => Code::OutOfMemory,
    }
}

/// Searches for the rows that lie so to a window, with their boxes.
pub fn search_rows<const D: usize>(
    alloc: Global,
    tree: &Tree<D>,
    relation: u32,
    window: &[i32],
    ids: &mut [i64],
    boxes: &mut [i32],
    total: &mut u64,
) -> Code
    requires some { 1 ≤ D }
    requires few { D ≤ 3 }
    ensures found { OfWindow relation window.now (SearchesRows ids.old ids.new boxes.old boxes.new total.old total.new)
        tree.now result }
    ensures kept { result ≢ Done → result ≢ BufferTooSmall →
        (ids.new ≡ ids.old) × (boxes.new ≡ boxes.old) × (total.new ≡ total.old) }
{
    let Some(relation) = Relation::from_number(relation) else {
        return Code::BadRelation;
    };
    let Some((min, max)) = ends(window) else {
        return Code::BadLength;
    };
    search_rows_related(alloc, tree, relation, min, max, ids, boxes, total)
}

/// Writes the ids and the boxes of the rows nearest to the point, nearest first, and how many they are: as many as there is
/// room for.
fn nearest_to<const D: usize>(
    alloc: Global,
    tree: &Tree<D>,
    point: &[i32; D],
    ids: &mut [i64],
    boxes: &mut [i32],
    total: &mut u64,
) -> Code
    requires some { 1 ≤ D }
    requires few { D ≤ 3 }
    requires matched { length boxes.old ≡ length ids.old * (2 * D) }
    ensures found { FindsNearest point.now ids.old ids.new boxes.old boxes.new total.old total.new tree.now result }
    ensures kept { result ≢ Done → (ids.new ≡ ids.old) × (boxes.new ≡ boxes.old) × (total.new ≡ total.old) }
{
    match rt_map::nearest(alloc, tree, point, ids.len()) {
        Ok(rows) => give_rows(&rows, ids, boxes, total),
        Err(_) => Code::OutOfMemory,
    }
}

/// Searches for the rows nearest to a point.
pub fn nearest<const D: usize>(
    alloc: Global,
    tree: &Tree<D>,
    point: &[i32],
    ids: &mut [i64],
    boxes: &mut [i32],
    total: &mut u64,
) -> Code
    requires some { 1 ≤ D }
    requires few { D ≤ 3 }
    ensures found { FindsNearestRows point.now ids.old ids.new boxes.old boxes.new total.old total.new tree.now result }
    ensures kept { result ≢ Done → (ids.new ≡ ids.old) × (boxes.new ≡ boxes.old) × (total.new ≡ total.old) }
{
    let Some(point) = point.as_array::<D>() else {
        return Code::BadLength;
    };
    if !are_matched::<D>(ids, boxes) {
        return Code::BadLength;
    }
    nearest_to(alloc, tree, point, ids, boxes, total)
}
