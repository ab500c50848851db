//! Many windows or points in a call.

ghost use Rattle.std.specs.Prelude.{◌≡◌, ◌≢◌, ◌+◌, ◌*◌, ◌≤◌, ◌↔◌, length, option_map, IsTrue, IfOk};
ghost use Rattle.std.specs.List.{AllZip};
ghost use Rattle.rt_calls.specs.Buffers.{Copies};
ghost use Rattle.rt_calls.specs.Calls.{OfTree};
ghost use Rattle.rt_calls.specs.Codes.{number_of};
ghost use Rattle.rt_calls.specs.Many.{GivesParts, SearchesEach, CountsEach, OfWindows, FindsEach, FindsNearestMany};
ghost use Rattle.rt_calls.specs.Numbers.{piece_at, pieces};
ghost use Rattle.rt_calls.specs.Windows.{AdmitsPiece};
ghost use Rattle.rt_calls.specs.declared.code.Code.TheVariants.{Done, BufferTooSmall};

use crate::code::Code;
use crate::lending::{AnyTree, tree_in};
use crate::numbers::ends;
use crate::relation::Relation;
use crate::window::related_window;
use rt_box::Window;
use rt_handle::Object;
use rt_tree::Tree;
use rt_tree_many::{FoundMany, count_many, nearest_many, order_by_region, search_many};
use std::alloc::{AllocError, Global};

/// The nodes of a tree with fewer rows stay in a processor's cache: an order would take more time than it saves.
const FEW_ROWS: usize = 1 << 18;

/// The window of the boxes that lie so to the box at that place of a list.
fn window_at<const D: usize>(relation: Relation, numbers: &[i32], place: usize) -> Window<D>
    requires some { 1 ≤ D }
    requires few { D ≤ 3 }
    requires room { (place + 1) * (2 * D) ≤ length numbers.now }
    ensures { AdmitsPiece D relation (piece_at (2 * D) numbers.now place) result }
{
    let from = place * (2 * D);
    let (min, max) = ends(&numbers[from..from + 2 * D]).unwrap();
    related_window(relation, min, max)
}

/// The windows of the boxes that lie so to each box of a list.
fn windows_from<const D: usize>(
    alloc: Global,
    relation: Relation,
    numbers: &[i32],
    count: usize,
) -> Result<Vec<Window<D>>, AllocError>
    requires some { 1 ≤ D }
    requires few { D ≤ 3 }
    requires matched { length numbers.now ≡ count * (2 * D) }
    ensures { IfOk result (λ windows.
        AllZip (AdmitsPiece D relation) (pieces (2 * D) count numbers.now) windows.items) }
{
    let mut windows = Vec::with_capacity(alloc, count)?;
    for place in 0..count {
        windows.push(window_at(relation, numbers, place))?;
    }
    Ok(windows)
}

/// The point at that place of a list.
fn point_at<const D: usize>(numbers: &[i32], place: usize) -> [i32; D]
    requires { (place + 1) * D ≤ length numbers.now }
    ensures { result ≡ piece_at D numbers.now place }
{
    let from = place * D;
    *numbers[from..from + D].as_array::<D>().unwrap()
}

/// The points of a list.
fn points_from<const D: usize>(
    alloc: Global,
    numbers: &[i32],
    count: usize,
) -> Result<Vec<[i32; D]>, AllocError>
    requires matched { length numbers.now ≡ count * D }
    ensures { IfOk result (λ points. points.items ≡ pieces D count numbers.now) }
{
    let mut points = Vec::with_capacity(alloc, count)?;
    for place in 0..count {
        points.push(point_at(numbers, place))?;
    }
    Ok(points)
}

/// The least corner of the box at that place of a list.
fn corner_at<const D: usize>(numbers: &[i32], place: usize) -> [i32; D]
    requires some { 1 ≤ D }
    requires few { D ≤ 3 }
    requires room { (place + 1) * (2 * D) ≤ length numbers.now }
{
    let from = place * (2 * D);
    *numbers[from..from + D].as_array::<D>().unwrap()
}

/// The least corner of each box of a list.
fn corners_from<const D: usize>(
    alloc: Global,
    numbers: &[i32],
    count: usize,
) -> Result<Vec<[i32; D]>, AllocError>
    requires some { 1 ≤ D }
    requires few { D ≤ 3 }
    requires matched { length numbers.now ≡ count * (2 * D) }
{
    let mut corners = Vec::with_capacity(alloc, count)?;
    for place in 0..count {
        corners.push(corner_at(numbers, place))?;
    }
    Ok(corners)
}

/// An order in which to ask about boxes: those that begin in one region of the tree follow each other. It is empty if the tree
/// has few rows.
fn order_of<const D: usize>(
    alloc: Global,
    tree: &Tree<D>,
    numbers: &[i32],
    count: usize,
) -> Result<Vec<usize>, AllocError>
    requires some { 1 ≤ D }
    requires few { D ≤ 3 }
    requires matched { length numbers.now ≡ count * (2 * D) }
{
    if tree.len() < FEW_ROWS {
        return Ok(Vec::new(alloc));
    }
    let corners = corners_from(alloc, numbers, count)?;
    order_by_region(alloc, &tree.bounds(), &corners)
}

/// Whether a list has `each` numbers for each of `count` things, and no more.
fn are_many(numbers: &[i32], each: usize, count: usize) -> bool
    requires { each ≤ 6 }
    ensures { IsTrue result ↔ (length numbers.now ≡ count * each) }
{
    count.checked_mul(each) == Some(numbers.len())
}

/// Writes numbers to the start of the buffer.
fn write_counts(counts: &[usize], buffer: &mut [u64])
    requires { length counts.now ≤ length buffer.old }
    ensures { Copies counts.now buffer.old buffer.new Done }
{
    for at in 0..counts.len() {
        buffer[at] = counts[at] as u64;
    }
}

/// Writes what several questions found to the start of the buffers, and the number of ids to `total`.
fn give_parts(found: &FoundMany, starts: &mut [u64], ids: &mut [i64], total: &mut u64) -> Code
    requires { length found.now.starts.items ≤ length starts.old }
    ensures given { GivesParts found.now.ids.items found.now.starts.items
        starts.old starts.new ids.old ids.new total.old total.new result }
    ensures kept { result ≢ Done → result ≢ BufferTooSmall →
        (starts.new ≡ starts.old) × (ids.new ≡ ids.old) × (total.new ≡ total.old) }
{
    *total = found.ids.len() as u64;
    if found.ids.len() > ids.len() {
        return Code::BufferTooSmall;
    }
    write_counts(&found.starts, starts);
    ids[..found.ids.len()].copy_from_slice(&found.ids);
    Code::Done
}

/// Searches for the rows that lie so to each window.
fn search_related<const D: usize>(
    alloc: Global,
    tree: &Tree<D>,
    relation: Relation,
    windows: &[i32],
    starts: &mut [u64],
    ids: &mut [i64],
    total: &mut u64,
) -> Code
    requires some { 1 ≤ D }
    requires few { D ≤ 3 }
    requires matched { length windows.now ≡ length starts.old * (2 * D) }
    ensures found { SearchesEach starts.old starts.new ids.old ids.new total.old total.new
        relation windows.now tree.now result }
    ensures kept { result ≢ Done → result ≢ BufferTooSmall →
        (starts.new ≡ starts.old) × (ids.new ≡ ids.old) × (total.new ≡ total.old) }
{
    tree.has_boxes();
    let Ok(asked) = windows_from(alloc, relation, windows, starts.len()) else {
        return Code::OutOfMemory;
    };
    let Ok(order) = order_of(alloc, tree, windows, starts.len()) else {
        return Code::OutOfMemory;
    };
    match search_many(tree, alloc, &asked, &order) {
        Ok(found) => give_parts(&found, starts, ids, total),
        Err(_) => Code::OutOfMemory,
    }
}

/// Searches for the rows that lie so to each window.
fn search_each<const D: usize>(
    alloc: Global,
    tree: &Tree<D>,
    relation: u32,
    windows: &[i32],
    starts: &mut [u64],
    ids: &mut [i64],
    total: &mut u64,
) -> Code
    requires some { 1 ≤ D }
    requires few { D ≤ 3 }
    ensures found { OfWindows relation (length starts.old) windows.now
        (SearchesEach starts.old starts.new ids.old ids.new total.old total.new) tree.now result }
    ensures kept { result ≢ Done → result ≢ BufferTooSmall →
        (starts.new ≡ starts.old) × (ids.new ≡ ids.old) × (total.new ≡ total.old) }
{
    let Some(relation) = Relation::from_number(relation) else {
        return Code::BadRelation;
    };
    if !are_many(windows, 2 * D, starts.len()) {
        return Code::BadLength;
    }
    search_related(alloc, tree, relation, windows, starts, ids, total)
}

/// The same in the tree that the object is.
pub fn search_each_in(
    alloc: Global,
    held: Option<&Object>,
    relation: u32,
    windows: &[i32],
    starts: &mut [u64],
    ids: &mut [i64],
    total: &mut u64,
) -> Code
    ensures told { OfTree (option_map (λ object. object.now) held.entry)
        (λ D. OfWindows relation (length starts.old) windows.now
        (SearchesEach starts.old starts.new ids.old ids.new total.old total.new)) (number_of result) }
    ensures kept { result ≢ Done → result ≢ BufferTooSmall →
        (starts.new ≡ starts.old) × (ids.new ≡ ids.old) × (total.new ≡ total.old) }
{
    match tree_in(held) {
        Ok(AnyTree::Line(lent)) => search_each(
            alloc, lent.tree, relation, windows, starts, ids, total,
        ),
        Ok(AnyTree::Plane(lent)) => search_each(
            alloc, lent.tree, relation, windows, starts, ids, total,
        ),
        Ok(AnyTree::Space(lent)) => search_each(
            alloc, lent.tree, relation, windows, starts, ids, total,
        ),
        Err(code) => code,
    }
}

/// Counts the rows that lie so to each window.
fn count_related<const D: usize>(
    alloc: Global,
    tree: &Tree<D>,
    relation: Relation,
    windows: &[i32],
    counts: &mut [u64],
) -> Code
    requires some { 1 ≤ D }
    requires few { D ≤ 3 }
    requires matched { length windows.now ≡ length counts.old * (2 * D) }
    ensures counted { CountsEach counts.old counts.new relation windows.now tree.now result }
    ensures kept { result ≢ Done → counts.new ≡ counts.old }
{
    tree.has_boxes();
    let Ok(asked) = windows_from(alloc, relation, windows, counts.len()) else {
        return Code::OutOfMemory;
    };
    let Ok(order) = order_of(alloc, tree, windows, counts.len()) else {
        return Code::OutOfMemory;
    };
    match count_many(tree, alloc, &asked, &order) {
        Ok(numbers) => {
            write_counts(&numbers, counts);
            Code::Done
        }
        Err(_) => Code::OutOfMemory,
    }
}

/// Counts the rows that lie so to each window.
fn count_each<const D: usize>(
    alloc: Global,
    tree: &Tree<D>,
    relation: u32,
    windows: &[i32],
    counts: &mut [u64],
) -> Code
    requires some { 1 ≤ D }
    requires few { D ≤ 3 }
    ensures counted { OfWindows relation (length counts.old) windows.now (CountsEach counts.old counts.new)
        tree.now result }
    ensures kept { result ≢ Done → counts.new ≡ counts.old }
{
    let Some(relation) = Relation::from_number(relation) else {
        return Code::BadRelation;
    };
    if !are_many(windows, 2 * D, counts.len()) {
        return Code::BadLength;
    }
    count_related(alloc, tree, relation, windows, counts)
}

/// The same in the tree that the object is.
pub fn count_each_in(
    alloc: Global,
    held: Option<&Object>,
    relation: u32,
    windows: &[i32],
    counts: &mut [u64],
) -> Code
    ensures told { OfTree (option_map (λ object. object.now) held.entry)
        (λ D. OfWindows relation (length counts.old) windows.now
        (CountsEach counts.old counts.new)) (number_of result) }
    ensures kept { result ≢ Done → counts.new ≡ counts.old }
{
    match tree_in(held) {
        Ok(AnyTree::Line(lent)) => count_each(alloc, lent.tree, relation, windows, counts),
        Ok(AnyTree::Plane(lent)) => count_each(alloc, lent.tree, relation, windows, counts),
        Ok(AnyTree::Space(lent)) => count_each(alloc, lent.tree, relation, windows, counts),
        Err(code) => code,
    }
}

/// Searches for the rows nearest to each of n points.
fn nearest_to_points<const D: usize>(
    alloc: Global,
    tree: &Tree<D>,
    points: &[i32],
    k: u64,
    starts: &mut [u64],
    ids: &mut [i64],
    total: &mut u64,
) -> Code
    requires some { 1 ≤ D }
    requires few { D ≤ 3 }
    requires matched { length points.now ≡ length starts.old * D }
    ensures found { FindsEach k starts.old starts.new ids.old ids.new total.old total.new points.now tree.now result }
    ensures kept { result ≢ Done → result ≢ BufferTooSmall →
        (starts.new ≡ starts.old) × (ids.new ≡ ids.old) × (total.new ≡ total.old) }
{
    let Ok(points) = points_from(alloc, points, starts.len()) else {
        return Code::OutOfMemory;
    };
    match nearest_many(tree, alloc, &points, k as usize) {
        Ok(found) => give_parts(&found, starts, ids, total),
        Err(_) => Code::OutOfMemory,
    }
}

/// Searches for the rows nearest to each point.
fn nearest_each<const D: usize>(
    alloc: Global,
    tree: &Tree<D>,
    points: &[i32],
    k: u64,
    starts: &mut [u64],
    ids: &mut [i64],
    total: &mut u64,
) -> Code
    requires some { 1 ≤ D }
    requires few { D ≤ 3 }
    ensures found { FindsNearestMany k starts.old starts.new ids.old ids.new total.old total.new
        points.now tree.now result }
    ensures kept { result ≢ Done → result ≢ BufferTooSmall →
        (starts.new ≡ starts.old) × (ids.new ≡ ids.old) × (total.new ≡ total.old) }
{
    if !are_many(points, D, starts.len()) {
        return Code::BadLength;
    }
    nearest_to_points(alloc, tree, points, k, starts, ids, total)
}

/// The same in the tree that the object is.
pub fn nearest_each_in(
    alloc: Global,
    held: Option<&Object>,
    points: &[i32],
    k: u64,
    starts: &mut [u64],
    ids: &mut [i64],
    total: &mut u64,
) -> Code
    ensures told { OfTree (option_map (λ object. object.now) held.entry)
        (λ D. FindsNearestMany k starts.old starts.new ids.old ids.new total.old total.new
        points.now) (number_of result) }
    ensures kept { result ≢ Done → result ≢ BufferTooSmall →
        (starts.new ≡ starts.old) × (ids.new ≡ ids.old) × (total.new ≡ total.old) }
{
    match tree_in(held) {
        Ok(AnyTree::Line(lent)) => nearest_each(alloc, lent.tree, points, k, starts, ids, total),
        Ok(AnyTree::Plane(lent)) => nearest_each(alloc, lent.tree, points, k, starts, ids, total),
        Ok(AnyTree::Space(lent)) => nearest_each(alloc, lent.tree, points, k, starts, ids, total),
        Err(code) => code,
    }
}
