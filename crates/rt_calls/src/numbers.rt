//! Boxes and rows as the numbers that a caller has of them.

ghost use Rattle.std.specs.Prelude.{◌≡◌, ◌≢◌, ◌+◌, ◌*◌, ◌<◌, ◌≤◌, ◌↔◌, pos, IsTrue, IsSome, IfSome, IfOk, MatchOption, length, take, drop};
ghost use Rattle.std.proofs.Common.{slice_index_or};
ghost use Rattle.rt_box.specs.Rect.{IsBox};
ghost use Rattle.rt_calls.specs.Buffers.{Copies};
ghost use Rattle.rt_calls.specs.declared.code.Code.TheVariants.{Done};
ghost use Rattle.rt_calls.specs.Numbers.{IsSplit, Writes, ids_of, numbers_of, box_numbers};
ghost use Rattle.rt_calls.specs.Numbers.{AreOrdered, AreAllOrdered, AreRows, IsFirstBad};

use rt_box::Rect;
use rt_tree::Row;
use std::alloc::{AllocError, Global};

/// The least and the greatest number of a box on each axis, or `None` unless there are two numbers for each.
pub fn ends<const D: usize>(numbers: &[i32]) -> Option<(&[i32; D], &[i32; D])>
    ensures { MatchOption result (length numbers.now ≢ 2 * D) (λ ends. IsSplit D numbers.now ends.0.now ends.1.now) }
{
    let (min, rest) = numbers.split_first_chunk::<D>()?;
    let max = rest.as_array::<D>()?;
    Some((min, max))
}

/// Writes numbers into the buffer, from that place on.
fn write_at(numbers: &[i32], buffer: &mut [i32], at: usize)
    requires { at + length numbers.now ≤ length buffer.old }
    ensures { Writes numbers.now at buffer.old buffer.new }
{
    for place in 0..numbers.len() {
        buffer[at + place] = numbers[place];
    }
}

/// Writes the numbers of a box into the buffer, from that place on.
pub fn write_box<const D: usize>(rect: &Rect<D>, buffer: &mut [i32], at: usize)
    requires { at + 2 * D ≤ length buffer.old }
    ensures written { Writes (numbers_of rect.now) at buffer.old buffer.new }
    ensures count { length (numbers_of rect.now) ≡ 2 * D }
{
    rect.facts();
    write_at(&rect.lo(), buffer, at);
    write_at(&rect.hi(), buffer, at + D);
}

/// Writes the ids of the rows to the start of the buffer.
pub fn write_ids<const D: usize>(rows: &[Row<D>], buffer: &mut [i64])
    requires { length rows.now ≤ length buffer.old }
    ensures { Copies (ids_of rows.now) buffer.old buffer.new Done }
{
    for at in 0..rows.len() {
        buffer[at] = rows[at].id;
    }
}

/// Writes the numbers of the boxes of the rows to the start of the buffer.
pub fn write_boxes<const D: usize>(rows: &[Row<D>], buffer: &mut [i32])
    requires { length rows.now * (2 * D) ≤ length buffer.old }
    ensures { Copies (box_numbers rows.now) buffer.old buffer.new Done }
{
    let mut place = 0;
    for row in rows {
        write_box(&row.rect, buffer, place);
        place += 2 * D;
    }
}

/// Whether there is room for as many boxes as ids, and for no more.
pub fn are_matched<const D: usize>(ids: &[i64], boxes: &[i32]) -> bool
    requires { D ≤ 3 }
    ensures { IsTrue result ↔ (length boxes.now ≡ length ids.now * (2 * D)) }
{
    ids.len().checked_mul(2 * D) == Some(boxes.len())
}

/// The box whose numbers stand there in a list, or `None` if some least number is above its greatest.
fn box_from<const D: usize>(boxes: &[i32], from: usize) -> Option<Rect<D>>
    requires some { 1 ≤ D }
    requires few { D ≤ 3 }
    requires room { from + 2 * D ≤ length boxes.now }
    ensures ordered { IsSome result ↔ AreOrdered D (take (2 * D) (drop from boxes.now)) }
    ensures numbers { IfSome result (λ rect. numbers_of rect ≡ take (2 * D) (drop from boxes.now)) }
{
    let (min, max) = ends(&boxes[from..from + 2 * D])?;
    Rect::new(*min, *max)
}

/// The place of the first box of a list that has a least number above its greatest, or `None` if no box has.
pub fn first_bad<const D: usize>(boxes: &[i32], count: usize) -> Option<usize>
    requires some { 1 ≤ D }
    requires few { D ≤ 3 }
    requires matched { length boxes.now ≡ count * (2 * D) }
    ensures { MatchOption result (AreAllOrdered D count boxes.now) (IsFirstBad D boxes.now) }
{
    let mut from = 0;
    for place in 0..count {
        let Some(_) = box_from::<D>(boxes, from) else {
            return Some(place);
        };
        from += 2 * D;
    }
    None
}

/// The row at that place of a list of ids, with the box whose numbers stand there in a list of boxes.
fn row_at<const D: usize>(ids: &[i64], place: usize, boxes: &[i32], from: usize) -> Row<D>
    requires some { 1 ≤ D }
    requires few { D ≤ 3 }
    requires place { place < length ids.now }
    requires room { from + 2 * D ≤ length boxes.now }
    requires ordered { AreOrdered D (take (2 * D) (drop from boxes.now)) }
    ensures id { slice_index_or ids.now place (pos 0) ≡ result.id }
    ensures numbers { numbers_of result.rect ≡ take (2 * D) (drop from boxes.now) }
    ensures is_box { IsBox D result.rect }
{
    let rect = box_from(boxes, from).unwrap();
    rect.facts();
    Row {
        rect,
        id: ids[place],
    }
}

/// The rows with these ids and boxes.
pub fn rows_from<const D: usize>(
    alloc: Global,
    ids: &[i64],
    boxes: &[i32],
) -> Result<Vec<Row<D>>, AllocError>
    requires some { 1 ≤ D }
    requires few { D ≤ 3 }
    requires matched { length boxes.now ≡ length ids.now * (2 * D) }
    requires ordered { AreAllOrdered D (length ids.now) boxes.now }
    ensures { IfOk result (λ rows. AreRows ids.now boxes.now rows.items) }
{
    let mut rows = Vec::with_capacity(alloc, ids.len())?;
    let mut from = 0;
    for place in 0..ids.len() {
        rows.push(row_at(ids, place, boxes, from))?;
        from += 2 * D;
    }
    Ok(rows)
}
