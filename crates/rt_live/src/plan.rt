//! What an edit tells, listed before anything changes.

ghost use Rattle.std.specs.Prelude.{◌≡◌, ◌+◌, ◌<◌, ◌≤◌, ◌++◌, true, false, length, vec_capacity, IsOk, OnOk, OnErr};
ghost use Rattle.rt_check.specs.Shadow.{ShadowLists};
ghost use Rattle.rt_live.specs.Rows.{rows_by_id};
ghost use Rattle.rt_live.specs.Changes.{stays, told_each, row_changes, window_changes};
ghost use Rattle.rt_live.specs.Finding.{CoversTold, Encloses, IsNear};
ghost use Rattle.rt_live.specs.Room.{around, HasRoomAround, Grows};

use crate::change::{Change, push_told, told_of_row, told_of_window};
use crate::finding::{Scratch, find_either, find_told};
use crate::hull::{encloses, hull_of};
use crate::near::find_near;
use crate::strips::{Strips, strips_between};
use crate::touching::is_touched;
use rt_box::Rect;
use rt_tree::{Row, Tree};
use std::alloc::AllocError;
use std::mem;

/// Lists what these windows are told of a row that had the one box and has the other.
fn list_row<const D: usize>(
    changes: &mut Vec<Change>,
    windows: &[Row<D>],
    id: &i64,
    was: &Option<Rect<D>>,
    is: &Option<Rect<D>>,
) -> Result<(), AllocError>
    ensures told { OnOk result (changes.new.items ≡ changes.old.items ++ told_each windows.now id.now was.now is.now) }
    ensures full { OnErr result (vec_capacity changes.old < length changes.old.items + length windows.now) }
    ensures capacity { vec_capacity changes.old ≤ vec_capacity changes.new }
{
    changes.reserve(windows.len())?;
    // While nothing else names the list, its end stays in a register.
    let alloc = *changes.allocator();
    let mut list = mem::replace(changes, Vec::new(alloc));
    for window in windows {
        let was_in = is_touched(was, &window.rect);
        let is_in = is_touched(is, &window.rect);
        push_told(&mut list, window.id, *id, told_of_row(was_in, is_in));
    }
    *changes = list;
    Ok(())
}

/// Lists what a window that had the one box and has the other is told of these rows.
fn list_window<const D: usize>(
    changes: &mut Vec<Change>,
    rows: &[Row<D>],
    window: &i64,
    was: &Option<Rect<D>>,
    is: &Option<Rect<D>>,
) -> Result<(), AllocError>
    ensures told { OnOk result (changes.new.items ≡ changes.old.items ++
        window_changes rows.now window.now was.now is.now) }
    ensures full { OnErr result (vec_capacity changes.old < length changes.old.items + length rows.now) }
    ensures capacity { vec_capacity changes.old ≤ vec_capacity changes.new }
{
    changes.reserve(rows.len())?;
    let alloc = *changes.allocator();
    let mut list = mem::replace(changes, Vec::new(alloc));
    for row in rows {
        let was_in = is_touched(was, &row.rect);
        let is_in = is_touched(is, &row.rect);
        push_told(&mut list, *window, row.id, told_of_window(was_in, is_in));
    }
    *changes = list;
    Ok(())
}

/// Plans what the windows are told of a row that gets another box, if both boxes lie in the one that is noted, whose windows are
/// found already. Answers whether it did.
fn plan_near_row<const D: usize>(
    found: &[Row<D>],
    near: &Option<Rect<D>>,
    id: &i64,
    was: &Option<Rect<D>>,
    is: &Option<Rect<D>>,
    changes: &mut Vec<Change>,
) -> bool
    requires { stays was.now is.now ≡ false }
    ensures told { (s : ShadowLists D) → IsNear s near.now found.now → result ≡ true →
        changes.new.items ≡ row_changes (rows_by_id s) id.now was.now is.now }
    ensures capacity { vec_capacity changes.old ≤ vec_capacity changes.new }
{
    match near {
        Some(hull) if encloses(hull, was, is) => {
            changes.clear();
            list_row(changes, found, id, was, is).is_ok()
        }
        _ => false,
    }
}

/// Plans what a window is told that gets another box, by one search of the box around both boxes.
fn plan_close_window<const D: usize>(
    rows: &Tree<D>,
    hull: &Rect<D>,
    window: &i64,
    was: &Option<Rect<D>>,
    is: &Option<Rect<D>>,
    scratch: &mut Scratch<D>,
    changes: &mut Vec<Change>,
) -> Result<(), AllocError>
    requires { Encloses was.now is.now hull.now }
    ensures told { OnOk result (changes.new.items ≡
        window_changes (rows_by_id rows.now.lists) window.now was.now is.now) }
    ensures grows { Grows scratch.old scratch.new }
    ensures capacity { vec_capacity changes.old ≤ vec_capacity changes.new }
{
    hull.facts();
    find_told(rows, hull, was, is, scratch)?;
    changes.clear();
    list_window(changes, scratch.found.as_slice(), window, was, is)
}

/// Plans what a window is told that moves along one axis, by a search of each strip: what stays in the window isn't looked at.
fn plan_strips<const D: usize>(
    rows: &Tree<D>,
    strips: &Strips<D>,
    window: &i64,
    was: &Option<Rect<D>>,
    is: &Option<Rect<D>>,
    scratch: &mut Scratch<D>,
    changes: &mut Vec<Change>,
) -> Result<(), AllocError>
    requires { CoversTold D was.now is.now strips.now.low strips.now.high }
    ensures told { OnOk result (changes.new.items ≡
        window_changes (rows_by_id rows.now.lists) window.now was.now is.now) }
    ensures grows { Grows scratch.old scratch.new }
    ensures capacity { vec_capacity changes.old ≤ vec_capacity changes.new }
{
    // There are one to three axes.
    strips.low.facts();
    rows.has_boxes();
    rows.is_in_shape();
    find_either(rows, &Some(strips.low), &Some(strips.high), scratch)?;
    changes.clear();
    list_window(changes, scratch.found.as_slice(), window, was, is)
}

/// Plans what a window is told that gets another box, by searches of thin strips, or by one search if the boxes are close.
/// Answers whether it did.
fn plan_window_at_once<const D: usize>(
    rows: &Tree<D>,
    window: &i64,
    was: &Option<Rect<D>>,
    is: &Option<Rect<D>>,
    scratch: &mut Scratch<D>,
    changes: &mut Vec<Change>,
) -> bool
    requires { D ≤ 3 }
    ensures told { result ≡ true →
        changes.new.items ≡ window_changes (rows_by_id rows.now.lists) window.now was.now is.now }
    ensures grows { Grows scratch.old scratch.new }
    ensures capacity { vec_capacity changes.old ≤ vec_capacity changes.new }
{
    if let Some(strips) = strips_between(was, is) {
        return plan_strips(rows, &strips, window, was, is, scratch, changes).is_ok();
    }
    match hull_of(was, is, 0) {
        Some(hull) => plan_close_window(rows, &hull, window, was, is, scratch, changes).is_ok(),
        None => false,
    }
}

/// Plans what the windows are told of a row that gets another box. Of the windows, those are looked at that touch one of
/// the boxes, or the box around both if they are close; those that touch `near` are found already.
pub(crate) fn plan_row<const D: usize>(
    windows: &Tree<D>,
    least: u32,
    id: &i64,
    was: &Option<Rect<D>>,
    is: &Option<Rect<D>>,
    near: &mut Option<Rect<D>>,
    scratch: &mut Scratch<D>,
    changes: &mut Vec<Change>,
) -> Result<(), AllocError>
    requires few { D ≤ 3 }
    requires near { IsNear windows.now.lists near.old scratch.old.last.items }
    requires moves { stays was.now is.now ≡ false }
    ensures told { OnOk result (changes.new.items ≡ row_changes (rows_by_id windows.now.lists) id.now was.now is.now) }
    ensures succeeds { HasRoomAround windows.now.lists was.now is.now scratch.old →
        around was.now is.now (rows_by_id windows.now.lists) ≤ vec_capacity changes.old → IsOk result }
    ensures near { IsNear windows.now.lists near.new scratch.new.last.items }
    ensures grows { Grows scratch.old scratch.new }
    ensures capacity { vec_capacity changes.old ≤ vec_capacity changes.new }
{
    if plan_near_row(scratch.last.as_slice(), near, id, was, is, changes) {
        return Ok(());
    }
    find_near(windows, least, was, is, near, scratch);
    if plan_near_row(scratch.last.as_slice(), near, id, was, is, changes) {
        return Ok(());
    }
    *near = None;
    // Where no memory is left, there may be room for the windows around the two boxes alone.
    find_either(windows, was, is, scratch)?;
    changes.clear();
    list_row(changes, scratch.found.as_slice(), id, was, is)
}

/// Plans what a window is told that gets another box. Of the rows, those are looked at that touch one of two thin strips if it
/// moves along one axis, the box around both boxes if they are close, or else one of the boxes.
pub(crate) fn plan_window<const D: usize>(
    rows: &Tree<D>,
    window: &i64,
    was: &Option<Rect<D>>,
    is: &Option<Rect<D>>,
    scratch: &mut Scratch<D>,
    changes: &mut Vec<Change>,
) -> Result<(), AllocError>
    requires { D ≤ 3 }
    ensures told { OnOk result (changes.new.items ≡
        window_changes (rows_by_id rows.now.lists) window.now was.now is.now) }
    ensures succeeds { HasRoomAround rows.now.lists was.now is.now scratch.old →
        around was.now is.now (rows_by_id rows.now.lists) ≤ vec_capacity changes.old → IsOk result }
    ensures grows { Grows scratch.old scratch.new }
    ensures capacity { vec_capacity changes.old ≤ vec_capacity changes.new }
{
    if plan_window_at_once(rows, window, was, is, scratch, changes) {
        return Ok(());
    }
    find_either(rows, was, is, scratch)?;
    changes.clear();
    list_window(changes, scratch.found.as_slice(), window, was, is)
}
