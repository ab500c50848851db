//! The rows of a tree that touch a box, or one of two, by rising id.
//!
//! Mostly one search of the box around both boxes does (`find_around`, `find_told`). `find_either` searches for each: of a window's
//! two strips, of boxes that are far apart, and where memory is short, since it needs room for no other rows.

ghost use Rattle.std.specs.Prelude.{◌≡◌, ◌+◌, ◌<◌, ◌≤◌, ◌++◌, [], Some, length, vec_capacity, IsOk, OnOk, OnErr};
ghost use Rattle.std.specs.List.{filter};
ghost use Rattle.rt_tree.specs.Lists.{rows_of};
ghost use Rattle.rt_live.specs.Rows.{rows_by_id};
ghost use Rattle.rt_live.specs.Finding.{is_apart, touches_hull, is_told, rows_around, Appends, AppendsNew, Encloses};
ghost use Rattle.rt_live.specs.Room.{HasRoomToAppend, HasRoomAround, Grows};

use crate::change::told_of_window;
use crate::touching::{is_touched, touching};
use rt_box::Rect;
use rt_tree::{Reached, Row, Tree};
use rt_tree_sort::sort_by_id;
use std::alloc::AllocError;

/// Lists that are kept between searches, so that few searches take memory.
#[derive(Drop)]
pub(crate) struct Scratch<const D: usize> {
    /// What was found.
    pub(crate) found: Vec<Row<D>>,
    /// What the last search found.
    pub(crate) last: Vec<Row<D>>,
    /// The nodes that the last search reached.
    pub(crate) reached: Vec<Reached>,
}

/// Appends those of the rows that don't touch the box.
fn push_apart<const D: usize>(
    found: &mut Vec<Row<D>>,
    rows: &[Row<D>],
    except: &Option<Rect<D>>,
) -> Result<(), AllocError>
    ensures rows { OnOk result (found.new.items ≡ found.old.items ++ filter (is_apart except.now) rows.now) }
    ensures full { OnErr result
        (vec_capacity found.old < length found.old.items + length (filter (is_apart except.now) rows.now)) }
    ensures capacity { vec_capacity found.old ≤ vec_capacity found.new }
{
    for row in rows {
        if !is_touched(except, &row.rect) {
            found.push(*row)?;
        }
    }
    Ok(())
}

/// Appends the rows of a tree that touch the one box and not the other.
fn append_touching<const D: usize>(
    tree: &Tree<D>,
    rect: &Rect<D>,
    except: &Option<Rect<D>>,
    scratch: &mut Scratch<D>,
) -> Result<(), AllocError>
    ensures rows { OnOk result (AppendsNew tree.now.lists (Some rect.now) except.now scratch.old scratch.new) }
    ensures succeeds { HasRoomToAppend tree.now.lists (Some rect.now) except.now scratch.old → IsOk result }
    ensures grows { Grows scratch.old scratch.new }
{
    // There are one to three axes.
    rect.facts();
    tree.has_boxes();
    scratch.last.clear();
    let _ = tree.search_into(&touching(rect), &mut scratch.last, &mut scratch.reached)?;
    push_apart(&mut scratch.found, scratch.last.as_slice(), except)
}

/// Appends the rows of a tree that touch a box, if it is there, and not the other one.
fn append_there<const D: usize>(
    tree: &Tree<D>,
    rect: &Option<Rect<D>>,
    except: &Option<Rect<D>>,
    scratch: &mut Scratch<D>,
) -> Result<(), AllocError>
    ensures rows { OnOk result (AppendsNew tree.now.lists rect.now except.now scratch.old scratch.new) }
    ensures succeeds { HasRoomToAppend tree.now.lists rect.now except.now scratch.old → IsOk result }
    ensures grows { Grows scratch.old scratch.new }
{
    match rect {
        Some(rect) => append_touching(tree, rect, except, scratch),
        None => Ok(()),
    }
}

/// Finds the rows of a tree that touch a box, in no stated order.
fn search_hull<const D: usize>(
    tree: &Tree<D>,
    hull: &Rect<D>,
    scratch: &mut Scratch<D>,
) -> Result<(), AllocError>
    ensures rows { OnOk result (Appends (rows_of tree.now.lists) (touches_hull hull.now) [] scratch.new.last.items) }
    ensures grows { Grows scratch.old scratch.new }
{
    hull.facts();
    tree.has_boxes();
    scratch.last.clear();
    let _ = tree.search_into(&touching(hull), &mut scratch.last, &mut scratch.reached)?;
    Ok(())
}

/// Finds the rows of a tree that touch a box, by rising id.
pub(crate) fn find_around<const D: usize>(
    tree: &Tree<D>,
    hull: &Rect<D>,
    scratch: &mut Scratch<D>,
) -> Result<(), AllocError>
    ensures rows { OnOk result (scratch.new.last.items ≡ filter (touches_hull hull.now) (rows_by_id tree.now.lists)) }
    ensures grows { Grows scratch.old scratch.new }
{
    // There are one to three axes.
    hull.facts();
    tree.is_in_shape();
    search_hull(tree, hull, scratch)?;
    sort_by_id(&mut scratch.last);
    Ok(())
}

/// Appends those of the rows of which a window is told that had the one box and has the other.
fn push_rows_told<const D: usize>(
    found: &mut Vec<Row<D>>,
    rows: &[Row<D>],
    was: &Option<Rect<D>>,
    is: &Option<Rect<D>>,
) -> Result<(), AllocError>
    ensures rows { OnOk result (found.new.items ≡ found.old.items ++ filter (is_told was.now is.now) rows.now) }
    ensures capacity { vec_capacity found.old ≤ vec_capacity found.new }
{
    for row in rows {
        let was_in = is_touched(was, &row.rect);
        let is_in = is_touched(is, &row.rect);
        if told_of_window(was_in, is_in).is_some() {
            found.push(*row)?;
        }
    }
    Ok(())
}

/// Finds the rows of a tree of which a window is told that had the one box and has the other, by rising id. The box around
/// both is searched once, and only what is told is sorted.
pub(crate) fn find_told<const D: usize>(
    tree: &Tree<D>,
    hull: &Rect<D>,
    was: &Option<Rect<D>>,
    is: &Option<Rect<D>>,
    scratch: &mut Scratch<D>,
) -> Result<(), AllocError>
    requires { Encloses was.now is.now hull.now }
    ensures rows { OnOk result (scratch.new.found.items ≡ filter (is_told was.now is.now) (rows_by_id tree.now.lists)) }
    ensures grows { Grows scratch.old scratch.new }
{
    // There are one to three axes.
    hull.facts();
    tree.is_in_shape();
    search_hull(tree, hull, scratch)?;
    scratch.found.clear();
    push_rows_told(&mut scratch.found, scratch.last.as_slice(), was, is)?;
    sort_by_id(&mut scratch.found);
    Ok(())
}

/// Finds the rows of a tree that touch one of two boxes, by rising id. The tree is searched for each box that is there.
pub(crate) fn find_either<const D: usize>(
    tree: &Tree<D>,
    was: &Option<Rect<D>>,
    is: &Option<Rect<D>>,
    scratch: &mut Scratch<D>,
) -> Result<(), AllocError>
    requires { D ≤ 3 }
    ensures rows { OnOk result (scratch.new.found.items ≡ rows_around tree.now.lists was.now is.now) }
    ensures succeeds { HasRoomAround tree.now.lists was.now is.now scratch.old → IsOk result }
    ensures grows { Grows scratch.old scratch.new }
{
    tree.is_in_shape();
    scratch.found.clear();
    append_there(tree, was, &None, scratch)?;
    append_there(tree, is, was, scratch)?;
    sort_by_id(&mut scratch.found);
    Ok(())
}
