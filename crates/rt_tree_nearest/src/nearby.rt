//! The calls: what is near to a point or to a box.

ghost use Rattle.std.specs.Prelude.{◌≡◌, ◌≤◌, [], IfOk};
ghost use Rattle.rt_tree_node.specs.Whole.{IsWhole};
ghost use Rattle.rt_tree_walk.specs.Rows.{rows_in};
ghost use Rattle.rt_tree_nearest.specs.Nearest.{nearest_rows, rows_within, nearest_rows_to, box_at};

use crate::browse::find;
use crate::query::Query;
use rt_box::Rect;
use rt_tree_node::Arena;
use rt_tree_walk::Row;
use std::alloc::{AllocError, Global};

/// The box that has the point alone.
fn box_of<const D: usize>(point: &[i32; D]) -> Rect<D>
    requires some { 1 ≤ D }
    requires few { D ≤ 3 }
    ensures { result ≡ box_at point.now }
{
    Rect::new(*point, *point).unwrap()
}

/// The `k` rows whose boxes are nearest to the point, by squared distance and then by id; all rows if there are fewer. A
/// point in a box, or on its edge, has the distance 0.
///
/// What is nearest is looked at first, so a search for few rows goes into few nodes.
///
/// # Errors
///
/// `AllocError` if no memory is left for what is returned or seen.
pub fn nearest<const D: usize>(
    alloc: Global,
    tree: &Arena<D>,
    point: &[i32; D],
    k: usize,
) -> Result<Vec<Row<D>>, AllocError>
    requires whole { IsWhole tree.now }
    requires settled { tree.now.pending.items ≡ [] }
    requires some { 1 ≤ D }
    requires few { D ≤ 3 }
    ensures { IfOk result (λ rows. rows.items ≡ nearest_rows point.now k (rows_in tree.now)) }
{
    nearest_to(alloc, tree, &box_of(point), k)
}

/// Of the rows whose boxes are within the distance of the point, the `k` nearest, in the order of `nearest`. The distance is
/// in the unit of coordinates; a row is within it if the squared distance is at most its square.
///
/// # Errors
///
/// `AllocError` if no memory is left for what is returned or seen.
pub fn within<const D: usize>(
    alloc: Global,
    tree: &Arena<D>,
    point: &[i32; D],
    distance: u64,
    k: usize,
) -> Result<Vec<Row<D>>, AllocError>
    requires whole { IsWhole tree.now }
    requires settled { tree.now.pending.items ≡ [] }
    requires some { 1 ≤ D }
    requires few { D ≤ 3 }
    ensures { IfOk result (λ rows. rows.items ≡ rows_within point.now distance k (rows_in tree.now)) }
{
    let reach = u128::from(distance);
    let limit = reach * reach;
    let target = box_of(point);
    find(alloc, tree, &Query::new(&target, k, limit))
}

/// The `k` rows whose boxes are nearest to the box, by squared distance and then by id; all rows if there are fewer. Boxes
/// that have a point in common have the distance 0.
///
/// # Errors
///
/// `AllocError` if no memory is left for what is returned or seen.
pub fn nearest_to<const D: usize>(
    alloc: Global,
    tree: &Arena<D>,
    rect: &Rect<D>,
    k: usize,
) -> Result<Vec<Row<D>>, AllocError>
    requires whole { IsWhole tree.now }
    requires settled { tree.now.pending.items ≡ [] }
    requires few { D ≤ 3 }
    ensures { IfOk result (λ rows. rows.items ≡ nearest_rows_to rect.now k (rows_in tree.now)) }
{
    find(alloc, tree, &Query::new(rect, k, u128::MAX))
}
