//! The rows of a tree that are nearest to a point or a box.

ghost use Rattle.std.specs.Prelude.{◌≡◌, IfOk};
ghost use Rattle.rt_tree.specs.Lists.{rows_of};
ghost use Rattle.rt_tree_nearest.specs.Nearest.{nearest_rows, rows_within, nearest_rows_to};

use rt_box::Rect;
use rt_tree::{Row, Tree};
use std::alloc::{AllocError, Global};

/// The `k` rows whose boxes are nearest to the point, by squared distance and then by id; all rows if there are fewer. A
/// point in a box, or on its edge, has the distance 0.
///
/// What is nearest is looked at first, so a search for few rows goes into few nodes.
///
/// # Errors
///
/// `AllocError` if no memory is left for what is returned or seen.
pub fn nearest<const D: usize>(
    alloc: Global,
    tree: &Tree<D>,
    point: &[i32; D],
    k: usize,
) -> Result<Vec<Row<D>>, AllocError>
    ensures { IfOk result (λ rows. rows.items ≡ nearest_rows point.now k (rows_of tree.now.lists)) }
{
    rt_tree_nearest::nearest(alloc, tree.arena(), point, k)
}

/// Of the rows whose boxes are within the distance of the point, the `k` nearest, in the order of `nearest`. The distance
/// is in the unit of coordinates; a row is within it if the squared distance is at most its square.
///
/// # Errors
///
/// `AllocError` if no memory is left for what is returned or seen.
pub fn within<const D: usize>(
    alloc: Global,
    tree: &Tree<D>,
    point: &[i32; D],
    distance: u64,
    k: usize,
) -> Result<Vec<Row<D>>, AllocError>
    ensures { IfOk result (λ rows. rows.items ≡ rows_within point.now distance k (rows_of tree.now.lists)) }
{
    rt_tree_nearest::within(alloc, tree.arena(), point, distance, k)
}

/// The `k` rows whose boxes are nearest to the box, by squared distance and then by id; all rows if there are fewer. Boxes
/// that have a point in common have the distance 0.
///
/// # Errors
///
/// `AllocError` if no memory is left for what is returned or seen.
pub fn nearest_to<const D: usize>(
    alloc: Global,
    tree: &Tree<D>,
    rect: &Rect<D>,
    k: usize,
) -> Result<Vec<Row<D>>, AllocError>
    ensures { IfOk result (λ rows. rows.items ≡ nearest_rows_to rect.now k (rows_of tree.now.lists)) }
{
    rt_tree_nearest::nearest_to(alloc, tree.arena(), rect, k)
}
