//! The cell of a node that a new box goes into.
//!
//! If the children are leaves, overlap counts first. The search begins with a likely cell and gives up each other one as
//! soon as it costs more; the choice is that of the costs in full (`specs/Subtree.antt`).

ghost use Rattle.std.specs.Prelude.{◌≡◌, ◌+◌, ◌*◌, ◌^◌, ◌<◌, ◌≤◌, ◌≢◌, ◌↔◌, length, sum_by, IsTrue, IfSome, MatchOption, true, false};
ghost use Rattle.rt_box.specs.Capacity.{most_cells};
ghost use Rattle.rt_box.specs.Rect.{area, overlap, union_box, Holds};
ghost use Rattle.rt_box.specs.Boxes.{box_at};
ghost use Rattle.rt_box.specs.Keys.{Less};
ghost use Rattle.rt_tree_subtree.specs.Subtree.{overlap_enlargement, area_enlargement, IsBestChild};
ghost use Rattle.rt_tree_subtree.specs.Costs.{numbers, costs, IsGrowthWithin};

use crate::holder::{holders_stay, least_holder};
use crate::plane::least_growth;
use rt_box::Rect;

/// What a cell costs that takes in the new box.
#[derive(Clone, Copy, Debug, PartialEq, Eq)]
struct Cost {
    overlap: u128,
    enlargement: u128,
    area: u128,
}

/// Whether the first cost is less: by the overlap, then by the enlargement, then by the area.
fn is_less(cost: &Cost, other: &Cost) -> bool
    ensures { IsTrue result ↔ Less (numbers cost.now) (numbers other.now) }
{
    if cost.overlap != other.overlap {
        cost.overlap < other.overlap
    } else if cost.enlargement != other.enlargement {
        cost.enlargement < other.enlargement
    } else {
        cost.area < other.area
    }
}

/// By how much the areas that a cell has in common with `others` grow in all if its box is widened.
fn common_growth<const D: usize>(others: &[Rect<D>], own: &Rect<D>, widened: &Rect<D>) -> u128
    requires wider { Holds widened.now own.now }
    requires few { length others.now ≤ most_cells }
    ensures value { result + sum_by (overlap own.now) others.now ≡ sum_by (overlap widened.now) others.now }
    ensures bound { result ≤ length others.now * 2 ^ 96 }
{
    let mut growth = 0;
    for other in others {
        let common = widened.overlap(other);
        if common == 0 {
            continue; // as with most of them
        }
        growth += common - own.overlap(other);
    }
    growth
}

/// By how much the overlap of the cell at `position` grows if it takes in the new box.
fn overlap_growth<const D: usize>(boxes: &[Rect<D>], position: usize, new_box: &Rect<D>) -> u128
    requires within { position < length boxes.now }
    requires few { length boxes.now ≤ most_cells }
    ensures { result ≡ overlap_enlargement boxes.now new_box.now position }
{
    let own = &boxes[position];
    own.facts();
    new_box.facts();
    let widened = own.union(new_box);
    common_growth(&boxes[..position], own, &widened)
        + common_growth(&boxes[position + 1..], own, &widened)
}

/// What it costs if the cell at `position` takes in the new box.
fn cost_of<const D: usize>(
    boxes: &[Rect<D>],
    above_leaves: bool,
    position: usize,
    new_box: &Rect<D>,
) -> Cost
    requires within { position < length boxes.now }
    requires few { length boxes.now ≤ most_cells }
    ensures { numbers result ≡ costs above_leaves boxes.now new_box.now position }
{
    Cost {
        overlap: if above_leaves {
            overlap_growth(boxes, position, new_box)
        } else {
            0
        },
        enlargement: boxes[position].enlargement(new_box),
        area: boxes[position].area(),
    }
}

/// The position of the cell with the least cost, with every cell's cost in full.
pub(super) fn least_cost<const D: usize>(
    boxes: &[Rect<D>],
    above_leaves: bool,
    new_box: &Rect<D>,
) -> usize
    requires some { 0 < length boxes.now }
    requires few { length boxes.now ≤ most_cells }
    ensures { IsBestChild above_leaves boxes.now new_box.now result }
{
    let mut best = 0;
    let mut least = cost_of(boxes, above_leaves, 0, new_box);
    for position in 1..boxes.len() {
        let cost = cost_of(boxes, above_leaves, position, new_box);
        if is_less(&cost, &least) {
            best = position;
            least = cost;
        }
    }
    best
}

/// The position of the cell whose area grows least.
fn least_enlargement<const D: usize>(boxes: &[Rect<D>], new_box: &Rect<D>) -> usize
    requires some { 0 < length boxes.now }
    requires few { length boxes.now ≤ most_cells }
    ensures { IsBestChild false boxes.now new_box.now result }
{
    // Mostly some cell holds the new box.
    if holders_stay(boxes, new_box) {
        if let Some(best) = least_holder(boxes, new_box) {
            return best;
        }
    }
    if D <= 2 {
        least_growth(boxes, new_box)
    } else {
        least_cost(boxes, false, new_box)
    }
}

/// The growth as `common_growth` gives it, or `None` if it is above the limit. No term is negative, so the sum is above
/// it as soon as a part is.
fn common_growth_within<const D: usize>(
    others: &[Rect<D>],
    own: &Rect<D>,
    widened: &Rect<D>,
    limit: u128,
) -> Option<u128>
    requires { Holds widened.now own.now }
    ensures { MatchOption result
        (limit + sum_by (overlap own.now) others.now < sum_by (overlap widened.now) others.now)
        (λ growth. IsGrowthWithin others.now own.now widened.now limit growth) }
{
    let mut growth = 0;
    for other in others {
        let common = widened.overlap(other);
        if common == 0 {
            continue;
        }
        let grown = common - own.overlap(other);
        if grown > limit - growth {
            return None;
        }
        growth += grown;
    }
    Some(growth)
}

/// The growth as `overlap_growth` gives it, or `None` if it is above the limit. Often the part of `near`, a cell close to
/// the new box, is above it alone.
fn overlap_growth_within<const D: usize>(
    boxes: &[Rect<D>],
    position: usize,
    near: usize,
    new_box: &Rect<D>,
    limit: u128,
) -> Option<u128>
    requires within { position < length boxes.now }
    requires near_in { near < length boxes.now }
    requires other { near ≢ position }
    ensures { MatchOption result
        (limit < overlap_enlargement boxes.now new_box.now position)
        (λ growth. growth ≡ overlap_enlargement boxes.now new_box.now position) }
{
    let own = &boxes[position];
    own.facts();
    new_box.facts();
    let widened = own.union(new_box);
    let neighbour = &boxes[near];
    if widened.overlap(neighbour) - own.overlap(neighbour) > limit {
        return None;
    }
    let before = common_growth_within(&boxes[..position], own, &widened, limit)?;
    let after = common_growth_within(&boxes[position + 1..], own, &widened, limit - before)?;
    Some(before + after)
}

/// The position of the cell whose overlap grows least. The cell whose area grows least comes first, and is the answer if
/// its overlap doesn't grow. Each other cell is given up as soon as its overlap grows more than that of the best so far.
fn least_overlap_growth<const D: usize>(boxes: &[Rect<D>], new_box: &Rect<D>) -> usize
    requires some { 0 < length boxes.now }
    requires few { length boxes.now ≤ most_cells }
    ensures { IsBestChild true boxes.now new_box.now result }
{
    let start = least_enlargement(boxes, new_box);
    if boxes[start].contains(new_box) {
        return start; // it doesn't grow at all
    }
    let mut best = start;
    let mut least = cost_of(boxes, true, start, new_box);
    if least.overlap == 0 {
        return start;
    }
    for position in 0..boxes.len() {
        if position == best {
            continue;
        }
        if let Some(overlap) = overlap_growth_within(
            boxes,
            position,
            best,
            new_box,
            least.overlap,
        ) {
            let cost = Cost {
                overlap,
                enlargement: boxes[position].enlargement(new_box),
                area: boxes[position].area(),
            };
            if is_less(&cost, &least) {
                best = position;
                least = cost;
            }
        }
    }
    best
}

/// The position of the cell that the new box goes into. If the children are leaves, it is the one whose overlap with the
/// other cells grows least, and of those, or elsewhere, the one whose area grows least; of those the one of least area,
/// and of those the first (Beckmann, Kriegel, Schneider, Seeger 1990, section 4.1).
///
/// ```
/// // the flat cell needs the smaller area, but the tall one doesn't grow into its neighbour
/// let flat = Rect::new([0, 0], [4, 1]).ok_or("no box")?;
/// let tall = Rect::new([5, 0], [6, 100]).ok_or("no box")?;
/// let point = Rect::new([7, 1], [7, 1]).ok_or("no box")?;
/// let above_leaves = choose_subtree(&[flat, tall], true, &point); // 1
/// let elsewhere = choose_subtree(&[flat, tall], false, &point); // 0
/// ```
pub fn choose_subtree<const D: usize>(
    boxes: &[Rect<D>],
    above_leaves: bool,
    new_box: &Rect<D>,
) -> usize
    requires some { 0 < length boxes.now }
    requires few { length boxes.now ≤ most_cells }
    ensures { IsBestChild above_leaves boxes.now new_box.now result }
{
    if above_leaves {
        least_overlap_growth(boxes, new_box)
    } else {
        least_enlargement(boxes, new_box)
    }
}
