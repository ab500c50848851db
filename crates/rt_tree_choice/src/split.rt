//! How the cells of an overfull node are cut into two groups.
//!
//! The axis is chosen first, by the sum of the margins over all of its cuts. Of its cuts the one is taken whose boxes have
//! the least area in common, and of those the one of least area in all (`specs/Split.antt`).

ghost use Rattle.std.specs.Prelude.{◌≡◌, ◌+◌, ◌*◌, ◌^◌, ◌<◌, ◌≤◌, ◌↔◌, length, IsTrue};
ghost use Rattle.rt_box.specs.Capacity.{least_fill, most_cells};
ghost use Rattle.rt_box.specs.Rect.{area, margin, overlap};
ghost use Rattle.rt_tree_choice.specs.Hull.{AreFronts, AreBacks};
ghost use Rattle.rt_box.specs.Keys.{Less};
ghost use Rattle.rt_tree_choice.specs.Split.{sorting, IsBestCut};
ghost use Rattle.rt_tree_choice.specs.Judgements.{quality_numbers, AreQualityOf, IsBestParting, IsJudgedSorting, IsJudgedAxis};

use super::hulls::{back_hulls, front_hulls};
use super::sort::sorted_positions;
use rt_box::{Capacity, Rect};

/// How a node's cells are cut into two groups: sorted along an axis, by the lower ends of their boxes or by
/// the upper ones, and parted after the first few.
#[derive(Clone, Copy, Debug, PartialEq, Eq)]
pub struct Cut {
    /// The axis, from 0.
    pub axis: usize,
    /// Whether the cells are sorted by the upper ends first.
    pub upper: bool,
    /// The number of cells in the first group.
    pub first: usize,
}

/// What the cuts of an axis are compared by.
#[derive(Clone, Copy, Debug, PartialEq, Eq)]
struct Quality {
    common: u128,
    total: u128,
}

/// The best cut of a sorting, and the sum of the margins over all of its cuts.
#[derive(Clone, Copy, Debug, PartialEq, Eq)]
struct Parting {
    margins: u64,
    quality: Quality,
    first: usize,
}

/// The best cut of an axis, and the sum of the margins over all of its cuts.
#[derive(Clone, Copy, Debug, PartialEq, Eq)]
struct Judgement {
    margins: u64,
    cut: Cut,
}

/// Whether the first is the better one: by the common area, then by the sum of the areas.
fn is_better(quality: &Quality, other: &Quality) -> bool
    ensures { IsTrue result ↔ Less (quality_numbers quality.now) (quality_numbers other.now) }
{
    if quality.common != other.common {
        quality.common < other.common
    } else {
        quality.total < other.total
    }
}

fn quality_of<const D: usize>(front: &Rect<D>, back: &Rect<D>) -> Quality
    ensures { AreQualityOf front.now back.now result }
{
    Quality {
        common: front.overlap(back),
        total: front.area() + back.area(),
    }
}

/// The best cut of sorted cells into groups of at least `least`, by the hulls around their prefixes and suffixes.
fn best_parting<const D: usize>(
    fronts: &[Rect<D>],
    backs: &[Rect<D>],
    least: usize,
    cells: usize,
) -> Parting
    requires some { 0 < least }
    requires room { 2 * least ≤ cells }
    requires few { cells ≤ most_cells }
    requires fronts_long { cells ≤ length fronts.now }
    requires backs_long { cells ≤ length backs.now }
    ensures { IsBestParting fronts.now backs.now least cells result }
{
    let mut margins = fronts[least - 1].margin() + backs[least].margin();
    let mut quality = quality_of(&fronts[least - 1], &backs[least]);
    let mut best = least;
    for first in least + 1..cells + 1 - least {
        let (front, back) = (&fronts[first - 1], &backs[first]);
        margins += front.margin() + back.margin();
        let other = quality_of(front, back);
        if is_better(&other, &quality) {
            quality = other;
            best = first;
        }
    }
    Parting {
        margins,
        quality,
        first: best,
    }
}

/// The best cut of a sorting.
fn best_of_sorting<const D: usize>(
    boxes: &[Rect<D>],
    capacity: Capacity,
    axis: usize,
    upper: bool,
) -> Parting
    requires axis_in { axis < D }
    requires full { length boxes.now ≡ capacity + 1 }
    ensures { IsJudgedSorting boxes.now capacity axis upper result }
{
    boxes[0].facts();
    let least = capacity.least();
    let order = sorted_positions(boxes, axis, upper);
    let fronts = front_hulls(boxes, order.as_slice());
    let backs = back_hulls(boxes, order.as_slice());
    best_parting(&fronts, &backs, least, boxes.len())
}

/// The best cut of an axis, in either of its sortings.
fn best_of_axis<const D: usize>(boxes: &[Rect<D>], capacity: Capacity, axis: usize) -> Judgement
    requires axis_in { axis < D }
    requires full { length boxes.now ≡ capacity + 1 }
    ensures { IsJudgedAxis boxes.now capacity axis result }
{
    let lower = best_of_sorting(boxes, capacity, axis, false);
    let upper = best_of_sorting(boxes, capacity, axis, true);
    let by_upper = is_better(&upper.quality, &lower.quality);
    Judgement {
        margins: lower.margins + upper.margins,
        cut: Cut {
            axis,
            upper: by_upper,
            first: if by_upper { upper.first } else { lower.first },
        },
    }
}

/// How the cells of an overfull node are cut into two groups: along the axis with the least sum of margins over
/// all of its cuts, the cut whose groups have the least area in common, and of those the one with the least
/// areas (Beckmann, Kriegel, Schneider, Seeger 1990, section 4.2). Each group has at least the least number of
/// cells. Ties: the lowest axis, the sorting by the lower ends, the smallest first group.
///
/// ```
/// // `boxes`: the points 0, 1, 2, 10, 11 and 12 of a line
/// let capacity = Capacity::new(5).ok_or("no capacity")?;
/// let cut = choose_split(&boxes, capacity); // axis 0, by the lower ends, the first 3
/// let order = sorted_positions(&boxes, cut.axis, cut.upper);
/// let (first, second) = order.as_slice().split_at(cut.first); // 0, 1, 2 and 3, 4, 5
/// ```
pub fn choose_split<const D: usize>(boxes: &[Rect<D>], capacity: Capacity) -> Cut
    requires { length boxes.now ≡ capacity + 1 }
    ensures { IsBestCut D boxes.now capacity result }
{
    let axes = boxes[0].axes();
    let mut best = best_of_axis(boxes, capacity, 0);
    for axis in 1..axes {
        let judged = best_of_axis(boxes, capacity, axis);
        if judged.margins < best.margins {
            best = judged;
        }
    }
    best.cut
}
