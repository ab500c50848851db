//! The least boxes around the groups that each cut makes of some boxes.
//!
//! The groups of all cuts of an order take two passes, one over its prefixes and one over its suffixes
//! (`specs/Hull.antt`).

ghost use Rattle.std.specs.Prelude.{◌<◌, ◌≤◌, length, All};
ghost use Rattle.rt_box.specs.Capacity.{most_cells};
ghost use Rattle.rt_tree_choice.specs.Hull.{AreFronts, AreBacks};

use rt_box::{MOST_CELLS, Rect};

/// At each place the hull of the boxes in the order up to that place, that one included.
pub(super) fn front_hulls<const D: usize>(
    boxes: &[Rect<D>],
    order: &[usize],
) -> [Rect<D>; MOST_CELLS]
    requires some { 0 < length order.now }
    requires few { length order.now ≤ most_cells }
    requires within { All (λ position. position < length boxes.now) order.now }
    ensures { AreFronts boxes.now order.now result }
{
    let mut hull = boxes[order[0]];
    let mut hulls = [hull; MOST_CELLS];
    for place in 1..order.len() {
        hull = hull.union(&boxes[order[place]]);
        hulls[place] = hull;
    }
    hulls
}

/// At each place the hull of the boxes in the order from that place on.
pub(super) fn back_hulls<const D: usize>(
    boxes: &[Rect<D>],
    order: &[usize],
) -> [Rect<D>; MOST_CELLS]
    requires some { 0 < length order.now }
    requires few { length order.now ≤ most_cells }
    requires within { All (λ position. position < length boxes.now) order.now }
    ensures { AreBacks boxes.now order.now result }
{
    let last = order.len() - 1;
    let mut hull = boxes[order[last]];
    let mut hulls = [hull; MOST_CELLS];
    for back in 1..order.len() {
        let place = last - back;
        hull = boxes[order[place]].union(&hull);
        hulls[place] = hull;
    }
    hulls
}
