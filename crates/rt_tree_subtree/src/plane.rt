//! The cell whose area grows least, if boxes have one axis or two.
//!
//! Areas have 64 bits then, and no side of a box is negative. So a cell takes half the steps of its cost in full
//! (`growths` in `specs/Costs.antt`).

ghost use Rattle.std.specs.Prelude.{◌≡◌, ◌^◌, ◌<◌, ◌≤◌, ◌≤ℤ◌, ◌↔◌, length, IsTrue, false};
ghost use Rattle.rt_box.specs.Interval.{side};
ghost use Rattle.rt_box.specs.Rect.{area};
ghost use Rattle.rt_box.specs.Keys.{Less};
ghost use Rattle.rt_tree_subtree.specs.Subtree.{IsBestChild};
ghost use Rattle.rt_tree_subtree.specs.Costs.{growth_numbers, growths};

use rt_box::{Interval, Rect};

/// By how much a cell's area grows if it takes in the new box, and how large it was.
#[derive(Clone, Copy, Debug, PartialEq, Eq)]
struct Growth {
    enlargement: u64,
    area: u64,
}

/// The length of a side of a box.
#[inline]
fn length_of(range: Interval) -> u64
    requires { range.lo ≤ℤ range.hi }
    ensures value { result ≡ side range }
    ensures bound { result < 2 ^ 32 }
{
    u64::from((i64::from(range.hi) - i64::from(range.lo)) as u32)
}

/// The product of the sides.
#[inline]
fn area_of<const D: usize>(rect: &Rect<D>) -> u64
    requires { D ≤ 2 }
    ensures { result ≡ area rect.now }
{
    rect.facts();
    let first = length_of(rect.range(0));
    if rect.axes() == 1 {
        return first;
    }
    first * length_of(rect.range(1))
}

/// How much the area of the cell at `position` grows if it takes in the new box.
#[inline]
fn growth_of<const D: usize>(boxes: &[Rect<D>], position: usize, new_box: &Rect<D>) -> Growth
    requires plane { D ≤ 2 }
    requires within { position < length boxes.now }
    ensures { growth_numbers result ≡ growths boxes.now new_box.now position }
{
    let rect = &boxes[position];
    rect.facts();
    new_box.facts();
    let area = area_of(rect);
    let widened = area_of(&rect.union(new_box));
    Growth {
        enlargement: widened - area,
        area,
    }
}

/// Whether the first growth is less: by the enlargement, then by the area.
#[inline]
fn is_less(growth: &Growth, other: &Growth) -> bool
    ensures { IsTrue result ↔ Less (growth_numbers growth.now) (growth_numbers other.now) }
{
    // Nearly every cell grows more than the best so far.
    if growth.enlargement > other.enlargement {
        return false;
    }
    growth.enlargement < other.enlargement || growth.area < other.area
}

// By itself, so that the new box stays in registers.

/// The position of the cell whose area grows least; of those the one of least area, and of those the first.
#[inline(never)]
pub(super) fn least_growth<const D: usize>(boxes: &[Rect<D>], new_box: &Rect<D>) -> usize
    requires plane { D ≤ 2 }
    requires some { 0 < length boxes.now }
    ensures { IsBestChild false boxes.now new_box.now result }
{
    let mut best = 0;
    let mut least = growth_of(boxes, 0, new_box);
    for position in 1..boxes.len() {
        let growth = growth_of(boxes, position, new_box);
        if is_less(&growth, &least) {
            best = position;
            least = growth;
        }
    }
    best
}
