//! Distances between boxes.
//!
//! They are squared, so they are whole numbers; only their order matters (`specs/Nearest.antt`).

ghost use Rattle.std.specs.Prelude.{◌≡◌, ◌*◌, ◌^◌, ◌≤◌, ◌≤ℤ◌};
ghost use Rattle.rt_tree_nearest.specs.Nearest.{gap_between, box_distance};

use rt_box::{Interval, Rect};

/// How far apart the intervals are on an axis: 0 if they have a number in common.
fn gap(one: Interval, other: Interval) -> u32
    requires one { one.lo ≤ℤ one.hi }
    requires other { other.lo ≤ℤ other.hi }
    ensures { result ≡ gap_between one other }
{
    if other.hi < one.lo {
        one.lo.abs_diff(other.hi)
    } else if one.hi < other.lo {
        other.lo.abs_diff(one.hi)
    } else {
        0
    }
}

/// The number, squared. In 64 bits the product is one instruction.
fn square(number: u32) -> u128
    ensures value { result ≡ number * number }
    ensures bound { result ≤ 2 ^ 64 }
{
    u128::from(u64::from(number) * u64::from(number))
}

/// The squared distance between the boxes: 0 if they have a point in common.
#[inline]
pub(crate) fn squared_distance<const D: usize>(one: &Rect<D>, other: &Rect<D>) -> u128
    ensures { result ≡ box_distance one.now other.now }
{
    let mut distance: u128 = 0;
    for axis in 0..one.axes() {
        distance += square(gap(one.range(axis), other.range(axis)));
    }
    distance
}

/// The sum of the gaps between the boxes on all axes: what is far by it is likely to be far.
#[inline]
pub(crate) fn gaps<const D: usize>(one: &Rect<D>, other: &Rect<D>) -> u64 {
    let mut sum: u64 = 0;
    for axis in 0..one.axes() {
        sum = sum.saturating_add(u64::from(gap(one.range(axis), other.range(axis))));
    }
    sum
}
