//! The box around two boxes: where they are close, one search of it takes the place of a search for each of them.

ghost use Rattle.std.specs.Prelude.{◌≡◌, List, Some, IfSome, true};
ghost use Rattle.rt_box.specs.declared.interval.Interval.{Interval};
ghost use Rattle.rt_tree_join.specs.Join.{touch};
ghost use Rattle.rt_live.specs.Changes.{touches};
ghost use Rattle.rt_live.specs.Finding.{Encloses};

use rt_box::{Interval, Rect};
use rt_tree::Tree;

/// The length of an interval.
fn length_of(range: &Interval) -> u32 {
    range.hi.abs_diff(range.lo)
}

/// Whether the interval around both is longer than the longer one by at most that one's length, or by at most `least`.
fn is_short_step(one: &Interval, other: &Interval, least: u32) -> bool {
    let longer = length_of(one).max(length_of(other));
    let around = one.hi.max(other.hi).abs_diff(one.lo.min(other.lo));
    around.saturating_sub(longer) <= longer.max(least)
}

/// Whether two boxes are so close that few rows touch the box around both and neither of them. No row is shorter than `least`
/// on any axis.
fn are_close<const D: usize>(rect: &Rect<D>, other: &Rect<D>, least: u32) -> bool {
    for axis in 0..D {
        if !is_short_step(&rect.range(axis), &other.range(axis), least) {
            return false;
        }
    }
    true
}

/// The box around two boxes that are close.
fn union_if_close<const D: usize>(rect: &Rect<D>, other: &Rect<D>, least: u32) -> Option<Rect<D>>
    ensures { IfSome result (Encloses (Some rect.now) (Some other.now)) }
{
    rect.facts();
    other.facts();
    if !are_close(rect, other, least) {
        return None;
    }
    Some(rect.union(other))
}

/// The box around those of two boxes that are there, unless they are far apart.
pub(crate) fn hull_of<const D: usize>(
    was: &Option<Rect<D>>,
    is: &Option<Rect<D>>,
    least: u32,
) -> Option<Rect<D>>
    ensures { IfSome result (Encloses was.now is.now) }
{
    match (was, is) {
        (Some(rect), Some(other)) => union_if_close(rect, other, least),
        (Some(rect), None) => Some(*rect),
        (None, Some(rect)) => Some(*rect),
        (None, None) => None,
    }
}

/// Whether a box, if it is there, lies in another.
fn holds<const D: usize>(hull: &Rect<D>, rect: &Option<Rect<D>>) -> bool
    ensures { result ≡ true → (other : List Interval) → touches rect.now other ≡ true → touch hull.now other ≡ true }
{
    match rect {
        Some(rect) => hull.contains(rect),
        None => true,
    }
}

/// Whether two boxes, if they are there, lie in another.
pub(crate) fn encloses<const D: usize>(
    hull: &Rect<D>,
    was: &Option<Rect<D>>,
    is: &Option<Rect<D>>,
) -> bool
    ensures { result ≡ true → Encloses was.now is.now hull.now }
{
    holds(hull, was) && holds(hull, is)
}

/// The shortest side of a box.
fn shortest_side<const D: usize>(rect: &Rect<D>) -> u32 {
    let mut least = u32::MAX;
    for axis in 0..D {
        least = least.min(length_of(&rect.range(axis)));
    }
    least
}

/// What no side of a window is shorter than once a window has that box, or none. Where there is no window, any length is.
pub(crate) fn least_side<const D: usize>(
    least: u32,
    windows: &Tree<D>,
    is: &Option<Rect<D>>,
) -> u32 {
    let least = if windows.len() == 0 { u32::MAX } else { least };
    match is {
        Some(rect) => least.min(shortest_side(rect)),
        None => least,
    }
}
