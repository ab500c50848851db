//! The two strips that a window leaves and reaches when it moves along one axis: whatever it is told of touches one of them.

ghost use Rattle.std.specs.Prelude.{◌≡◌, ◌<◌, Some, IfSome, set};
ghost use Rattle.rt_live.specs.Finding.{between, CoversTold};

use crate::touching::is_same;
use rt_box::{Interval, Rect};

/// Two strips: one around both lower ends of the axis, one around both upper ends.
#[derive(Clone, Copy)]
pub(crate) struct Strips<const D: usize> {
    pub(crate) low: Rect<D>,
    pub(crate) high: Rect<D>,
}

/// The box with another interval on one axis.
fn with_range<const D: usize>(rect: &Rect<D>, axis: usize, range: &Interval) -> Option<Rect<D>>
    requires { axis < D }
    ensures { IfSome result (λ other. other ≡ set rect.now axis range.now) }
{
    rect.facts();
    let (mut lo, mut hi) = (rect.lo(), rect.hi());
    lo[axis] = range.lo;
    hi[axis] = range.hi;
    Rect::new(lo, hi)
}

/// The interval between two ends.
fn between(end: i32, other: i32) -> Interval
    ensures { result ≡ between end other }
{
    Interval {
        lo: end.min(other),
        hi: end.max(other),
    }
}

/// Whether each strip is at most a quarter as long as the interval around both intervals. Otherwise, one search of the box
/// around both boxes looks at few more rows.
fn are_thin(was: &Interval, is: &Interval) -> bool {
    let around = was.hi.max(is.hi).abs_diff(was.lo.min(is.lo));
    let (low, high) = (was.lo.abs_diff(is.lo), was.hi.abs_diff(is.hi));
    low <= around / 4 && high <= around / 4
}

/// The strips of a window that moves along this axis, if they are thin.
fn strips_along<const D: usize>(was: &Rect<D>, is: &Rect<D>, axis: usize) -> Option<Strips<D>>
    requires { axis < D }
    ensures { IfSome result (λ strips. CoversTold D (Some was.now) (Some is.now) strips.low strips.high) }
{
    let (before, after) = (was.range(axis), is.range(axis));
    if !are_thin(&before, &after) {
        return None;
    }
    let moved = with_range(was, axis, &after)?;
    if !is_same(&moved, is) {
        return None;
    }
    let low = with_range(was, axis, &between(before.lo, after.lo))?;
    let high = with_range(was, axis, &between(before.hi, after.hi))?;
    Some(Strips { low, high })
}

/// The strips of a window that moves along one axis, if they are thin.
pub(crate) fn strips_between<const D: usize>(
    was: &Option<Rect<D>>,
    is: &Option<Rect<D>>,
) -> Option<Strips<D>>
    ensures { IfSome result (λ strips. CoversTold D was.now is.now strips.low strips.high) }
{
    let (Some(was), Some(is)) = (was, is) else {
        return None;
    };
    for axis in 0..D {
        let strips = strips_along(was, is, axis);
        if strips.is_some() {
            return strips;
        }
    }
    None
}
