//! Whether boxes touch: they have a common point, be it on an edge.

ghost use Rattle.std.specs.Prelude.{◌≡◌};
ghost use Rattle.rt_tree_join.specs.Join.{meet, touch, IsTouching};
ghost use Rattle.rt_live.specs.Changes.{same_box, stays, touches};

use rt_box::{Interval, Operator, Rect, Window};

/// The window that admits the boxes that touch this one: on each axis they begin by its end, and end no sooner than it
/// begins.
pub(crate) fn touching<const D: usize>(rect: &Rect<D>) -> Window<D>
    ensures { IsTouching D rect.now result }
{
    rect.facts();
    let mut window = Window::all();
    for axis in 0..D {
        let range = rect.range(axis);
        window.narrow(2 * axis, Operator::Le, i64::from(range.hi));
        window.narrow(2 * axis + 1, Operator::Ge, i64::from(range.lo));
    }
    window
}

// Whether boxes touch can't be foreseen. So all ends are compared, with no branch.

/// Whether neither interval begins behind the other's end.
fn do_meet(one: &Interval, other: &Interval) -> bool
    ensures { result ≡ meet one.now other.now }
{
    (one.lo <= other.hi) & (other.lo <= one.hi)
}

/// Whether two boxes touch.
fn do_touch<const D: usize>(rect: &Rect<D>, other: &Rect<D>) -> bool
    ensures { result ≡ touch rect.now other.now }
{
    rect.facts();
    other.facts();
    let mut meets = true;
    for axis in 0..D {
        let (range, other_range) = (rect.range(axis), other.range(axis));
        meets = meets & do_meet(&range, &other_range);
    }
    meets
}

/// Whether a box is there and touches the other one.
pub(crate) fn is_touched<const D: usize>(rect: &Option<Rect<D>>, other: &Rect<D>) -> bool
    ensures { result ≡ touches rect.now other.now }
{
    match rect {
        Some(rect) => do_touch(rect, other),
        None => false,
    }
}

/// Whether two boxes are the same.
pub(crate) fn is_same<const D: usize>(rect: &Rect<D>, other: &Rect<D>) -> bool
    ensures { result ≡ same_box rect.now other.now }
{
    *rect == *other
}

/// Whether a box is the one that was there.
pub(crate) fn does_stay<const D: usize>(was: &Option<Rect<D>>, is: &Option<Rect<D>>) -> bool
    ensures { result ≡ stays was.now is.now }
{
    match (was, is) {
        (None, None) => true,
        (Some(rect), Some(other)) => is_same(rect, other),
        _ => false,
    }
}
