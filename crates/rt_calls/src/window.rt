//! The windows of the boxes that lie in some relation to a window of the caller's.

ghost use Rattle.std.specs.Prelude.{◌≤◌};
ghost use Rattle.rt_calls.specs.Windows.{AdmitsNone, AdmitsCompared, AdmitsRelated};
ghost use Rattle.rt_calls.specs.declared.relation.Relation.TheVariants.{Touches, Within, Holds};

use crate::relation::Relation;
use rt_box::{Operator, Rect, Window};

/// A window that admits no box.
fn empty_window<const D: usize>() -> Window<D>
    requires { 1 ≤ D }
    ensures { AdmitsNone D result }
{
    let mut window = Window::all();
    window.narrow(0, Operator::Lt, i64::from(i32::MIN));
    window
}

/// The window of the boxes of which on each axis the one comparison holds of the least number, and the other of the greatest.
fn compared_window<const D: usize>(
    first: Operator,
    least: &[i32; D],
    second: Operator,
    greatest: &[i32; D],
) -> Window<D>
    requires some { 1 ≤ D }
    requires few { D ≤ 3 }
    ensures { AdmitsCompared D first least.now second greatest.now result }
{
    let mut window = Window::all();
    for axis in 0..D {
        window.narrow(2 * axis, first, i64::from(least[axis]));
        window.narrow(2 * axis + 1, second, i64::from(greatest[axis]));
    }
    window
}

/// The window of the boxes that have a point in common with the box from `min` to `max`. That box is empty if a least
/// number is above the greatest.
fn touch_window<const D: usize>(min: &[i32; D], max: &[i32; D]) -> Window<D>
    requires some { 1 ≤ D }
    requires few { D ≤ 3 }
    ensures { AdmitsRelated D Touches min.now max.now result }
{
    if Rect::new(*min, *max).is_none() {
        return empty_window();
    }
    compared_window(Operator::Le, max, Operator::Ge, min)
}

/// The window of the boxes that lie in the box from `min` to `max`.
fn within_window<const D: usize>(min: &[i32; D], max: &[i32; D]) -> Window<D>
    requires some { 1 ≤ D }
    requires few { D ≤ 3 }
    ensures { AdmitsRelated D Within min.now max.now result }
{
    compared_window(Operator::Ge, min, Operator::Le, max)
}

/// The window of the boxes that hold the box from `min` to `max`. All boxes hold an empty one.
fn hold_window<const D: usize>(min: &[i32; D], max: &[i32; D]) -> Window<D>
    requires some { 1 ≤ D }
    requires few { D ≤ 3 }
    ensures { AdmitsRelated D Holds min.now max.now result }
{
    if Rect::new(*min, *max).is_none() {
        return Window::all();
    }
    compared_window(Operator::Le, min, Operator::Ge, max)
}

/// The window of the boxes that lie so to the box from `min` to `max`.
pub fn related_window<const D: usize>(
    relation: Relation,
    min: &[i32; D],
    max: &[i32; D],
) -> Window<D>
    requires some { 1 ≤ D }
    requires few { D ≤ 3 }
    ensures { AdmitsRelated D relation min.now max.now result }
{
    match relation {
        Relation::Touches => touch_window(min, max),
        Relation::Within => within_window(min, max),
        Relation::Holds => hold_window(min, max),
    }
}
