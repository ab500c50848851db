//! The windows around a row, found once for several edits: as long as a row is dragged, or rows are edited at one place, and no
//! window changes.

ghost use Rattle.rt_live.specs.Finding.{IsNear};
ghost use Rattle.rt_live.specs.Room.{Grows};

use crate::finding::{Scratch, find_around};
use crate::hull::hull_of;
use rt_box::Rect;
use rt_tree::Tree;

/// How far a box moves: as far as the end that moves farthest.
fn step_of<const D: usize>(was: &Rect<D>, is: &Rect<D>) -> u32 {
    let mut farthest = 0;
    for axis in 0..D {
        let (before, after) = (was.range(axis), is.range(axis));
        farthest = before.lo.abs_diff(after.lo).max(farthest);
        farthest = before.hi.abs_diff(after.hi).max(farthest);
    }
    farthest
}

/// How far a row is likely to move next: as far as now, if that is short beside windows, of which none is shorter than `least`.
fn likely_step<const D: usize>(was: &Option<Rect<D>>, is: &Option<Rect<D>>, least: u32) -> u32 {
    match (was, is) {
        (Some(was), Some(is)) => step_of(was, is).min(least / 4),
        _ => 0,
    }
}

/// The box, wider by a step at each end.
fn widened<const D: usize>(rect: &Rect<D>, step: u32) -> Option<Rect<D>> {
    rect.facts();
    let (mut lo, mut hi) = (rect.lo(), rect.hi());
    for axis in 0..D {
        lo[axis] = lo[axis].saturating_sub_unsigned(step);
        hi[axis] = hi[axis].saturating_add_unsigned(step);
    }
    Rect::new(lo, hi)
}

/// A box around those of two boxes that are there, unless they are far apart, and around where a row that moves so is likely to
/// move next.
fn near_box<const D: usize>(
    was: &Option<Rect<D>>,
    is: &Option<Rect<D>>,
    least: u32,
) -> Option<Rect<D>> {
    let hull = hull_of(was, is, least)?;
    widened(&hull, likely_step(was, is, least))
}

/// Finds the windows around a row that gets another box, by rising id, and notes in `near` the box that they touch. None is noted
/// if the boxes are far apart, or if no memory is left. No window is shorter than `least` on any axis.
pub(crate) fn find_near<const D: usize>(
    windows: &Tree<D>,
    least: u32,
    was: &Option<Rect<D>>,
    is: &Option<Rect<D>>,
    near: &mut Option<Rect<D>>,
    scratch: &mut Scratch<D>,
)
    ensures near { IsNear windows.now.lists near.new scratch.new.last.items }
    ensures grows { Grows scratch.old scratch.new }
{
    *near = None;
    let Some(hull) = near_box(was, is, least) else {
        return;
    };
    if find_around(windows, &hull, scratch).is_ok() {
        *near = Some(hull);
    }
}
