//! The cell of least area among those that hold the new box.
//!
//! If the new box has an area, or each cell has one, these cells alone don't grow, and mostly there is one. So the growth
//! of all cells is computed only if there is none (`IsBestChild` in `specs/Subtree.antt`). Which cells hold the box can't
//! be foreseen. So all are tested first, with no branch; then each bit that is set leads to a cell.

ghost use Rattle.std.specs.Prelude.{◌<◌, ◌≤◌, IsTrue, All, length, IfSome, false};
ghost use Rattle.rt_box.specs.Bits.{Tells};
ghost use Rattle.rt_box.specs.Capacity.{most_cells};
ghost use Rattle.rt_box.specs.Rect.{IsBox, area, Holds};
ghost use Rattle.rt_tree_subtree.specs.Subtree.{IsBestChild};
ghost use Rattle.rt_tree_subtree.specs.Costs.{HoldersStay};

use rt_box::{Rect, Window};

/// Whether each cell has an area.
fn are_solid<const D: usize>(boxes: &[Rect<D>]) -> bool
    ensures { IsTrue result → All (λ cell. 0 < area cell) boxes.now }
{
    for cell in boxes {
        if cell.area() == 0 {
            return false;
        }
    }
    true
}

/// Whether the cells that hold the new box are known to be those that don't grow.
#[inline]
pub(super) fn holders_stay<const D: usize>(boxes: &[Rect<D>], new_box: &Rect<D>) -> bool
    ensures { IsTrue result → HoldersStay boxes.now new_box.now }
{
    new_box.area() > 0 || are_solid(boxes)
}

/// Which of the cells hold the new box: a bit for each, and the first one's is the lowest.
#[inline]
fn holders<const D: usize>(boxes: &[Rect<D>], new_box: &Rect<D>) -> u64
    requires { length boxes.now ≤ 64 }
    ensures told { Tells (λ cell. Holds cell new_box.now) boxes.now result }
    ensures boxes { All (IsBox D) boxes.now }
{
    new_box.facts();
    Window::around(new_box).admitted(boxes)
}

/// The position of the cell whose area grows least, if some cell holds the new box, and so doesn't grow.
#[inline(never)]
pub(super) fn least_holder<const D: usize>(boxes: &[Rect<D>], new_box: &Rect<D>) -> Option<usize>
    requires few { length boxes.now ≤ most_cells }
    requires stay { HoldersStay boxes.now new_box.now }
    ensures { IfSome result (λ best. IsBestChild false boxes.now new_box.now best) }
{
    new_box.facts();
    let mut rest = holders(boxes, new_box);
    if rest == 0 {
        return None;
    }
    let mut best = rest.trailing_zeros() as usize;
    let mut least = boxes[best].area();
    rest &= rest - 1;
    while rest != 0 {
        let position = rest.trailing_zeros() as usize;
        let area = boxes[position].area();
        if area < least {
            best = position;
            least = area;
        }
        rest &= rest - 1;
    }
    Some(best)
}
