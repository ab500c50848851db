//! Which cells of a node touch a box.

ghost use Rattle.std.specs.Prelude.{◌≡◌, ◌^◌, ◌<◌, ◌≤◌, drop, length};
ghost use Rattle.rt_tree_walk.specs.Visits.{picked};
ghost use Rattle.rt_tree_join.specs.Join.{IsTouching};
ghost use Rattle.rt_tree_join.specs.Due.{touched_by};

use rt_box::{Operator, Rect, Window};
use rt_tree_node::Node;

/// The window that admits the boxes that touch this one: on each axis they begin by its end, and end no sooner than it begins.
#[inline]
fn touching<const D: usize>(rect: &Rect<D>) -> Window<D>
    ensures { IsTouching D rect.now result }
{
    rect.facts();
    let mut window = Window::all();
    for axis in 0..D {
        let range = rect.range(axis);
        window.narrow(2 * axis, Operator::Le, i64::from(range.hi));
        window.narrow(2 * axis + 1, Operator::Ge, i64::from(range.lo));
    }
    window
}

/// The cells of a node from a place on whose boxes touch the box: a bit for each, and the first one's is the lowest.
#[inline]
pub(crate) fn touching_cells<const D: usize>(node: &Node<D>, from: usize, rect: &Rect<D>) -> u64
    requires { from ≤ length node.now.cells }
    ensures within { result < 2 ^ length (drop from node.now.cells) }
    ensures few { length node.now.cells ≤ 64 }
    ensures cells { picked (drop from node.now.cells) result ≡ touched_by rect.now (drop from node.now.cells) }
{
    node.facts();
    touching(rect).admitted(node.boxes()) >> from
}
