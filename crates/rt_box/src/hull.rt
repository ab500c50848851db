//! The least box around some boxes.

ghost use Rattle.std.specs.Prelude.{◌≡◌, ◌<◌, length};
ghost use Rattle.rt_box.specs.Hull.{hull};

use crate::rect::Rect;

/// The least box that holds all of them.
pub fn hull_of<const D: usize>(boxes: &[Rect<D>]) -> Rect<D>
    requires { 0 < length boxes.now }
    ensures { result ≡ hull boxes.now }
{
    let mut hull = boxes[0];
    for place in 1..boxes.len() {
        hull = hull.union(&boxes[place]);
    }
    hull
}
