//! What a search asks of a tree.

ghost use Rattle.std.specs.Prelude.{◌≡◌, ◌≤◌, pos, ◌+ℤ◌, ◌-ℤ◌};
ghost use Rattle.rt_tree_nearest.specs.Candidates.{AdmitsNear, IsAimed, PicksNear};

use rt_box::{Operator, Rect, Window};
use rt_tree_node::Node;

/// The `k` rows that are nearest to a box, of those within a distance.
#[derive(Clone, Copy)]
pub(crate) struct Query<const D: usize> {
    /// The box that distances are taken to.
    pub(crate) target: Rect<D>,
    /// How many rows are asked for.
    pub(crate) k: usize,
    /// The greatest squared distance of a row in the answer.
    pub(crate) limit: u128,
    /// Admits each box within the limit, and few others: what it refuses needs no distance.
    pub(crate) window: Window<D>,
}

/// The greatest number within the gap of an end.
fn above(hi: i32, gap: u32) -> i64
    ensures { result ≡ hi +ℤ pos gap }
{
    i64::from(hi) + i64::from(gap)
}

/// The least number within the gap of a start.
fn below(lo: i32, gap: u32) -> i64
    ensures { result ≡ lo -ℤ pos gap }
{
    i64::from(lo) - i64::from(gap)
}

/// The window of the boxes that are within the limit on each axis.
fn window_within<const D: usize>(target: &Rect<D>, limit: u128) -> Window<D>
    ensures { AdmitsNear D target.now limit result }
{
    target.facts();
    let mut window = Window::all();
    let Ok(limit) = u64::try_from(limit) else {
        return window;
    };
    let gap = limit.isqrt() as u32;
    for axis in 0..D {
        let range = target.range(axis);
        window.narrow(2 * axis, Operator::Le, above(range.hi, gap));
        window.narrow(2 * axis + 1, Operator::Ge, below(range.lo, gap));
    }
    window
}

impl<const D: usize> Query<D> {
    /// The query for the `k` rows nearest to the box within the limit.
    pub(crate) fn new(target: &Rect<D>, k: usize, limit: u128) -> Query<D>
        ensures target { result.target ≡ target.now }
        ensures k { result.k ≡ k }
        ensures limit { result.limit ≡ limit }
        ensures aimed { IsAimed result }
    {
        target.facts();
        Query {
            target: *target,
            k,
            limit,
            window: window_within(target, limit),
        }
    }

    /// Which cells of a node may be within the limit: a bit for each, and the first one's is the lowest.
    #[inline]
    pub(crate) fn near_cells(&self, node: &Node<D>) -> u64
        ensures { PicksNear self.now node.now.cells result }
    {
        node.facts();
        self.window.admitted(node.boxes())
    }
}
