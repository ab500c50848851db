//! What several modules need: trees of given rows, boxes by number, and joins as sorted lists.

ghost use Rattle.std.specs.Prelude.{◌≤◌};

use rt_box::{Capacity, Rect};
use rt_map::join;
use rt_tree::{MOST_ROWS_OF_A_TREE, Row, Tree, Work};
use std::alloc::Global;
use std::hash::RandomState;
use std::test::Fail;

/// Inserts a row that there is room for.
pub(crate) fn insert_reserved<const D: usize>(
    tree: &mut Tree<D>,
    row: &Row<D>,
) -> Result<Work, Fail>
    requires some { 1 ≤ D }
    requires few { D ≤ 3 }
{
    if tree.get(&row.id).is_some() || tree.spare() == 0 || tree.len() >= MOST_ROWS_OF_A_TREE {
        return Err(Fail::from("a row that can't be inserted"));
    }
    Ok(tree.insert(&row.id, &row.rect))
}

/// The tree of these rows, in nodes of at most 5 cells, and what the last insertion took.
pub(crate) fn tree_of<const D: usize>(
    rt: &HostRuntime,
    rows: &[Row<D>],
) -> Result<(Tree<D>, Work), Fail>
    requires some { 1 ≤ D }
    requires few { D ≤ 3 }
{
    let capacity = Capacity::new(5).ok_or("no capacity")?;
    let mut tree = Tree::new(rt.alloc(), RandomState::new(rt)?, capacity)?;
    let mut work = Work {
        placements: 0,
        splits: 0,
        reinsertions: 0,
    };
    for row in rows {
        tree.reserve(1)?;
        work = insert_reserved(&mut tree, row)?;
    }
    Ok((tree, work))
}

/// The box with these ends.
pub(crate) fn box_between<const D: usize>(lo: [i32; D], hi: [i32; D]) -> Result<Rect<D>, Fail>
    requires some { 1 ≤ D }
    requires few { D ≤ 3 }
{
    match Rect::new(lo, hi) {
        Some(rect) => Ok(rect),
        None => Err(Fail::from("no box")),
    }
}

/// How the place of a box on each axis follows from its number: a factor, and the period of what comes out.
pub(crate) const PLACES: [(i64, i64); 3] = [(37, 101), (53, 89), (71, 97)];

/// The box with that number, whose sides are that long.
pub(crate) fn cube<const D: usize>(
    places: &[(i64, i64); 3],
    number: i64,
    side: i64,
) -> Result<Rect<D>, Fail>
    requires some { 1 ≤ D }
    requires few { D ≤ 3 }
{
    let mut lo = [0; D];
    let mut hi = [0; D];
    for axis in 0..D {
        let (factor, period) = places[axis];
        let place = number.wrapping_mul(factor);
        let place = place.checked_rem_euclid(period).unwrap_or(0);
        lo[axis] = i32::try_from(place).unwrap_or(0);
        hi[axis] = i32::try_from(place.wrapping_add(side)).unwrap_or(0);
    }
    box_between(lo, hi)
}

/// The pairs of ids that a join gives, sorted.
pub(crate) fn joined<const D: usize>(
    alloc: Global,
    left: &Tree<D>,
    right: &Tree<D>,
) -> Result<Vec<(i64, i64)>, Fail> {
    let mut pairs = Vec::new(alloc);
    for pair in join(alloc, left, right)?.iter() {
        pairs.push((pair.left, pair.right))?;
    }
    pairs.sort()?;
    Ok(pairs)
}
