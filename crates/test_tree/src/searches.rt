//! Counts, nearest rows and joins, held against plain lists.
//!
//! The boxes have three axes, and ends of 32 bits among their coordinates; many are equally far from a point.

ghost use Rattle.std.specs.Prelude.{◌<◌};

use crate::rows::{joined, tree_of};
use rt_box::{Operator, Rect, Window};
use rt_map::nearest;
use rt_tree::{Row, Tree};
use std::alloc::Global;
use std::process::Abort;
use std::test::Fail;

/// The coordinates that boxes have.
const COORDINATES: [i32; 9] = [i32::MIN, i32::MAX, 2, 3, 4, 5, 6, 7, 8];

/// The box of the row with that id.
fn box_of(id: u32) -> Result<Rect<3>, Fail> {
    let (x, y, z) = (id, id.wrapping_mul(5), id.wrapping_mul(7));
    let first = [x, y, z];
    let second = [
        y.wrapping_add(x / 9),
        z.wrapping_add(x / 4),
        x.wrapping_add(x / 7),
    ];
    let mut lo = [0; 3];
    let mut hi = [0; 3];
    for axis in 0..3 {
        let from = COORDINATES[(first[axis] % 9) as usize];
        let to = COORDINATES[(second[axis] % 9) as usize];
        lo[axis] = from.min(to);
        hi[axis] = from.max(to);
    }
    Ok(Rect::new(lo, hi).ok_or("no box")?)
}

/// The rows with ids from the first on, and below the second.
fn rows_between(alloc: Global, ids: (u32, u32)) -> Result<Vec<Row<3>>, Fail> {
    let mut rows = Vec::new(alloc);
    for id in ids.0..ids.1 {
        let rect = box_of(id)?;
        rows.push(Row {
            id: i64::from(id),
            rect,
        })?;
    }
    Ok(rows)
}

/// The ids of the rows that are counted and found.
const IDS: (u32, u32) = (0, 150);

/// The squared distance from the point to the nearest point of the box.
fn distance(rect: &Rect<3>, point: &[i32; 3]) -> u128 {
    let (lo, hi) = (rect.lo(), rect.hi());
    let mut distance: u128 = 0;
    for axis in 0..3 {
        let nearest = point[axis].max(lo[axis]).min(hi[axis]);
        let gap = i64::from(point[axis]).wrapping_sub(i64::from(nearest));
        let gap = u128::from(gap.unsigned_abs());
        distance = distance.wrapping_add(gap.wrapping_mul(gap));
    }
    distance
}

/// The rows' distances and ids.
fn distances(alloc: Global, rows: &[Row<3>], point: &[i32; 3]) -> Result<Vec<(u128, i64)>, Fail> {
    let mut list = Vec::new(alloc);
    for row in rows {
        list.push((distance(&row.rect, point), row.id))?;
    }
    Ok(list)
}

const POINTS: [[i32; 3]; 3] = [
    [4, 5, 6],
    [i32::MIN, i32::MAX, i32::MIN],
    [i32::MAX, i32::MAX, i32::MAX],
];

#[test]
fn the_nearest_rows_are_those_of_a_plain_list(rt: HostRuntime) -> Result<(), Fail> {
    let rows = rows_between(rt.alloc(), IDS)?;
    let (tree, _) = tree_of(&rt, &rows)?;
    for point in POINTS {
        for k in [0, 1, 7, 149, 150, 200] {
            let found = nearest(rt.alloc(), &tree, &point, k)?;
            let found = distances(rt.alloc(), &found, &point)?;
            let mut wanted = distances(rt.alloc(), &rows, &point)?;
            wanted.sort()?;
            wanted.truncate(k);
            assert!(rt; found == wanted, "{k}");
        }
    }
    Ok(())
}

/// As many rows are counted as in a plain list have a coordinate that is at least or at most the bound, and end by another
/// on the second axis. The coordinates are `lo` on the first axis, `hi` on it, `lo` on the second axis and so on.
fn expect_count(
    rt: &(impl Abort + AllocGlobal),
    tree: &Tree<3>,
    rows: &[Row<3>],
    coordinate: usize,
    is_least: bool,
    bound: i64,
    end: i64,
) -> Result<(), Fail>
    requires { coordinate < 6 }
{
    let op = if is_least { Operator::Ge } else { Operator::Le };
    let mut window = Window::<3>::all();
    window.narrow(coordinate, op, bound);
    window.narrow(3, Operator::Le, end);
    let mut wanted = 0usize;
    for row in rows {
        let (lo, hi) = (row.rect.lo(), row.rect.hi());
        let number = i64::from([lo[0], hi[0], lo[1], hi[1], lo[2], hi[2]][coordinate]);
        let is_kept = if is_least {
            number >= bound
        } else {
            number <= bound
        };
        if is_kept && i64::from(hi[1]) <= end {
            wanted = wanted.wrapping_add(1);
        }
    }
    assert!(rt;
        tree.count(rt.alloc(), &window)? == wanted,
        "{coordinate} {bound}"
    );
    Ok(())
}

/// Bounds of a coordinate and of the second axis. By the first five, all rows lie in some windows, and in others the
/// box around them does, but not each row.
const BOUNDS: [(i64, i64); 14] = [
    (-2_147_483_648, i64::MAX),
    (-2_147_483_647, i64::MAX),
    (5, i64::MAX),
    (2_147_483_646, i64::MAX),
    (2_147_483_647, i64::MAX),
    (0, 7),
    (1, 7),
    (2, 7),
    (3, 7),
    (4, 7),
    (5, 7),
    (6, 7),
    (7, 7),
    (8, 7),
];

#[test]
fn a_count_is_that_of_a_plain_list(rt: HostRuntime) -> Result<(), Fail> {
    let rows = rows_between(rt.alloc(), IDS)?;
    let (tree, _) = tree_of(&rt, &rows)?;
    for coordinate in 0..6 {
        for (bound, end) in BOUNDS {
            expect_count(&rt, &tree, &rows, coordinate, true, bound, end)?;
            expect_count(&rt, &tree, &rows, coordinate, false, bound, end)?;
        }
    }
    Ok(())
}

/// Whether the boxes have a point in common.
fn touch(first: &Rect<3>, second: &Rect<3>) -> bool {
    let mut both = true;
    for axis in 0..3 {
        both &= first.lo()[axis] <= second.hi()[axis] && second.lo()[axis] <= first.hi()[axis];
    }
    both
}

/// The pairs of rows that touch, by two loops.
fn touching(alloc: Global, left: &[Row<3>], right: &[Row<3>]) -> Result<Vec<(i64, i64)>, Fail> {
    let mut pairs = Vec::new(alloc);
    for first in left {
        for second in right {
            if touch(&first.rect, &second.rect) {
                pairs.push((first.id, second.id))?;
            }
        }
    }
    Ok(pairs)
}

/// The ids of the rows of two trees, which are of equal and of unequal height, or have no rows.
const JOINED: [((u32, u32), (u32, u32)); 5] = [
    ((0, 60), (30, 110)),
    ((0, 60), (100, 104)),
    ((100, 104), (30, 110)),
    ((0, 60), (0, 0)),
    ((0, 0), (0, 60)),
];

#[test]
fn a_join_is_that_of_two_loops(rt: HostRuntime) -> Result<(), Fail> {
    for (left, right) in JOINED {
        let left = rows_between(rt.alloc(), left)?;
        let right = rows_between(rt.alloc(), right)?;
        let (tree, _) = tree_of(&rt, &left)?;
        let (other, _) = tree_of(&rt, &right)?;
        let pairs = joined(rt.alloc(), &tree, &other)?;
        assert!(rt; pairs == touching(rt.alloc(), &left, &right)?);
        let pairs = joined(rt.alloc(), &tree, &tree)?;
        assert!(rt; pairs == touching(rt.alloc(), &left, &left)?);
    }
    Ok(())
}
