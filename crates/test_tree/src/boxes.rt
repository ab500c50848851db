//! Boxes and their measures, and the capacities of nodes.

ghost use Rattle.std.specs.Prelude.{◌≤◌};

use crate::rows::box_between;
use rt_box::{Capacity, Interval, Rect};
use std::process::Abort;
use std::test::Fail;

#[test]
fn boxes_that_touch_have_these_measures(rt: HostRuntime) -> Result<(), Fail> {
    let first = Rect::new([0], [5]).ok_or("no box")?;
    let second = Rect::new([5], [9]).ok_or("no box")?;
    let both = Rect::new([0], [9]).ok_or("no box")?;
    assert!(rt; first.union(&second) == both);
    assert!(rt; (first.overlap(&second), both.overlap(&second)) == (0, 4));
    assert!(rt; (first.enlargement(&second), first.centre_distance(&second)) == (4, 81));
    assert!(rt; !first.contains(&second) && !second.contains(&first));
    assert!(rt; both.contains(&first) && both.contains(&second));
    Ok(())
}

/// The greatest box of that many axes, and its first and last points, have these measures.
fn expect_greatest<const D: usize>(
    rt: &impl Abort,
    area: u128,
    margin: u64,
    distance: u128,
) -> Result<(), Fail>
    requires some { 1 ≤ D }
    requires few { D ≤ 3 }
{
    let whole = box_between([i32::MIN; D], [i32::MAX; D])?;
    let low = box_between([i32::MIN; D], [i32::MIN; D])?;
    let high = box_between([i32::MAX; D], [i32::MAX; D])?;
    assert!(rt; low.union(&high) == whole);
    assert!(rt; (whole.area(), whole.margin()) == (area, margin));
    assert!(rt; (whole.overlap(&whole), low.enlargement(&high)) == (area, area));
    assert!(rt; low.centre_distance(&high) == distance, "{distance}");
    Ok(())
}

#[test]
fn no_measure_wraps(rt: HostRuntime) -> Result<(), Fail> {
    expect_greatest::<1>(&rt, 4294967295, 4294967295, 73786976260478468100)?;
    expect_greatest::<2>(&rt, 18446744065119617025, 8589934590, 147573952520956936200)?;
    expect_greatest::<3>(
        &rt,
        79228162458924105385300197375,
        12884901885,
        221360928781435404300,
    )
}

#[test]
fn a_box_has_its_ends_in_order(rt: HostRuntime) -> Result<(), Fail> {
    let rect = Rect::new([-3, 0, 7], [4, 0, 9]).ok_or("no box")?;
    assert!(rt; rect.lo() == [-3, 0, 7] && rect.hi() == [4, 0, 9]);
    assert!(rt; rect.axes() == 3 && rect.range(2) == Interval { lo: 7, hi: 9 });
    assert!(rt; Rect::new([1], [0]).is_none());
    assert!(rt; Rect::new([0, 0, i32::MIN + 1], [0, 0, i32::MIN]).is_none());
    assert!(rt; Rect::new([i32::MAX, 3], [i32::MAX, 2]).is_none());
    Ok(())
}

/// The most cells of a node; and, if that many are allowed, the same, the least, and how many are reinserted.
const CAPACITIES: [(u8, Option<(usize, usize, usize)>); 4] = [
    (4, None),
    (5, Some((5, 2, 1))),
    (51, Some((51, 20, 15))),
    (52, None),
];

#[test]
fn a_node_may_have_5_to_51_cells(rt: HostRuntime) {
    for (greatest, wanted) in CAPACITIES {
        let numbers = match Capacity::new(greatest) {
            Some(found) => Some((found.greatest(), found.least(), found.share())),
            None => None,
        };
        assert!(rt; numbers == wanted, "{greatest}");
    }
}
