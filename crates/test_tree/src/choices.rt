//! The choices on small nodes, and the short cuts beside the costs in full.
//!
//! The last test draws nodes whose boxes are often flat or equal, so that ties decide, and compares each choice with
//! the first cell of least cost.

ghost use Rattle.std.specs.Prelude.{◌<◌, ◌≤◌, length};

use crate::rows::box_between;
use rt_box::{Capacity, Rect};
use rt_tree_choice::{choose_split, farthest};
use rt_tree_subtree::choose_subtree;
use std::process::Abort;
use std::test::Fail;

/// Points at these places on their last axis, and at 0 on the others.
fn points<const D: usize, const N: usize>(places: &[i32; N]) -> Result<[Rect<D>; N], Fail>
    requires some { 1 ≤ D }
    requires few { D ≤ 3 }
{
    let mut boxes = [box_between([0; D], [0; D])?; N];
    for k in 0..N {
        let mut at = [0; D];
        at[D - 1] = places[k];
        boxes[k] = box_between(at, at)?;
    }
    Ok(boxes)
}

#[test]
fn a_node_is_split_between_heaps_on_the_axis_of_least_margins(rt: HostRuntime) -> Result<(), Fail> {
    let capacity = Capacity::new(5).ok_or("no capacity")?;
    let two_heaps = points::<1, 6>(&[0, 1, 2, 10, 11, 12])?;
    let equal = points::<1, 6>(&[4; 6])?;
    let upright = points::<2, 6>(&[0, 10, 1, 11, 2, 12])?;
    assert!(rt; capacity.greatest() == 5);
    let cut = choose_split(&two_heaps, capacity);
    assert!(rt; (cut.axis, cut.upper, cut.first) == (0, false, 3));
    let cut = choose_split(&equal, capacity);
    assert!(rt; (cut.axis, cut.upper, cut.first) == (0, false, 2));
    let cut = choose_split(&upright, capacity);
    assert!(rt; (cut.axis, cut.upper, cut.first) == (1, false, 2));
    Ok(())
}

#[test]
fn the_farthest_cells_come_nearest_first(rt: HostRuntime) -> Result<(), Fail> {
    let five = Capacity::new(5).ok_or("no capacity")?;
    let ten = Capacity::new(10).ok_or("no capacity")?;
    let six = points::<1, 6>(&[0, 1, 2, 3, 4, 5])?;
    let eleven = points::<1, 11>(&[0, 1, 2, 3, 4, 5, 6, 7, 8, 9, 10])?;
    assert!(rt; five.greatest() == 5);
    assert!(rt; farthest(&six, five).as_slice() == [0].as_slice());
    assert!(rt; ten.greatest() == 10);
    assert!(rt; farthest(&eleven, ten).as_slice() == [1, 10, 0].as_slice());
    Ok(())
}

#[test]
fn a_box_goes_to_the_first_cell_of_least_cost(rt: HostRuntime) -> Result<(), Fail> {
    let low = Rect::new([0, 0], [4, 1]).ok_or("no box")?;
    let high = Rect::new([5, 0], [6, 100]).ok_or("no box")?;
    let point = Rect::new([7, 1], [7, 1]).ok_or("no box")?;
    // The overlap decides above leaves alone.
    assert!(rt; choose_subtree(&[low, high], true, &point) == 1);
    assert!(rt; choose_subtree(&[low, high], false, &point) == 0);
    let whole = Rect::new([i32::MIN; 3], [i32::MAX; 3]).ok_or("no box")?;
    let point = Rect::new([1; 3], [1; 3]).ok_or("no box")?;
    assert!(rt; choose_subtree(&[whole; 52], true, &point) == 0);
    assert!(rt; choose_subtree(&[point; 52], true, &whole) == 0);
    Ok(())
}

/// Numbers that look random, each from the one before.
fn next(seed: u64) -> u64 {
    seed.wrapping_mul(6364136223846793005)
        .wrapping_add(1442695040888963407)
}

/// A box whose ends are below the span, or now and then an end of the range; any numbers if the span is 0. If the span is
/// small, many boxes are flat or equal.
fn drawn(seed: u64, span: u8) -> Option<Rect<2>> {
    let mut seed = seed;
    let mut ends = [0; 4];
    for end in ends.iter_mut() {
        let bits = (seed >> 32) as u32;
        *end = if span == 0 {
            i32::from_be_bytes(bits.to_be_bytes())
        } else if bits % 97 == 0 {
            i32::MIN
        } else if bits % 89 == 0 {
            i32::MAX
        } else {
            i32::from(((bits >> 7) % u32::from(span)) as u8)
        };
        seed = next(seed);
    }
    let lo = [ends[0].min(ends[1]), ends[2].min(ends[3])];
    let hi = [ends[0].max(ends[1]), ends[2].max(ends[3])];
    Rect::new(lo, hi)
}

/// What a cell costs: by how much the areas that it has in common with the others grow, its own growth, its area.
fn cost(boxes: &[Rect<2>], at: usize, new_box: &Rect<2>) -> (u128, u128, u128)
    requires { at < length boxes.now }
{
    let own = &boxes[at];
    let widened = own.union(new_box);
    let mut overlap = 0u128;
    for (place, other) in boxes.iter().enumerate() {
        if place != at {
            overlap = overlap
                .wrapping_add(widened.overlap(other))
                .wrapping_sub(own.overlap(other));
        }
    }
    (overlap, widened.area().wrapping_sub(own.area()), own.area())
}

/// The first cell of least cost.
fn least_cost(boxes: &[Rect<2>], new_box: &Rect<2>) -> usize
    requires { 0 < length boxes.now }
{
    let mut best = 0;
    let mut least = cost(boxes, 0, new_box);
    for at in 1..boxes.len() {
        let other = cost(boxes, at, new_box);
        if other < least {
            best = at;
            least = other;
        }
    }
    best
}

/// The choice is that of the costs in full.
fn agrees(rt: &impl Abort, seed: u64, span: u8, cells: usize) -> Option<()>
    requires some { 0 < cells }
    requires few { cells ≤ 52 }
{
    let mut seed = seed;
    let mut boxes = [drawn(seed, span)?; 52];
    for cell in boxes.iter_mut() {
        seed = next(seed);
        *cell = drawn(seed, span)?;
    }
    let new_box = drawn(next(seed), span)?;
    let chosen = choose_subtree(&boxes[..cells], true, &new_box);
    assert!(rt; chosen == least_cost(&boxes[..cells], &new_box), "{seed}");
    Some(())
}

#[test]
fn chooses_as_the_costs_in_full(rt: HostRuntime) -> Result<(), Fail> {
    for round in 0..3000 {
        let span = [0, 2, 3, 10, 60, 250][(round % 6) as usize];
        let cells = 1 + (round % 52) as usize;
        agrees(&rt, next(round), span, cells).ok_or("no box")?;
    }
    Ok(())
}
