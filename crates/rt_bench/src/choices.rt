//! Times of the three choices of the R*-tree on nodes of drawn boxes.
//!
//! Boxes are drawn by arithmetic, so each run has the same ones. Beside each time stands the sum of what was
//! chosen, so that no call can be left out as dead code.

ghost use Rattle.std.specs.Prelude.{◌≡◌};

use rt_box::{Capacity, Rect};
use rt_tree_choice::{choose_split, farthest};
use rt_tree_subtree::choose_subtree;
use std::io;
use std::rt::Clock;
use std::time::Instant;

const CELLS: usize = 52;

const ROUNDS: u64 = 20000;

/// Numbers that look random, each from the one before.
fn next(seed: u64) -> u64 {
    seed.wrapping_mul(6364136223846793005)
        .wrapping_add(1442695040888963407)
}

/// A number up to `limit`, from the upper bits of the seed.
fn up_to(seed: u64, limit: u16) -> u16 {
    let bits = (seed >> 32 & 0xffff) as u32;
    (bits % (u32::from(limit) + 1)) as u16
}

/// A box whose low corner lies up to `span` on both axes, and whose sides are at most `size` long.
fn rect_from(seed: u64, span: u16, size: u8) -> Rect<2> {
    let places = next(seed);
    let sizes = next(places);
    let x = i32::from(up_to(places, span));
    let y = i32::from(up_to(places >> 16, span));
    let width = i32::from(up_to(sizes, u16::from(size)));
    let height = i32::from(up_to(sizes >> 16, u16::from(size)));
    match Rect::new([x, y], [x + width, y + height]) {
        Some(rect) => rect,
        None => whole(),
    }
}

fn whole() -> Rect<2> {
    match Rect::new([i32::MIN; 2], [i32::MAX; 2]) {
        Some(rect) => rect,
        None => unreachable!(),
    }
}

/// How a node's boxes lie.
#[derive(Clone, Copy)]
struct Shape {
    span: u16,
    size: u8,
}

const SHAPES: [(&str, u16, u8); 4] = [
    ("wide", 1000, 20),
    ("tiled", 1000, 200),
    ("close", 60, 20),
    ("points", 1000, 0),
];

fn node(seed: u64, shape: Shape) -> [Rect<2>; CELLS] {
    let mut boxes = [whole(); CELLS];
    let mut seed = seed;
    for cell in boxes.iter_mut() {
        seed = next(seed);
        *cell = rect_from(seed, shape.span, shape.size);
    }
    boxes
}

fn four_nodes(shape: Shape) -> [[Rect<2>; CELLS]; 4] {
    [
        node(1, shape),
        node(2, shape),
        node(3, shape),
        node(4, shape),
    ]
}

/// The time of a choice, and the sum of what was chosen.
fn time_choices<R: Clock>(
    rt: &R,
    shape: Shape,
    above_leaves: bool,
    new_size: u8,
) -> io::Result<(u128, u64)> {
    let boxes = node(7, shape);
    let mut sum: u64 = 0;
    let start = Instant::now(rt)?;
    for round in 0..ROUNDS {
        let new_box = rect_from(round, shape.span, new_size);
        sum = sum.wrapping_add(choose_subtree(&boxes[..CELLS - 1], above_leaves, &new_box) as u64);
    }
    Ok((start.elapsed(rt)?.as_nanos() / u128::from(ROUNDS), sum))
}

fn time_splits<R: Clock>(rt: &R, shape: Shape, capacity: Capacity) -> io::Result<(u128, u64)>
    requires { capacity ≡ 51 }
{
    let mut sum: u64 = 0;
    let boxes = four_nodes(shape);
    let start = Instant::now(rt)?;
    for round in 0..ROUNDS {
        let cut = choose_split(&boxes[(round % 4) as usize], capacity);
        sum = sum.wrapping_add(cut.first as u64);
    }
    Ok((start.elapsed(rt)?.as_nanos() / u128::from(ROUNDS), sum))
}

fn time_outliers<R: Clock>(rt: &R, shape: Shape, capacity: Capacity) -> io::Result<(u128, u64)>
    requires { capacity ≡ 51 }
{
    let mut sum: u64 = 0;
    let boxes = four_nodes(shape);
    let start = Instant::now(rt)?;
    for round in 0..ROUNDS {
        let order = farthest(&boxes[(round % 4) as usize], capacity);
        sum = sum.wrapping_add(order.len() as u64);
    }
    Ok((start.elapsed(rt)?.as_nanos() / u128::from(ROUNDS), sum))
}

/// Prints what a call took on nodes of that shape, and the sum of what was chosen.
fn tell(rt: &HostRuntime, shape: &str, call: &str, timed: (u128, u64)) -> io::Result<()> {
    let (time, sum) = timed;
    println!(rt; "{shape}: {call} {time} ns ({sum})")
}

fn report_shape(rt: &HostRuntime, name: &str, shape: Shape) -> io::Result<()> {
    let above = time_choices(rt, shape, true, shape.size)?;
    tell(rt, name, "choice above leaves", above)?;
    let point = time_choices(rt, shape, true, 0)?;
    tell(rt, name, "choice for a point", point)?;
    let elsewhere = time_choices(rt, shape, false, shape.size)?;
    tell(rt, name, "choice elsewhere", elsewhere)?;
    if let Some(capacity) = Capacity::new(51) {
        let split = time_splits(rt, shape, capacity)?;
        tell(rt, name, "split", split)?;
        let outliers = time_outliers(rt, shape, capacity)?;
        tell(rt, name, "farthest", outliers)?;
    }
    Ok(())
}

/// Prints the nanoseconds of each call, on boxes strewn widely, on close ones, and on points.
pub fn report(rt: &HostRuntime) -> io::Result<()> {
    for (name, span, size) in SHAPES {
        report_shape(rt, name, Shape { span, size })?;
    }
    Ok(())
}
