//! Rows of several shapes, drawn by arithmetic: those that `bench/draw.hpp` draws on two axes.

use rt_box::Rect;

/// How the rows lie.
#[derive(Clone, Copy)]
pub(crate) enum Shape {
    Uniform,
    Clustered,
    Dense,
    Sorted,
}

pub(crate) const SHAPES: [(Shape, &str); 4] = [
    (Shape::Uniform, "uniform"),
    (Shape::Clustered, "clustered"),
    (Shape::Dense, "dense"),
    (Shape::Sorted, "sorted"),
];

/// Numbers that look random (the finalizer of SplitMix64: Steele, Lea, Flood 2014).
fn mixed(seed: u64) -> u64 {
    let mut z = seed.wrapping_add(0x9E37_79B9_7F4A_7C15);
    z = (z ^ (z >> 30)).wrapping_mul(0xBF58_476D_1CE4_E5B9);
    z = (z ^ (z >> 27)).wrapping_mul(0x94D0_49BB_1331_11EB);
    z ^ (z >> 31)
}

/// A number below the limit.
fn below(seed: u64, limit: u32) -> i64 {
    if limit == 0 {
        return 0;
    }
    (seed % u64::from(limit)) as i64
}

/// The ends on one axis of the row with this number.
fn ends(shape: Shape, row: u64, axis: u64) -> (i64, i64) {
    let seed = mixed(row.wrapping_mul(8).wrapping_add(axis));
    let more = mixed(seed);
    let cluster = mixed(
        (row % 100)
            .wrapping_mul(8)
            .wrapping_add(axis)
            .wrapping_add(4),
    );
    let lo = match shape {
        Shape::Uniform => below(seed, 1_000_000),
        Shape::Clustered => below(cluster, 1_000_000).wrapping_add(below(seed, 5000)),
        Shape::Dense => below(seed, 10),
        Shape::Sorted if axis == 0 => (row % (1 << 32)) as i64,
        Shape::Sorted => below(seed, 1_000_000),
    };
    let side = match shape {
        Shape::Dense => below(more, 10),
        _ => below(more, 100),
    };
    (lo, lo.wrapping_add(side))
}

/// The box of the row with this number.
pub(crate) fn rect_of(shape: Shape, row: u64) -> Option<Rect<2>> {
    let (west, east) = ends(shape, row, 0);
    let (south, north) = ends(shape, row, 1);
    let lo = [i32::try_from(west).ok()?, i32::try_from(south).ok()?];
    let hi = [i32::try_from(east).ok()?, i32::try_from(north).ok()?];
    Rect::new(lo, hi)
}
