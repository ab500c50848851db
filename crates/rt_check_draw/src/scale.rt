//! Where in the picture a coordinate stands, in hundredths of a pixel.

ghost use Rattle.std.specs.Prelude.{◌≡◌, ◌<◌, ◌≤◌};
ghost use Rattle.std.specs.Option.{option_map_or};
ghost use Rattle.rt_check_draw.specs.Axes.{IsWithin};
ghost use Rattle.rt_check_draw.specs.Scale.{plot, length_of, cover, common_part, place_in, ends_of, range_from, range_of, range_up, nothing, top_of, frame_of, side_from, side_across, side_up, side_of_bar, place_of};

use crate::choice::Axes;
use rt_check::{NodeRow, RawCell, Shadow};

/// How wide and high the plot is.
pub(crate) const PLOT: u64 = 80_000;

/// How far the plot is from the left end of the picture.
pub(crate) const LEFT: u64 = 10_000;

/// How far the plot is from the upper end of the picture.
pub(crate) const TOP: u64 = 4_000;

/// How wide and high a box is at least: two pixels.
pub(crate) const LEAST: u64 = 200;

/// The coordinates from `lo` to `hi`.
#[derive(Clone, Copy)]
pub(crate) struct Range {
    pub(crate) lo: i32,
    pub(crate) hi: i32,
}

impl Range {
    /// The range that each range covers.
    pub(crate) const EMPTY: Range = Range {
        lo: i32::MAX,
        hi: i32::MIN,
    };

    /// `hi` less `lo`, or 0 if `lo` is above `hi`.
    pub(crate) fn length(self) -> u64
        ensures value { result ≡ length_of self }
        ensures bound { result < 4294967296 }
    {
        if self.lo < self.hi {
            u64::from(self.hi.abs_diff(self.lo))
        } else {
            0
        }
    }

    /// From the least lo to the greatest hi.
    pub(crate) fn cover(self, other: Range) -> Range
        ensures { result ≡ cover self other }
    {
        Range {
            lo: self.lo.min(other.lo),
            hi: self.hi.max(other.hi),
        }
    }

    /// What both have in common.
    pub(crate) fn common_part(self, other: Range) -> Range
        ensures { result ≡ common_part self other }
    {
        Range {
            lo: self.lo.max(other.lo),
            hi: self.hi.min(other.hi),
        }
    }

    /// How far a coordinate is from the range's start, if the range is stretched to the plot's length.
    pub(crate) fn place_of(self, coordinate: i32) -> u64
        ensures value { result ≡ place_in self coordinate }
        ensures bound { result ≤ plot }
    {
        let length = self.length();
        if length == 0 {
            return PLOT / 2;
        }
        let upto = Range {
            lo: self.lo,
            hi: coordinate,
        };
        (upto.length() * PLOT / length).min(PLOT)
    }
}

/// From one end of a cell on an axis to the other, whichever is less.
pub(crate) fn ends_of<const D: usize>(cell: &RawCell<D>, axis: usize) -> Range
    requires { axis < D }
    ensures { result ≡ ends_of cell.now axis }
{
    let (lo, hi) = (cell.lo[axis], cell.hi[axis]);
    Range {
        lo: lo.min(hi),
        hi: lo.max(hi),
    }
}

fn range_of_node<const D: usize>(start: Range, node: &NodeRow<D>, axis: usize) -> Range
    requires { axis < D }
    ensures { result ≡ range_from start node.now.cells axis }
{
    let mut range = start;
    for cell in node.cells.as_slice() {
        range = range.cover(ends_of(cell, axis));
    }
    range
}

/// The range of all cells on an axis.
fn range_of<const D: usize>(shadow: &Shadow<D>, axis: usize) -> Range
    requires { axis < D }
    ensures { result ≡ range_of shadow.now.nodes axis }
{
    let mut range = Range::EMPTY;
    for node in shadow.nodes() {
        range = range_of_node(range, node, axis);
    }
    range
}

/// The highest level of a node.
fn top_of<const D: usize>(shadow: &Shadow<D>) -> u8
    ensures { result ≡ top_of shadow.now.nodes }
{
    let mut top = 0;
    for node in shadow.nodes() {
        top = node.level.max(top);
    }
    top
}

/// How coordinates and levels stand in the plot.
#[derive(Clone, Copy)]
pub(crate) struct Frame {
    pub(crate) axes: Axes,
    pub(crate) across: Range,
    pub(crate) up: Range,
    pub(crate) top: u8,
}

pub(crate) fn frame_of<const D: usize>(shadow: &Shadow<D>, axes: Axes) -> Frame
    requires { IsWithin D axes }
    ensures { result ≡ frame_of shadow.now axes }
{
    Frame {
        axes,
        across: range_of(shadow, axes.across),
        up: match axes.up {
            Some(axis) => range_of(shadow, axis),
            None => Range::EMPTY,
        },
        top: top_of(shadow),
    }
}

/// Where a box starts on an axis, and how far it reaches.
#[derive(Clone, Copy)]
pub(crate) struct Side {
    pub(crate) start: u64,
    pub(crate) length: u64,
}

impl Side {
    /// A side from one place in the plot to another, whose edge stands there. It is as long as the least, and
    /// doesn't leave the plot for that.
    fn new(edge: u64, start: u64, end: u64) -> Side
        requires { edge ≤ plot }
        ensures { result ≡ side_from edge start end }
    {
        let length = end.saturating_sub(start).max(LEAST);
        Side {
            start: edge + start.min(PLOT.saturating_sub(length)),
            length,
        }
    }
}

/// A box's side to the right.
fn side_across(range: Range, ends: Range) -> Side
    ensures { result ≡ side_across range ends }
{
    Side::new(LEFT, range.place_of(ends.lo), range.place_of(ends.hi))
}

/// A box's side upwards: it starts at its upper end, since an SVG counts downwards.
fn side_up(range: Range, ends: Range) -> Side
    ensures { result ≡ side_up range ends }
{
    let (lower, upper) = (range.place_of(ends.lo), range.place_of(ends.hi));
    Side::new(TOP, PLOT.saturating_sub(upper), PLOT.saturating_sub(lower))
}

/// The side upwards of a bar: the root's bars are the highest.
fn side_of_bar(top: u8, level: u8) -> Side
    ensures { result ≡ side_of_bar top level }
{
    let height = PLOT / (u64::from(top) + 1);
    Side {
        start: TOP + height * u64::from(top.saturating_sub(level)),
        length: height * 9 / 10,
    }
}

/// Where a box stands.
#[derive(Clone, Copy)]
pub(crate) struct Place {
    pub(crate) across: Side,
    pub(crate) up: Side,
}

impl Frame {
    /// Where the box of a cell of a node on that level stands.
    pub(crate) fn place_of<const D: usize>(&self, level: u8, cell: &RawCell<D>) -> Place
        requires { IsWithin D self.now.axes }
        ensures { result ≡ place_of self.now level cell.now }
    {
        Place {
            across: side_across(self.across, ends_of(cell, self.axes.across)),
            up: match self.axes.up {
                Some(axis) => side_up(self.up, ends_of(cell, axis)),
                None => side_of_bar(self.top, level),
            },
        }
    }
}
