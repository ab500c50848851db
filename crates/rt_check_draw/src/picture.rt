//! The picture of a tree.

ghost use Rattle.std.specs.Prelude.{◌≡◌, length, IfOk};
ghost use Rattle.std.specs.Option.{option_map};
ghost use Rattle.rt_check_draw.specs.Axes.{IsWithin};
ghost use Rattle.rt_check_draw.specs.Text.{Adds};
ghost use Rattle.rt_check_draw.specs.Picture.{head, upwards, size, title, ends_text, range_text, ranges_text, front_text, plot_text, problems_start, height_of, end_text, picture_from, picture_on, picture_of};

use crate::boxes::add_levels;
use crate::choice::{Axes, Choice, axes_of};
use crate::legend::{add_legend, line_at};
use crate::levels::{LevelRow, leaves_out, levels_of, rows_of};
use crate::problems::{MOST_LISTED, add_problems};
use crate::scale::{Frame, Range, frame_of};
use crate::text::add;
use itoa::Buffer;
use rt_check::{Problem, Shadow, check};
use std::alloc::{AllocError, Global};

/// Adds the size in pixels, a white ground and a frame round the plot.
fn add_head(text: &mut Vec<u8>, height: u64) -> Result<(), AllocError>
    ensures { Adds result text.old text.new (head height) }
{
    let (mut pixels, mut hundreds) = (Buffer::new(), Buffer::new());
    add(
        text,
        &[
            b"<svg xmlns=\"http://www.w3.org/2000/svg\" width=\"1000\" height=\"",
            pixels.format(height).as_bytes(),
            b"\" viewBox=\"0 0 100000 ",
            hundreds.format(height).as_bytes(),
            b"00\" font-family=\"sans-serif\" font-size=\"1300\">\n<rect width=\"100%\" height=\"100%\" fill=\"white\"/>\n",
            b"<rect x=\"10000\" y=\"4000\" width=\"80000\" height=\"80000\" fill=\"none\" stroke=\"silver\" stroke-width=\"50\"/>\n",
        ],
    )
}

/// Adds what stands upwards.
fn add_upwards(text: &mut Vec<u8>, up: Option<usize>) -> Result<(), AllocError>
    ensures { Adds result text.old text.new (upwards up) }
{
    match up {
        Some(axis) => {
            let mut number = Buffer::new();
            add(
                text,
                &[b"axis ", number.format(axis.saturating_add(1)).as_bytes()],
            )
        }
        None => add(text, &[b"the levels"]),
    }
}

/// Adds the tree's size, and the axis to the right, counted from 1.
fn add_size(text: &mut Vec<u8>, rows: usize, capacity: usize, axis: usize) -> Result<(), AllocError>
    ensures { Adds result text.old text.new (size rows capacity axis) }
{
    let (mut many, mut most, mut across) = (Buffer::new(), Buffer::new(), Buffer::new());
    add(
        text,
        &[
            b"<text x=\"10000\" y=\"2500\">Rows: ",
            many.format(rows).as_bytes(),
            b"; capacity: ",
            most.format(capacity).as_bytes(),
            b"; to the right: axis ",
            across.format(axis).as_bytes(),
            b"; upwards: ",
        ],
    )
}

fn add_title(text: &mut Vec<u8>, rows: usize, capacity: usize, axes: Axes) -> Result<(), AllocError>
    ensures { Adds result text.old text.new (title rows capacity axes) }
{
    add_size(text, rows, capacity, axes.across.saturating_add(1))?;
    add_upwards(text, axes.up)?;
    add(text, &[b"</text>\n"])
}

/// Adds the ends of a range, each behind its text.
fn add_ends(
    text: &mut Vec<u8>,
    before_lo: &[u8],
    before_hi: &[u8],
    range: &Range,
) -> Result<(), AllocError>
    ensures { Adds result text.old text.new (ends_text before_lo.now before_hi.now range.now) }
{
    let (mut lo, mut hi) = (Buffer::new(), Buffer::new());
    add(
        text,
        &[
            before_lo,
            lo.format(range.lo).as_bytes(),
            before_hi,
            hi.format(range.hi).as_bytes(),
            b"</text>\n",
        ],
    )
}

/// Adds the ends of a range, unless it is empty.
fn add_range(
    text: &mut Vec<u8>,
    before_lo: &[u8],
    before_hi: &[u8],
    range: &Range,
) -> Result<(), AllocError>
    ensures { Adds result text.old text.new (range_text before_lo.now before_hi.now range.now) }
{
    if range.lo <= range.hi {
        add_ends(text, before_lo, before_hi, range)
    } else {
        Ok(())
    }
}

/// Adds the ends of the ranges, each beside its axis.
fn add_ranges(text: &mut Vec<u8>, frame: &Frame) -> Result<(), AllocError>
    ensures { Adds result text.old text.new (ranges_text frame.now) }
{
    add_range(
        text,
        b"<text x=\"10000\" y=\"85700\">",
        b"</text>\n<text x=\"90000\" y=\"85700\" text-anchor=\"end\">",
        &frame.across,
    )?;
    add_range(
        text,
        b"<text x=\"9500\" y=\"84000\" text-anchor=\"end\">",
        b"</text>\n<text x=\"9500\" y=\"5000\" text-anchor=\"end\">",
        &frame.up,
    )
}

/// Where the problems start in words.
fn start_of_problems(top: u8) -> u64
    ensures { result ≡ problems_start top }
{
    line_at(4 + u16::from(top))
}

/// How many pixels the picture is high.
fn height_of(top: u8, problems: &[Problem]) -> u64
    ensures { result ≡ height_of top problems.now }
{
    980 + 18 * (u64::from(top) + problems.len().min(MOST_LISTED) as u64)
}

/// Adds what stands before the boxes.
fn add_front(
    text: &mut Vec<u8>,
    height: u64,
    rows: usize,
    capacity: usize,
    frame: &Frame,
) -> Result<(), AllocError>
    ensures { Adds result text.old text.new (front_text height rows capacity frame.now) }
{
    add_head(text, height)?;
    add_title(text, rows, capacity, frame.axes)?;
    add_ranges(text, frame)
}

/// Adds the problems and the end.
fn add_end<const D: usize>(
    text: &mut Vec<u8>,
    frame: &Frame,
    start: u64,
    problems: &[Problem],
    shadow: &Shadow<D>,
) -> Result<(), AllocError>
    requires { IsWithin D frame.now.axes }
    ensures { Adds result text.old text.new (end_text frame.now start shadow.now.nodes problems.now) }
{
    add_problems(text, frame, start, problems, shadow)?;
    add(text, &[b"</svg>\n"])
}

/// How many rows there are.
fn count_of<const D: usize>(shadow: &Shadow<D>) -> usize
    ensures { result ≡ length shadow.now.rows }
{
    shadow.rows().len()
}

/// How many cells a node may have.
fn capacity_of<const D: usize>(shadow: &Shadow<D>) -> usize
    ensures { result ≡ shadow.now.capacity }
{
    shadow.capacity().greatest()
}

/// Adds the boxes of the levels that are drawn.
fn add_plot<const D: usize>(
    alloc: Global,
    text: &mut Vec<u8>,
    choice: &Choice,
    shadow: &Shadow<D>,
    frame: &Frame,
    rows: &[LevelRow],
) -> Result<(), AllocError>
    requires { IsWithin D frame.now.axes }
    ensures { Adds result text.old text.new (plot_text choice.now shadow.now frame.now rows.now) }
{
    let levels = levels_of(alloc, choice, rows)?;
    add_levels(text, frame, &levels, shadow)
}

/// Adds the whole picture.
fn add_picture<const D: usize>(
    alloc: Global,
    text: &mut Vec<u8>,
    choice: &Choice,
    shadow: &Shadow<D>,
    frame: &Frame,
    rows: &[LevelRow],
    problems: &[Problem],
) -> Result<(), AllocError>
    requires { IsWithin D frame.now.axes }
    ensures { Adds result text.old text.new (picture_from choice.now shadow.now frame.now rows.now problems.now) }
{
    let (height, start) = (height_of(frame.top, problems), start_of_problems(frame.top));
    let (count, capacity) = (count_of(shadow), capacity_of(shadow));
    let out = leaves_out(choice, rows);
    add_front(text, height, count, capacity, frame)?;
    add_plot(alloc, text, choice, shadow, frame, rows)?;
    add_legend(text, frame.top, capacity, rows, out)?;
    add_end(text, frame, start, problems, shadow)
}

/// The picture of a shadow in a frame.
fn draw_in<const D: usize>(
    alloc: Global,
    shadow: &Shadow<D>,
    frame: &Frame,
    choice: &Choice,
    rows: &[LevelRow],
    problems: &[Problem],
) -> Result<Vec<u8>, AllocError>
    requires { IsWithin D frame.now.axes }
    ensures { IfOk result (λ text. text.items ≡ picture_from choice.now shadow.now frame.now rows.now problems.now) }
{
    let mut text = Vec::new(alloc);
    add_picture(alloc, &mut text, choice, shadow, frame, rows, problems)?;
    Ok(text)
}

/// The picture of a shadow on the chosen axes.
fn draw_on<const D: usize>(
    alloc: Global,
    shadow: &Shadow<D>,
    axes: Axes,
    choice: &Choice,
) -> Result<Vec<u8>, AllocError>
    requires { IsWithin D axes }
    ensures { IfOk result (λ text. text.items ≡ picture_on choice.now shadow.now axes) }
{
    let problems = check(alloc, shadow)?;
    let frame = frame_of(shadow, axes);
    let rows = rows_of(alloc, axes, frame.top, shadow)?;
    draw_in(alloc, shadow, &frame, choice, &rows, &problems)
}

/// The picture of a shadow as the text of an SVG, or `None` if it doesn't have the axes that are chosen.
/// It takes memory for the shadow's problems and for the whole text.
pub fn draw<const D: usize>(
    alloc: Global,
    shadow: &Shadow<D>,
    choice: &Choice,
) -> Result<Option<Vec<u8>>, AllocError>
    ensures { IfOk result (λ text. option_map (λ text. text.items) text ≡ picture_of choice.now shadow.now) }
{
    // The shadow has at most three axes.
    let _nodes = shadow.nodes();
    match axes_of(choice, D) {
        Some(axes) => Ok(Some(draw_on(alloc, shadow, axes, choice)?)),
        None => Ok(None),
    }
}
