//! The boxes of a picture, level by level.

ghost use Rattle.std.specs.Prelude.{◌≡◌};
ghost use Rattle.std.specs.List.{flat_map};
ghost use Rattle.rt_check_draw.specs.Axes.{IsWithin};
ghost use Rattle.rt_check_draw.specs.Text.{Adds};
ghost use Rattle.rt_check_draw.specs.Boxes.{level_colours, place_text, word_for, cell_name, problem_words, title_words, box_line, level_boxes, hue_of, stroke_of, opacity_of, level_start, level_text};

use crate::scale::{Frame, Place};
use crate::text::add;
use itoa::Buffer;
use rt_check::{NodeRow, Problem, RawCell, Shadow};
use std::alloc::AllocError;

/// What the title of a box says.
#[derive(Clone, Copy)]
pub(crate) enum Title {
    /// What the cell names: a row, or a node.
    Name,
    /// The words of a problem.
    Words(Problem),
}

/// Adds the start of a box, up to its title.
fn add_place(text: &mut Vec<u8>, place: Place) -> Result<(), AllocError>
    ensures { Adds result text.old text.new (place_text place) }
{
    let (mut x, mut y) = (Buffer::new(), Buffer::new());
    let (mut width, mut height) = (Buffer::new(), Buffer::new());
    add(
        text,
        &[
            b"<rect x=\"",
            x.format(place.across.start).as_bytes(),
            b"\" y=\"",
            y.format(place.up.start).as_bytes(),
            b"\" width=\"",
            width.format(place.across.length).as_bytes(),
            b"\" height=\"",
            height.format(place.up.length).as_bytes(),
            b"\">",
        ],
    )
}

/// What the cells of a level name.
fn word_for(level: u8) -> &'static str
    ensures { result.now ≡ word_for level }
{
    if level == 0 { "row " } else { "node " }
}

/// Adds what a cell names.
fn add_name(text: &mut Vec<u8>, level: u8, number: i64) -> Result<(), AllocError>
    ensures { Adds result text.old text.new (cell_name level number) }
{
    let mut id = Buffer::new();
    add(
        text,
        &[word_for(level).as_bytes(), id.format(number).as_bytes()],
    )
}

/// Adds a problem in words, as `C6 node 1 at 2`.
pub(crate) fn add_words(text: &mut Vec<u8>, problem: &Problem) -> Result<(), AllocError>
    ensures { Adds result text.old text.new (problem_words problem.now) }
{
    let (mut condition, mut node, mut position) = (Buffer::new(), Buffer::new(), Buffer::new());
    add(
        text,
        &[
            b"C",
            condition.format(problem.condition.code()).as_bytes(),
            b" node ",
            node.format(problem.node).as_bytes(),
            b" at ",
            position.format(problem.position).as_bytes(),
        ],
    )
}

fn add_title(text: &mut Vec<u8>, title: &Title, level: u8, number: i64) -> Result<(), AllocError>
    ensures { Adds result text.old text.new (title_words title.now level number) }
{
    match title {
        Title::Name => add_name(text, level, number),
        Title::Words(problem) => add_words(text, problem),
    }
}

/// Adds the box of a cell of a node on that level.
pub(crate) fn add_box<const D: usize>(
    text: &mut Vec<u8>,
    frame: &Frame,
    title: &Title,
    level: u8,
    cell: &RawCell<D>,
) -> Result<(), AllocError>
    requires { IsWithin D frame.now.axes }
    ensures { Adds result text.old text.new (box_line title.now frame.now level cell.now) }
{
    add_place(text, frame.place_of(level, cell))?;
    add(text, &[b"<title>"])?;
    add_title(text, title, level, cell.number)?;
    add(text, &[b"</title></rect>\n"])
}

/// Adds the boxes of a node's cells.
pub(crate) fn add_boxes<const D: usize>(
    text: &mut Vec<u8>,
    frame: &Frame,
    title: &Title,
    node: &NodeRow<D>,
) -> Result<(), AllocError>
    requires { IsWithin D frame.now.axes }
    ensures { Adds result text.old text.new (flat_map (box_line title.now frame.now node.now.level) node.now.cells) }
{
    for cell in node.cells.as_slice() {
        add_box(text, frame, title, node.level, cell)?;
    }
    Ok(())
}

fn add_nodes<const D: usize>(
    text: &mut Vec<u8>,
    frame: &Frame,
    level: u8,
    shadow: &Shadow<D>,
) -> Result<(), AllocError>
    requires { IsWithin D frame.now.axes }
    ensures { Adds result text.old text.new (level_boxes frame.now shadow.now.nodes level) }
{
    for node in shadow.nodes() {
        if node.level == level {
            add_boxes(text, frame, &Title::Name, node)?;
        }
    }
    Ok(())
}

/// The hue of a level's colour: from 40 to 319, so that none is red.
pub(crate) fn hue_of(level: u8) -> u64
    ensures { result ≡ hue_of level }
{
    40 + (170 + 173 * u64::from(level)) % 280
}

/// How thick a level's lines are: thicker upwards, so that a box shows beside those in it.
fn stroke_of(level: u8) -> u64
    ensures { result ≡ stroke_of level }
{
    50 + 50 * u64::from(level.min(4))
}

/// How dense a level's boxes are filled.
fn opacity_of(level: u8) -> &'static str
    ensures { result.now ≡ opacity_of level }
{
    if level == 0 { "0.15" } else { "0" }
}

fn add_colours(text: &mut Vec<u8>, level: u8, hue: u64, width: u64) -> Result<(), AllocError>
    ensures { Adds result text.old text.new (level_colours level hue width) }
{
    let (mut colour, mut stroke) = (Buffer::new(), Buffer::new());
    add(
        text,
        &[
            b"<g stroke=\"currentColor\" fill=\"currentColor\" color=\"hsl(",
            colour.format(hue).as_bytes(),
            b",70%,40%)\" fill-opacity=\"",
            opacity_of(level).as_bytes(),
            b"\" stroke-width=\"",
            stroke.format(width).as_bytes(),
            b"\">\n",
        ],
    )
}

fn add_start(text: &mut Vec<u8>, level: u8) -> Result<(), AllocError>
    ensures { Adds result text.old text.new (level_start level) }
{
    add_colours(text, level, hue_of(level), stroke_of(level))
}

fn add_level<const D: usize>(
    text: &mut Vec<u8>,
    frame: &Frame,
    level: u8,
    shadow: &Shadow<D>,
) -> Result<(), AllocError>
    requires { IsWithin D frame.now.axes }
    ensures { Adds result text.old text.new (level_text frame.now shadow.now.nodes level) }
{
    add_start(text, level)?;
    add_nodes(text, frame, level, shadow)?;
    add(text, &[b"</g>\n"])
}

/// Adds the boxes of the levels.
pub(crate) fn add_levels<const D: usize>(
    text: &mut Vec<u8>,
    frame: &Frame,
    levels: &[u8],
    shadow: &Shadow<D>,
) -> Result<(), AllocError>
    requires { IsWithin D frame.now.axes }
    ensures { Adds result text.old text.new (flat_map (level_text frame.now shadow.now.nodes) levels.now) }
{
    for level in levels {
        add_level(text, frame, *level, shadow)?;
    }
    Ok(())
}
