//! The legend of a picture: a line for each level.

ghost use Rattle.std.specs.Prelude.{◌≡◌, ◌+◌, ◌*◌, ◌-◌};
ghost use Rattle.std.specs.List.{flat_map};
ghost use Rattle.rt_check_draw.specs.Text.{Adds};
ghost use Rattle.rt_check_draw.specs.Legend.{percent_of, line_at, row_start, row_counts, row_shares, row_text, legend_head, note_text, note_if, legend_text};

use crate::boxes::hue_of;
use crate::levels::LevelRow;
use crate::text::add;
use itoa::Buffer;
use std::alloc::AllocError;

/// Where the legend starts, and how high each line is.
const LEGEND: u64 = 89_000;

const LINE: u64 = 1_800;

/// Where the line stands that is `line` lines below the legend's head.
pub(crate) fn line_at(line: u16) -> u64
    ensures { result ≡ line_at line }
{
    LEGEND + LINE * u64::from(line)
}

/// How many hundredths the one is of the other.
fn percent_of(part: u128, whole: u128) -> u128
    ensures { result ≡ percent_of part whole }
{
    match part.saturating_mul(100).checked_div(whole) {
        Some(percent) => percent,
        None => 0,
    }
}

/// How full a level's nodes are, in per cent.
fn fill_of(row: &LevelRow, capacity: usize) -> u128
    ensures { result ≡ percent_of row.now.cells (row.now.nodes * capacity) }
{
    percent_of(
        u128::from(row.cells),
        u128::from(row.nodes) * capacity as u128,
    )
}

/// Where a level's line stands.
fn line_of(top: u8, row: &LevelRow) -> u64
    ensures { result ≡ line_at (1 + (top - row.now.level)) }
{
    line_at(1 + u16::from(top.saturating_sub(row.level)))
}

/// Adds the start of a level's line.
fn add_row_start(text: &mut Vec<u8>, hue: u64, y: u64) -> Result<(), AllocError>
    ensures { Adds result text.old text.new (row_start hue y) }
{
    let (mut colour, mut line) = (Buffer::new(), Buffer::new());
    add(
        text,
        &[
            b"<text text-anchor=\"end\" fill=\"hsl(",
            colour.format(hue).as_bytes(),
            b",70%,30%)\" y=\"",
            line.format(y).as_bytes(),
            b"\">",
        ],
    )
}

/// Adds a level's nodes and cells.
fn add_row_counts(text: &mut Vec<u8>, row: &LevelRow) -> Result<(), AllocError>
    ensures { Adds result text.old text.new (row_counts row.now) }
{
    let (mut level, mut nodes, mut cells) = (Buffer::new(), Buffer::new(), Buffer::new());
    add(
        text,
        &[
            b"<tspan x=\"14000\">",
            level.format(row.level).as_bytes(),
            b"</tspan><tspan x=\"26000\">",
            nodes.format(row.nodes).as_bytes(),
            b"</tspan><tspan x=\"42000\">",
            cells.format(row.cells).as_bytes(),
        ],
    )
}

/// Adds the mean fill and the overlap.
fn add_row_shares(text: &mut Vec<u8>, fill: u128, overlap: u128) -> Result<(), AllocError>
    ensures { Adds result text.old text.new (row_shares fill overlap) }
{
    let (mut filled, mut shared) = (Buffer::new(), Buffer::new());
    add(
        text,
        &[
            b"</tspan><tspan x=\"56000\">",
            filled.format(fill).as_bytes(),
            b" %</tspan><tspan x=\"76000\">",
            shared.format(overlap).as_bytes(),
            b" %</tspan></text>\n",
        ],
    )
}

/// Adds a level's line.
fn add_row(text: &mut Vec<u8>, top: u8, capacity: usize, row: &LevelRow) -> Result<(), AllocError>
    ensures { Adds result text.old text.new (row_text top capacity row.now) }
{
    let (hue, y) = (hue_of(row.level), line_of(top, row));
    let (fill, overlap) = (fill_of(row, capacity), percent_of(row.shared, row.area));
    add_row_start(text, hue, y)?;
    add_row_counts(text, row)?;
    add_row_shares(text, fill, overlap)
}

fn add_rows(
    text: &mut Vec<u8>,
    top: u8,
    capacity: usize,
    rows: &[LevelRow],
) -> Result<(), AllocError>
    ensures { Adds result text.old text.new (flat_map (row_text top capacity) rows.now) }
{
    for row in rows {
        add_row(text, top, capacity, row)?;
    }
    Ok(())
}

/// Adds the legend's head.
fn add_legend_head(text: &mut Vec<u8>) -> Result<(), AllocError>
    ensures { Adds result text.old text.new legend_head }
{
    add(
        text,
        &[
            b"<text text-anchor=\"end\" y=\"89000\"><tspan x=\"14000\">level</tspan><tspan x=\"26000\">nodes</tspan>",
            b"<tspan x=\"42000\">cells</tspan><tspan x=\"56000\">mean fill</tspan><tspan x=\"76000\">overlap of siblings</tspan></text>\n",
        ],
    )
}

/// Adds that the leaves' cells are left out.
fn add_note(text: &mut Vec<u8>, top: u8) -> Result<(), AllocError>
    ensures { Adds result text.old text.new (note_text top) }
{
    let mut y = Buffer::new();
    let line = line_at(2 + u16::from(top));
    add(
        text,
        &[
            b"<text x=\"10000\" y=\"",
            y.format(line).as_bytes(),
            b"\">More than 20000 boxes: the cells of the leaves are left out (--all draws them)</text>\n",
        ],
    )
}

/// Adds that the leaves' cells are left out, if they are.
fn add_note_if(text: &mut Vec<u8>, out: bool, top: u8) -> Result<(), AllocError>
    ensures { Adds result text.old text.new (note_if out top) }
{
    if out { add_note(text, top) } else { Ok(()) }
}

/// Adds the legend.
pub(crate) fn add_legend(
    text: &mut Vec<u8>,
    top: u8,
    capacity: usize,
    rows: &[LevelRow],
    out: bool,
) -> Result<(), AllocError>
    ensures { Adds result text.old text.new (legend_text top capacity rows.now out) }
{
    add_legend_head(text)?;
    add_rows(text, top, capacity, rows)?;
    add_note_if(text, out, top)
}
