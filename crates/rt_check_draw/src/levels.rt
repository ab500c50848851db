//! What a legend says of a level, and which levels are drawn.

ghost use Rattle.std.specs.Prelude.{◌≡◌, ◌<◌, length, min, take, map, IfOk};
ghost use Rattle.rt_check_draw.specs.Axes.{IsWithin};
ghost use Rattle.rt_check_draw.specs.Levels.{shared_area, common_length, area_of, shared_with, shared_from, with_node, row_of, down_from, has_level, boxes_of, leaves_out, levels_of};

use crate::choice::{Axes, Choice};
use crate::scale::{Range, ends_of};
use rt_check::{NodeRow, RawCell, Shadow};
use std::alloc::{AllocError, Global};

/// A level's nodes and cells, summed up. A sum stops at its type's greatest number.
#[derive(Clone, Copy)]
pub(crate) struct LevelRow {
    pub(crate) level: u8,
    pub(crate) nodes: u64,
    pub(crate) cells: u64,
    /// The cells' areas.
    pub(crate) area: u128,
    /// The areas that two cells of a node have in common.
    pub(crate) shared: u128,
}

/// The area of what two cells have in common, on the axes that are drawn.
fn shared_area<const D: usize>(axes: Axes, one: &RawCell<D>, other: &RawCell<D>) -> u128
    requires { IsWithin D axes }
    ensures { result ≡ shared_area axes one.now other.now }
{
    let across = common_length(axes.across, one, other);
    match axes.up {
        Some(up) => u128::from(across) * u128::from(common_length(up, one, other)),
        None => u128::from(across),
    }
}

fn common_length<const D: usize>(axis: usize, one: &RawCell<D>, other: &RawCell<D>) -> u64
    requires { axis < D }
    ensures value { result ≡ common_length one.now other.now axis }
    ensures bound { result < 4294967296 }
{
    ends_of(one, axis)
        .common_part(ends_of(other, axis))
        .length()
}

fn area_of_cells<const D: usize>(axes: Axes, node: &NodeRow<D>) -> u128
    requires { IsWithin D axes }
    ensures { result ≡ area_of axes node.now.cells }
{
    let mut area: u128 = 0;
    for cell in node.cells.as_slice() {
        area = area.saturating_add(shared_area(axes, cell, cell));
    }
    area
}

fn shared_with<const D: usize>(axes: Axes, cell: &RawCell<D>, others: &[RawCell<D>]) -> u128
    requires { IsWithin D axes }
    ensures { result ≡ shared_with axes cell.now others.now }
{
    let mut area: u128 = 0;
    for other in others {
        area = area.saturating_add(shared_area(axes, cell, other));
    }
    area
}

/// What two of the node's first cells have in common. No sound node has more than its capacity.
fn shared_by_cells<const D: usize>(axes: Axes, most: usize, node: &NodeRow<D>) -> u128
    requires { IsWithin D axes }
    ensures { result ≡ shared_from axes 0 (take (min (length node.now.cells) most) node.now.cells) }
{
    let mut area: u128 = 0;
    let cells = node.cells.as_slice();
    let mut rest = &cells[..cells.len().min(most)];
    while let [cell, others @ ..] = rest {
        area = area.saturating_add(shared_with(axes, cell, others));
        rest = others;
    }
    area
}

/// Adds a node of the level.
fn with_node<const D: usize>(axes: Axes, most: usize, row: LevelRow, node: &NodeRow<D>) -> LevelRow
    requires { IsWithin D axes }
    ensures { result ≡ with_node axes most row node.now }
{
    LevelRow {
        level: row.level,
        nodes: row.nodes.saturating_add(1),
        cells: row.cells.saturating_add(node.cells.len() as u64),
        area: row.area.saturating_add(area_of_cells(axes, node)),
        shared: row.shared.saturating_add(shared_by_cells(axes, most, node)),
    }
}

fn row_of<const D: usize>(axes: Axes, level: u8, shadow: &Shadow<D>) -> LevelRow
    requires { IsWithin D axes }
    ensures { result ≡ row_of axes shadow.now level }
{
    let mut row = LevelRow {
        level,
        nodes: 0,
        cells: 0,
        area: 0,
        shared: 0,
    };
    let most = shadow.capacity().greatest();
    for node in shadow.nodes() {
        if node.level == level {
            row = with_node(axes, most, row, node);
        }
    }
    row
}

/// The rows of a legend, from the highest level down.
pub(crate) fn rows_of<const D: usize>(
    alloc: Global,
    axes: Axes,
    top: u8,
    shadow: &Shadow<D>,
) -> Result<Vec<LevelRow>, AllocError>
    requires { IsWithin D axes }
    ensures { IfOk result (λ rows. rows.items ≡ map (row_of axes shadow.now) (down_from top)) }
{
    let mut rows = Vec::new(alloc);
    let mut next = Some(top);
    while let Some(level) = next {
        rows.push(row_of(axes, level, shadow))?;
        next = level.checked_sub(1);
    }
    Ok(rows)
}

/// How many boxes are drawn at most, unless all are asked for.
const MOST_BOXES: u64 = 20_000;

impl Choice {
    fn has_level(&self, level: u8) -> bool
        ensures { result ≡ has_level self.now level }
    {
        self.lowest <= level && level <= self.highest
    }
}

fn boxes_of(choice: &Choice, rows: &[LevelRow]) -> u64
    ensures { result ≡ boxes_of choice.now rows.now }
{
    let mut boxes: u64 = 0;
    for row in rows {
        if choice.has_level(row.level) {
            boxes = boxes.saturating_add(row.cells);
        }
    }
    boxes
}

/// Whether the leaves' cells are left out.
pub(crate) fn leaves_out(choice: &Choice, rows: &[LevelRow]) -> bool
    ensures { result ≡ leaves_out choice.now rows.now }
{
    !choice.all && choice.has_level(0) && boxes_of(choice, rows) > MOST_BOXES
}

/// The levels that are drawn.
pub(crate) fn levels_of(
    alloc: Global,
    choice: &Choice,
    rows: &[LevelRow],
) -> Result<Vec<u8>, AllocError>
    ensures { IfOk result (λ levels. levels.items ≡ levels_of choice.now rows.now) }
{
    let without_leaves = leaves_out(choice, rows);
    let mut levels = Vec::new(alloc);
    for row in rows {
        if choice.has_level(row.level) && !(without_leaves && row.level == 0) {
            levels.push(row.level)?;
        }
    }
    Ok(levels)
}
