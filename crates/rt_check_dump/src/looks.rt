//! What its types say of a shadow.
//!
//! A proof knows that a number fits its type once code has read it. These calls read each number and do nothing
//! else; `laws` needs them (`specs/InRange.antt`).

ghost use Rattle.std.specs.Prelude.{◌≡◌, ◌≤◌, length};
ghost use Rattle.std.specs.List.{All};
ghost use Rattle.rt_check_dump.specs.InRange.{IsInt, IsCellInRange, IsNodeInRange, IsRowInRange, IsInRange, IsAnyInRange};

use crate::dump::AnyShadow;
use rt_check::{NodeRow, RawCell, RowEntry, Shadow};

/// Looks at a coordinate.
fn look_at_coordinate(coordinate: &i32)
    ensures { IsInt coordinate.now }
{
    let _coordinate = *coordinate;
}

/// Looks at each coordinate.
fn look_at_coordinates(coordinates: &[i32])
    ensures { All IsInt coordinates.now }
{
    for coordinate in coordinates {
        look_at_coordinate(coordinate);
    }
}

/// Looks at the coordinates on each axis.
fn look_at_axes<const D: usize>(coordinates: &[i32; D])
    ensures axes { length coordinates.now ≡ D }
    ensures each { All IsInt coordinates.now }
{
    look_at_coordinates(coordinates.as_slice());
}

/// Looks at a cell.
fn look_at_cell<const D: usize>(cell: &RawCell<D>)
    ensures { IsCellInRange cell.now }
{
    let _number = cell.number;
    look_at_axes(&cell.lo);
    look_at_axes(&cell.hi);
}

/// Looks at each cell.
fn look_at_cells<const D: usize>(cells: &[RawCell<D>])
    requires { D ≤ 3 }
    ensures { All IsCellInRange cells.now }
{
    for cell in cells {
        look_at_cell(cell);
    }
}

/// Looks at a node and its cells.
fn look_at_node<const D: usize>(node: &NodeRow<D>)
    requires { D ≤ 3 }
    ensures { IsNodeInRange node.now }
{
    let _number = node.number;
    let _level = node.level;
    if let Some(parent) = node.parent {
        let _parent = parent;
    }
    look_at_cells(node.cells.as_slice());
}

/// Looks at each node.
fn look_at_nodes<const D: usize>(nodes: &[NodeRow<D>])
    requires { D ≤ 3 }
    ensures { All IsNodeInRange nodes.now }
{
    for node in nodes {
        look_at_node(node);
    }
}

/// Looks at a row entry.
fn look_at_row(row: &RowEntry)
    ensures { IsRowInRange row.now }
{
    let _id = row.id;
    let _leaf = row.leaf;
}

/// Looks at each row entry.
fn look_at_rows(rows: &[RowEntry])
    ensures { All IsRowInRange rows.now }
{
    for row in rows {
        look_at_row(row);
    }
}

/// Looks at a shadow's nodes and row entries.
fn look_at_shadow<const D: usize>(shadow: &Shadow<D>)
    ensures { IsInRange shadow.now }
{
    let _greatest = shadow.capacity().greatest();
    let _root = shadow.root();
    look_at_nodes(shadow.nodes());
    look_at_rows(shadow.rows());
}

/// Looks at a shadow of one, two or three axes.
pub(crate) fn look_at(shadow: &AnyShadow)
    ensures { IsAnyInRange shadow.now }
{
    match shadow {
        AnyShadow::One(shadow) => look_at_shadow(shadow),
        AnyShadow::Two(shadow) => look_at_shadow(shadow),
        AnyShadow::Three(shadow) => look_at_shadow(shadow),
    }
}
