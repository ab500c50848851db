//! A shadow written as text.
//!
//! The contract of each call names the bytes that it writes, by `specs/Dump.antt`. Numbers are formatted on the
//! stack, so writing takes no memory.

ghost use Rattle.std.specs.Prelude.{◌<◌, ◌++◌, ◌∷◌, codes};
ghost use Rattle.std.specs.List.{flat_map, zip};
ghost use Rattle.std.specs.Fmt.{signed_decimal};
ghost use Rattle.rt_bytes.specs.Devices.{WritesTo};
ghost use Rattle.rt_check_dump.specs.Dump.{header_line, node_line, cell_line, row_line, node_text, shadow_text, range_on, range_text, any_text};

use itoa::Buffer;
use rt_bytes::{ByteWriter, WriteFault, write_parts, write_whole};
use rt_check::{NodeRow, RawCell, RowEntry, Shadow};

/// A shadow of one, two or three axes.
pub enum AnyShadow {
    /// One axis.
    One(Shadow<1>),
    /// Two axes.
    Two(Shadow<2>),
    /// Three axes.
    Three(Shadow<3>),
}

// By hand, since a derived drop is written out, field by field, wherever such a value ends.
impl Drop for AnyShadow {
    fn drop(self) {
        match self {
            AnyShadow::One(_) => {}
            AnyShadow::Two(_) => {}
            AnyShadow::Three(_) => {}
        }
    }
}

fn write_range<const D: usize, W: ByteWriter>(
    writer: &mut W,
    cell: &RawCell<D>,
    axis: usize,
) -> Result<(), WriteFault>
    requires { axis < D }
    ensures { WritesTo W.ByteWriter writer.old writer.new result (range_text (range_on cell.now axis)) }
{
    let mut lo = Buffer::new();
    let mut hi = Buffer::new();
    write_parts(
        writer,
        &[
            b" ",
            lo.format(cell.lo[axis]).as_bytes(),
            b" ",
            hi.format(cell.hi[axis]).as_bytes(),
        ],
    )
}

fn write_ranges<const D: usize, W: ByteWriter>(
    writer: &mut W,
    cell: &RawCell<D>,
) -> Result<(), WriteFault>
    ensures { WritesTo W.ByteWriter writer.old writer.new result (flat_map range_text (zip cell.now.lo cell.now.hi)) }
{
    for axis in 0..cell.axes() {
        write_range(writer, cell, axis)?;
    }
    Ok(())
}

/// Writes a cell's line up to its number.
fn write_cell_start<const D: usize, W: ByteWriter>(
    writer: &mut W,
    cell: &RawCell<D>,
) -> Result<(), WriteFault>
    ensures { WritesTo W.ByteWriter writer.old writer.new result (codes "cell" ++ 32 ∷ signed_decimal cell.now.number) }
{
    let mut number = Buffer::new();
    write_parts(writer, &[b"cell ", number.format(cell.number).as_bytes()])
}

fn write_cell<const D: usize, W: ByteWriter>(
    writer: &mut W,
    cell: &RawCell<D>,
) -> Result<(), WriteFault>
    ensures { WritesTo W.ByteWriter writer.old writer.new result (cell_line cell.now) }
{
    write_cell_start(writer, cell)?;
    write_ranges(writer, cell)?;
    write_whole(writer, b"\n")
}

fn write_cells<const D: usize, W: ByteWriter>(
    writer: &mut W,
    node: &NodeRow<D>,
) -> Result<(), WriteFault>
    ensures { WritesTo W.ByteWriter writer.old writer.new result (flat_map cell_line node.now.cells) }
{
    for cell in node.cells.as_slice() {
        write_cell(writer, cell)?;
    }
    Ok(())
}

fn write_node_line<const D: usize, W: ByteWriter>(
    writer: &mut W,
    node: &NodeRow<D>,
) -> Result<(), WriteFault>
    ensures { WritesTo W.ByteWriter writer.old writer.new result (node_line node.now) }
{
    let mut number = Buffer::new();
    let mut level = Buffer::new();
    let mut parent = Buffer::new();
    let mut count = Buffer::new();
    let parent = match &node.parent {
        Some(number) => parent.format(*number).as_bytes(),
        None => b"-",
    };
    write_parts(
        writer,
        &[
            b"node ",
            number.format(node.number).as_bytes(),
            b" ",
            level.format(node.level).as_bytes(),
            b" ",
            parent,
            b" ",
            count.format(node.cells.len()).as_bytes(),
            b"\n",
        ],
    )
}

fn write_node<const D: usize, W: ByteWriter>(
    writer: &mut W,
    node: &NodeRow<D>,
) -> Result<(), WriteFault>
    ensures { WritesTo W.ByteWriter writer.old writer.new result (node_text node.now) }
{
    write_node_line(writer, node)?;
    write_cells(writer, node)
}

fn write_nodes<const D: usize, W: ByteWriter>(
    writer: &mut W,
    shadow: &Shadow<D>,
) -> Result<(), WriteFault>
    ensures { WritesTo W.ByteWriter writer.old writer.new result (flat_map node_text shadow.now.nodes) }
{
    for node in shadow.nodes() {
        write_node(writer, node)?;
    }
    Ok(())
}

fn write_row<W: ByteWriter>(writer: &mut W, row: &RowEntry) -> Result<(), WriteFault>
    ensures { WritesTo W.ByteWriter writer.old writer.new result (row_line row.now) }
{
    let mut id = Buffer::new();
    let mut leaf = Buffer::new();
    write_parts(
        writer,
        &[
            b"row ",
            id.format(row.id).as_bytes(),
            b" ",
            leaf.format(row.leaf).as_bytes(),
            b"\n",
        ],
    )
}

fn write_rows<const D: usize, W: ByteWriter>(
    writer: &mut W,
    shadow: &Shadow<D>,
) -> Result<(), WriteFault>
    ensures { WritesTo W.ByteWriter writer.old writer.new result (flat_map row_line shadow.now.rows) }
{
    for row in shadow.rows() {
        write_row(writer, row)?;
    }
    Ok(())
}

fn write_header<const D: usize, W: ByteWriter>(
    writer: &mut W,
    shadow: &Shadow<D>,
) -> Result<(), WriteFault>
    ensures { WritesTo W.ByteWriter writer.old writer.new result (header_line shadow.now) }
{
    let mut axes = Buffer::new();
    let mut capacity = Buffer::new();
    let mut root = Buffer::new();
    let mut nodes = Buffer::new();
    let mut rows = Buffer::new();
    write_parts(
        writer,
        &[
            b"rtree ",
            axes.format(D).as_bytes(),
            b" ",
            capacity.format(shadow.capacity().greatest()).as_bytes(),
            b" ",
            root.format(shadow.root()).as_bytes(),
            b" ",
            nodes.format(shadow.nodes().len()).as_bytes(),
            b" ",
            rows.format(shadow.rows().len()).as_bytes(),
            b"\n",
        ],
    )
}

fn write_shadow<const D: usize, W: ByteWriter>(
    writer: &mut W,
    shadow: &Shadow<D>,
) -> Result<(), WriteFault>
    ensures { WritesTo W.ByteWriter writer.old writer.new result (shadow_text shadow.now) }
{
    write_header(writer, shadow)?;
    write_nodes(writer, shadow)?;
    write_rows(writer, shadow)?;
    write_whole(writer, b"end\n")
}

/// Writes a shadow's text, a line each for the shadow, its nodes, their cells and the row entries. After a
/// fault a prefix of it is written. Takes no memory.
///
/// ```text
/// rtree 1 5 1 1 1       axes, capacity, root, counts of nodes and rows
/// node 1 0 - 1          number, level, parent, count of cells
/// cell 7 0 2            number, and lo and hi on each axis
/// row 7 1               id, leaf
/// end
/// ```
pub fn write_dump<W: ByteWriter>(shadow: &AnyShadow, writer: &mut W) -> Result<(), WriteFault>
    ensures { WritesTo W.ByteWriter writer.old writer.new result (any_text shadow.now) }
{
    match shadow {
        AnyShadow::One(shadow) => write_shadow(writer, shadow),
        AnyShadow::Two(shadow) => write_shadow(writer, shadow),
        AnyShadow::Three(shadow) => write_shadow(writer, shadow),
    }
}
