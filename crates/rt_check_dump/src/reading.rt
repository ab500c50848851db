//! A dump read line by line.
//!
//! The counts in the lines before say which kind of line is due. `specs/Reading.antt` defines this reading step by
//! step, and `specs/Faults.antt` what a dump is and what each fault of a text is.

ghost use Rattle.std.specs.Prelude.{◌≡◌, ◌≤◌, ◌<◌, ◌-◌, ◌^◌, [], ◌∷◌, Ok, Err, IfOk, IfErr, length};
ghost use Rattle.rt_check_dump.specs.Lines.{words, kind_of, node_head, row_entry, raw_cell, axes_of, capacity_of, header_of};
ghost use Rattle.rt_check_dump.specs.Reading.{due, empty_node, after_head, after_cell, after_row, after_kind, after_line, Gives, is_nothing, is_end, after_last, read_rest, ReadsUpTo, fault_at, Reads, IsDumpFaultOf, start, read_body, read_kind, read_text};
ghost use Rattle.rt_check_dump.specs.Faults.{IsTextOf};

use crate::dump::AnyShadow;
use crate::fault::{DumpFault, LineFault};
use crate::lines::{LineKind, NodeHead, kind_of, node_head, raw_cell, row_entry};
use crate::numbers::{byte_of, count_of, positive_of};
use crate::pieces::Pieces;
use rt_box::Capacity;
use rt_check::{Items, NodeRow, Shadow, ShadowFault};
use std::alloc::Global;
use std::hash::RandomState;

/// Why a line isn't taken.
#[derive(Clone, Copy)]
pub(crate) enum StepFault {
    /// The line has a fault.
    Line(LineFault),
    /// No memory is left.
    Memory,
}

impl StepFault {
    /// What is wrong with a dump of which this line isn't taken.
    fn at(self, line: u64) -> DumpFault
        ensures { result ≡ fault_at line self }
    {
        match self {
            StepFault::Line(fault) => DumpFault::At { line, fault },
            StepFault::Memory => DumpFault::Memory,
        }
    }
}

/// A shadow of which some lines are read, and how many lines of each kind are to come.
#[derive(Drop)]
pub(crate) struct Progress<const D: usize> {
    pub(crate) shadow: Shadow<D>,
    pub(crate) nodes: u64,
    pub(crate) rows: u64,
    pub(crate) cells: u64,
}

/// The kind of line that is due.
fn due<const D: usize>(progress: &Progress<D>) -> LineKind
    ensures { result ≡ due progress.now }
{
    if progress.cells > 0 {
        return LineKind::Cell;
    }
    if progress.nodes > 0 {
        return LineKind::Node;
    }
    if progress.rows > 0 {
        return LineKind::Row;
    }
    LineKind::End
}

fn empty_node<const D: usize>(alloc: Global, head: &NodeHead) -> NodeRow<D>
    ensures { result ≡ empty_node head.now }
{
    NodeRow {
        number: head.number,
        level: head.level,
        parent: head.parent,
        cells: Items::new(alloc),
    }
}

fn take_head<const D: usize>(
    progress: &mut Progress<D>,
    alloc: Global,
    line: &[u8],
) -> Result<(), StepFault>
    ensures { Gives (after_head progress.old (node_head (words line.now))) result progress.new }
{
    let Some(head) = node_head(line) else {
        return Err(StepFault::Line(LineFault::OutOfRange));
    };
    match progress.shadow.add_node(empty_node(alloc, &head)) {
        Ok(()) => {}
        Err(ShadowFault::Twice) => return Err(StepFault::Line(LineFault::ListedTwice)),
        Err(ShadowFault::Memory) => return Err(StepFault::Memory),
    }
    progress.nodes = progress.nodes.saturating_sub(1);
    progress.cells = head.cells;
    Ok(())
}

fn take_cell<const D: usize>(progress: &mut Progress<D>, line: &[u8]) -> Result<(), StepFault>
    requires { D ≤ 3 }
    ensures { Gives (after_cell progress.old (raw_cell D (words line.now))) result progress.new }
{
    let Some(cell) = raw_cell(line) else {
        return Err(StepFault::Line(LineFault::OutOfRange));
    };
    if progress.shadow.add_cell(cell).is_err() {
        return Err(StepFault::Memory);
    }
    progress.cells = progress.cells.saturating_sub(1);
    Ok(())
}

fn take_row<const D: usize>(progress: &mut Progress<D>, line: &[u8]) -> Result<(), StepFault>
    ensures { Gives (after_row progress.old (row_entry (words line.now))) result progress.new }
{
    let Some(row) = row_entry(line) else {
        return Err(StepFault::Line(LineFault::OutOfRange));
    };
    match progress.shadow.add_row(row) {
        Ok(()) => {}
        Err(ShadowFault::Twice) => return Err(StepFault::Line(LineFault::ListedTwice)),
        Err(ShadowFault::Memory) => return Err(StepFault::Memory),
    }
    progress.rows = progress.rows.saturating_sub(1);
    Ok(())
}

/// Takes a line of that kind, if it is due.
fn take_kind<const D: usize>(
    progress: &mut Progress<D>,
    alloc: Global,
    line: &[u8],
    kind: LineKind,
) -> Result<(), StepFault>
    requires { D ≤ 3 }
    ensures { Gives (after_kind progress.old (words line.now) (due progress.old) kind) result progress.new }
{
    match (due(progress), kind) {
        (LineKind::Node, LineKind::Node) => take_head(progress, alloc, line),
        (LineKind::Cell, LineKind::Cell) => take_cell(progress, line),
        (LineKind::Row, LineKind::Row) => take_row(progress, line),
        (LineKind::End, LineKind::End) => Ok(()),
        (LineKind::Header | LineKind::Node | LineKind::Cell | LineKind::Row | LineKind::End, _) =>
            Err(StepFault::Line(LineFault::CountWrong)),
    }
}

/// Takes a line after the header.
fn take_line<const D: usize>(
    progress: &mut Progress<D>,
    alloc: Global,
    line: &[u8],
) -> Result<(), StepFault>
    requires { D ≤ 3 }
    ensures { Gives (after_line progress.old line.now) result progress.new }
{
    match kind_of(line, Some(D)) {
        Some(kind) => take_kind(progress, alloc, line, kind),
        None => Err(StepFault::Line(LineFault::BadLine)),
    }
}

/// Whether the last line is due.
fn is_at_end<const D: usize>(progress: &Progress<D>) -> bool
    ensures { result ≡ is_end (due progress.now) }
{
    match due(progress) {
        LineKind::End => true,
        LineKind::Header | LineKind::Node | LineKind::Cell | LineKind::Row => false,
    }
}

/// Whether the text has ended.
fn is_nothing(lines: &mut Pieces<'_>) -> bool
    ensures { result ≡ is_nothing lines.old }
{
    match lines.next() {
        Some(rest) => rest.is_empty() && lines.is_done(),
        None => false,
    }
}

/// The shadow, if the text has ended; else that line is one too many.
fn read_end<const D: usize>(
    shadow: Shadow<D>,
    lines: &mut Pieces<'_>,
    line: u64,
) -> Result<Shadow<D>, DumpFault>
    ensures { Reads (after_last shadow.entry line lines.old) result }
{
    if is_nothing(lines) {
        return Ok(shadow);
    }
    Err(DumpFault::At {
        line,
        fault: LineFault::BadLine,
    })
}

/// Takes the lines up to the last, and returns the number of the line after it. The progress is borrowed, since a
/// drop of it at each return would be proved at each.
fn take_rest<const D: usize>(
    progress: &mut Progress<D>,
    alloc: Global,
    lines: &mut Pieces<'_>,
) -> Result<u64, DumpFault>
    requires axes { D ≤ 3 }
    requires short { length lines.old < 2 ^ 64 - 2 }
    ensures ended { IfOk result (ReadsUpTo lines.old progress.old lines.new progress.new) }
    ensures faulty { IfErr result (IsDumpFaultOf (read_rest lines.old progress.old 2)) }
{
    let mut number = 2u64;
    while let Some(line) = lines.next() {
        if lines.is_done() {
            return Err(DumpFault::At {
                line: number,
                fault: LineFault::Truncated,
            });
        }
        let is_end = is_at_end(progress);
        if let Err(fault) = take_line(progress, alloc, line) {
            return Err(fault.at(number));
        }
        if is_end {
            return Ok(number + 1);
        }
        number += 1;
    }
    Err(DumpFault::At {
        line: number,
        fault: LineFault::Truncated,
    })
}

/// What a header says.
#[derive(Clone, Copy)]
struct Heading {
    axes: u8,
    capacity: Capacity,
    root: i64,
    nodes: u64,
    rows: u64,
}

/// One to three axes.
fn axes_of(word: &[u8]) -> Option<u8>
    ensures { result ≡ axes_of word.now }
{
    let axes = byte_of(word)?;
    if axes >= 1 && axes <= 3 {
        Some(axes)
    } else {
        None
    }
}

/// A capacity from 5 to 51.
fn capacity_of(word: &[u8]) -> Option<Capacity>
    ensures { result ≡ capacity_of word.now }
{
    Capacity::new(byte_of(word)?)
}

/// What the words of a header say, whatever the kind before them.
fn heading_of(
    axes: &[u8],
    capacity: &[u8],
    root: &[u8],
    nodes: &[u8],
    rows: &[u8],
) -> Option<Heading>
    ensures { result ≡ header_of ([] ∷ axes.now ∷ capacity.now ∷ root.now ∷ nodes.now ∷ rows.now ∷ []) }
{
    let axes = axes_of(axes)?;
    let capacity = capacity_of(capacity)?;
    let root = positive_of(root)?;
    let nodes = count_of(nodes)?;
    let rows = count_of(rows)?;
    Some(Heading {
        axes,
        capacity,
        root,
        nodes,
        rows,
    })
}

/// What a header says, if its numbers are in range.
fn header_of(line: &[u8]) -> Option<Heading>
    ensures { result ≡ header_of (words line.now) }
{
    let mut words = Pieces::new(line, b' ');
    let _kind = words.next()?;
    let axes = words.next()?;
    let capacity = words.next()?;
    let root = words.next()?;
    let nodes = words.next()?;
    let rows = words.next()?;
    heading_of(axes, capacity, root, nodes, rows)
}

fn start<const D: usize>(alloc: Global, keys: RandomState, header: &Heading) -> Progress<D>
    requires some { 1 ≤ D }
    requires few { D ≤ 3 }
    ensures { result ≡ start D header.now }
{
    Progress {
        shadow: Shadow::new(alloc, keys, header.capacity, header.root),
        nodes: header.nodes,
        rows: header.rows,
        cells: 0,
    }
}

/// Reads the lines after a header.
fn read_rest<const D: usize>(
    alloc: Global,
    keys: RandomState,
    header: &Heading,
    lines: &mut Pieces<'_>,
) -> Result<Shadow<D>, DumpFault>
    requires some { 1 ≤ D }
    requires few { D ≤ 3 }
    requires short { length lines.old < 2 ^ 64 - 2 }
    ensures { Reads (read_rest lines.old (start D header.now) 2) result }
{
    let mut progress = start(alloc, keys, header);
    match take_rest(&mut progress, alloc, lines) {
        Ok(next) => read_end(progress.shadow, lines, next),
        Err(fault) => Err(fault),
    }
}

/// Reads the lines after a header, on as many axes as it says.
fn read_body(
    alloc: Global,
    keys: RandomState,
    header: &Heading,
    lines: &mut Pieces<'_>,
) -> Result<AnyShadow, DumpFault>
    requires { length lines.old < 2 ^ 64 - 2 }
    ensures { Reads (read_body header.now lines.old) result }
{
    match header.axes {
        1 => read_rest(alloc, keys, header, lines).map(AnyShadow::One),
        2 => read_rest(alloc, keys, header, lines).map(AnyShadow::Two),
        _ => read_rest(alloc, keys, header, lines).map(AnyShadow::Three),
    }
}

/// Reads what comes after the first line, if that is a header.
fn read_first(
    alloc: Global,
    keys: RandomState,
    line: &[u8],
    lines: &mut Pieces<'_>,
) -> Result<AnyShadow, DumpFault>
    requires { length lines.old < 2 ^ 64 - 2 }
    ensures { Reads (read_kind (kind_of None (words line.now)) (header_of (words line.now)) lines.old) result }
{
    let Some(kind) = kind_of(line, None) else {
        return Err(DumpFault::At {
            line: 1,
            fault: LineFault::BadLine,
        });
    };
    match kind {
        LineKind::Header => {}
        LineKind::Node | LineKind::Cell | LineKind::Row | LineKind::End => {
            return Err(DumpFault::At {
                line: 1,
                fault: LineFault::CountWrong,
            });
        }
    }
    match header_of(line) {
        Some(header) => read_body(alloc, keys, &header, lines),
        None => Err(DumpFault::At {
            line: 1,
            fault: LineFault::OutOfRange,
        }),
    }
}

/// Reads a dump: the shadow that the bytes are the text of, or the first faulty line. Memory is taken as
/// lines come, and none for counts alone. Numbers and ids are looked up by `keys`, which are to be random
/// if others choose the bytes.
///
/// ```text
/// let bytes = b"rtree 1 5 1 1 1\nnode 1 0 - 1\ncell 7 0 2\nrow 7 1\nend\n";
/// match read_dump(rt.alloc(), RandomState::new(&rt)?, bytes) {
///     Ok(shadow) => write_dump(&shadow, &mut writer)?,
///     Err(DumpFault::At { line, fault }) => println!(rt; "line {line}: {fault}")?,
///     Err(DumpFault::Memory) => println!(rt; "out of memory")?,
/// }
/// ```
pub fn read_dump(alloc: Global, keys: RandomState, bytes: &[u8]) -> Result<AnyShadow, DumpFault>
    ensures reads { Reads (read_text bytes.now) result }
    ensures same { IfOk result (λ shadow. IsTextOf shadow bytes.now) }
{
    let mut lines = Pieces::new(bytes, b'\n');
    let Some(line) = lines.next() else {
        return Err(DumpFault::At {
            line: 1,
            fault: LineFault::Truncated,
        });
    };
    if lines.is_done() {
        return Err(DumpFault::At {
            line: 1,
            fault: LineFault::Truncated,
        });
    }
    read_first(alloc, keys, line, &mut lines)
}
