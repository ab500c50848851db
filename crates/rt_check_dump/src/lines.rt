//! The lines of a dump, by their spelling and by what they say.
//!
//! Spelling comes first, and `kind_of` takes numbers of any size. Then `node_head`, `raw_cell` and `row_entry`
//! return `None` if a number is out of range (`specs/Lines.antt`).

ghost use Rattle.std.specs.Prelude.{◌≡◌, ◌≤◌, [], ◌∷◌, codes, drop, IfSome, OnSome};
ghost use Rattle.rt_check_dump.specs.Lines.{are_numbers, words, is_plain, is_parent, is_node, is_cell, kind_of, node_head, row_entry, first_range, ranges_of, raw_cell};

use crate::numbers::{
    byte_of, coordinate_of, count_of, is_number, number_of, parent_of, positive_of,
};
use crate::pieces::Pieces;
use rt_check::{RawCell, RowEntry};

/// The five kinds of lines.
#[derive(Clone, Copy, PartialEq, Eq)]
pub(crate) enum LineKind {
    /// The shadow's line, which is the first.
    Header,
    /// A node's line.
    Node,
    /// A cell's line.
    Cell,
    /// A row entry's line.
    Row,
    /// The last line.
    End,
}

/// What a node's line says.
#[derive(Clone, Copy)]
pub(crate) struct NodeHead {
    pub(crate) number: i64,
    pub(crate) level: u8,
    pub(crate) parent: Option<i64>,
    pub(crate) cells: u64,
}

/// Whether exactly `count` words are left, all of them numbers.
fn are_numbers(words: &mut Pieces<'_>, count: usize) -> bool
    ensures { result ≡ are_numbers count words.old }
{
    for _turn in 0..count {
        let Some(word) = words.next() else {
            return false;
        };
        if !is_number(word) {
            return false;
        }
    }
    words.is_done()
}

fn is_plain(line: &[u8], kind: &[u8], count: usize) -> bool
    ensures { result ≡ is_plain kind.now count (words line.now) }
{
    let mut words = Pieces::new(line, b' ');
    match words.next() {
        Some(word) => word == kind && are_numbers(&mut words, count),
        None => false,
    }
}

fn is_parent(word: &[u8]) -> bool
    ensures { result ≡ is_parent word.now }
{
    word == b"-".as_slice() || is_number(word)
}

fn is_node(line: &[u8]) -> bool
    ensures { result ≡ is_node (words line.now) }
{
    let mut words = Pieces::new(line, b' ');
    let Some(kind) = words.next() else {
        return false;
    };
    let Some(number) = words.next() else {
        return false;
    };
    let Some(level) = words.next() else {
        return false;
    };
    let Some(parent) = words.next() else {
        return false;
    };
    kind == b"node".as_slice()
        && is_number(number)
        && is_number(level)
        && is_parent(parent)
        && are_numbers(&mut words, 1)
}

/// Whether the line is a cell's, on `axes` axes if their number is known.
fn is_cell(line: &[u8], axes: Option<usize>) -> bool
    requires { IfSome axes (λ count. count ≤ 3) }
    ensures { result ≡ is_cell axes (words line.now) }
{
    match axes {
        Some(axes) => is_plain(line, b"cell", 1 + 2 * axes),
        None => {
            is_plain(line, b"cell", 3) || is_plain(line, b"cell", 5) || is_plain(line, b"cell", 7)
        }
    }
}

/// The kind of a line by its spelling. Before the header has told the number of axes, a cell may have
/// one, two or three.
pub(crate) fn kind_of(line: &[u8], axes: Option<usize>) -> Option<LineKind>
    requires { IfSome axes (λ count. count ≤ 3) }
    ensures { result ≡ kind_of axes (words line.now) }
{
    if is_plain(line, b"rtree", 5) {
        return Some(LineKind::Header);
    }
    if is_node(line) {
        return Some(LineKind::Node);
    }
    if is_cell(line, axes) {
        return Some(LineKind::Cell);
    }
    if is_plain(line, b"row", 2) {
        return Some(LineKind::Row);
    }
    if is_plain(line, b"end", 0) {
        return Some(LineKind::End);
    }
    None
}

/// What the words of a node's line say, whatever the kind before them.
fn head_of(number: &[u8], level: &[u8], parent: &[u8], cells: &[u8]) -> Option<NodeHead>
    ensures { result ≡ node_head ([] ∷ number.now ∷ level.now ∷ parent.now ∷ cells.now ∷ []) }
{
    let number = positive_of(number)?;
    let level = byte_of(level)?;
    let parent = parent_of(parent)?;
    let cells = count_of(cells)?;
    Some(NodeHead {
        number,
        level,
        parent,
        cells,
    })
}

/// What a node's line says, if its numbers are in range.
pub(crate) fn node_head(line: &[u8]) -> Option<NodeHead>
    ensures { result ≡ node_head (words line.now) }
{
    let mut words = Pieces::new(line, b' ');
    let _kind = words.next()?;
    let number = words.next()?;
    let level = words.next()?;
    let parent = words.next()?;
    let cells = words.next()?;
    head_of(number, level, parent, cells)
}

/// What a row's line says, if its numbers are in range.
pub(crate) fn row_entry(line: &[u8]) -> Option<RowEntry>
    ensures { result ≡ row_entry (words line.now) }
{
    let mut words = Pieces::new(line, b' ');
    let _kind = words.next()?;
    let id = words.next()?;
    let leaf = words.next()?;
    let id = number_of(id)?;
    let leaf = positive_of(leaf)?;
    Some(RowEntry { id, leaf })
}

/// The ends of a range on one axis.
#[derive(Clone, Copy)]
struct Range {
    lo: i32,
    hi: i32,
}

/// Takes two words for the ends of a range.
fn first_range(words: &mut Pieces<'_>) -> Option<Range>
    ensures value { result ≡ first_range words.old }
    ensures rest { OnSome result (words.new ≡ drop 2 words.old) }
{
    let lo = words.next()?;
    let hi = words.next()?;
    let lo = coordinate_of(lo)?;
    let hi = coordinate_of(hi)?;
    Some(Range { lo, hi })
}

/// The ranges of the words that are left: each lo, and each hi.
fn ranges_of<const D: usize>(words: &mut Pieces<'_>) -> Option<([i32; D], [i32; D])>
    ensures { result ≡ ranges_of D words.old }
{
    let mut lo = [0i32; D];
    let mut hi = [0i32; D];
    for axis in 0..D {
        let range = first_range(words)?;
        lo[axis] = range.lo;
        hi[axis] = range.hi;
    }
    Some((lo, hi))
}

/// What a cell's line says, if its numbers are in range.
pub(crate) fn raw_cell<const D: usize>(line: &[u8]) -> Option<RawCell<D>>
    ensures { result ≡ raw_cell D (words line.now) }
{
    let mut words = Pieces::new(line, b' ');
    let _kind = words.next()?;
    let number = words.next()?;
    let number = number_of(number)?;
    let (lo, hi) = ranges_of(&mut words)?;
    Some(RawCell { number, lo, hi })
}
