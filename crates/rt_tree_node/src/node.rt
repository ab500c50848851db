//! A node: its level, its parent's key, and its cells.
//!
//! Numbers and boxes stand in two arrays, so that a search reads boxes alone. Contracts see one list of cells
//! (`specs/NodeInside.antt`).

ghost use Rattle.std.specs.Prelude.{◌≡◌, ◌≢◌, ℕ, pos, false, All, ◌+◌, ◌<◌, ◌≤◌, [], ◌∷◌, ◌++◌, map, length, slice_index_or, slice_set, remove};
ghost use Rattle.rt_box.specs.Capacity.{most_cells};
ghost use Rattle.rt_tree_node.specs.declared.cell.Cell.{Cell};
ghost use Rattle.rt_tree_node.specs.Places.{picked, number_at};

use crate::cell::Cell;
use crate::key::Key;
use arrayvec::ArrayVec;
use rt_box::{MOST_CELLS, Rect};
use std::alloc::AllocError;
use std::marker::Model;

/// A node of a tree: its level, its parent's key, and its cells.
#[derive(Drop)]
pub struct Node<const D: usize> {
    level: u8,
    parent: Option<Key>,
    numbers: ArrayVec<i64, MOST_CELLS>,
    boxes: ArrayVec<Rect<D>, MOST_CELLS, Rect<D>>,
}

// Clauses see the cells.
impl<const D: usize> Model for Node<D> {
    ghost use Rattle.rt_tree_node.specs.Node.{NodeCells};
    ghost use Rattle.rt_tree_node.specs.NodeInside.{node_of, IsPaired};

    ghost Value = { NodeCells D };

    ghost view = { node_of };

    ghost invariant = { IsPaired };
}

// A copy has the same cells.
impl<const D: usize> Clone for Node<D> {
    ghost is_clone = { λ node copy. copy ≡ node };

    fn clone(&self) -> Result<Self, AllocError> {
        Ok(Node {
            level: self.level,
            parent: self.parent,
            numbers: self.numbers.clone()?,
            boxes: self.boxes.clone()?,
        })
    }
}

// Two functions of their own, since a number behind a reference has its range, which proofs need, only once it is read.

/// Appends the number of a cell.
fn push_number(numbers: &mut ArrayVec<i64, MOST_CELLS>, number: &i64)
    requires { length numbers.old.items < most_cells }
    ensures { numbers.new.items ≡ numbers.old.items ++ number.now ∷ [] }
{
    numbers.push(*number);
}

/// Writes the number of the cell at a position.
fn set_number(numbers: &mut ArrayVec<i64, MOST_CELLS>, at: usize, number: &i64)
    requires { at < length numbers.old.items }
    ensures { numbers.new.items ≡ slice_set numbers.old.items at number.now }
{
    numbers[at] = *number;
}

/// The cell at a position of the numbers and of the boxes.
fn cell_in<const D: usize>(numbers: &[i64], boxes: &[Rect<D>], at: usize) -> Cell<D>
    requires number { at < length numbers.now }
    requires rect { at < length boxes.now }
    ensures number { result.number ≡ slice_index_or numbers.now at result.number }
    ensures rect { result.rect ≡ slice_index_or boxes.now at result.rect }
{
    let (number, rect) = (&numbers[at], &boxes[at]);
    Cell {
        number: *number,
        rect: *rect,
    }
}

/// Writes the box of the cell at a position.
fn set_rect<const D: usize>(
    boxes: &mut ArrayVec<Rect<D>, MOST_CELLS, Rect<D>>,
    at: usize,
    rect: &Rect<D>,
)
    requires { at < length boxes.old.items }
    ensures { boxes.new.items ≡ slice_set boxes.old.items at rect.now }
{
    rect.facts();
    boxes[at] = *rect;
}

impl<const D: usize> Node<D> {
    /// A node without cells; `rect` may be any box.
    pub fn new(level: u8, parent: Option<Key>, rect: &Rect<D>) -> Node<D>
        ensures { result ≡ record { level = level; parent = parent; cells = [] } }
    {
        rect.facts();
        Node {
            level,
            parent,
            numbers: ArrayVec::new(),
            boxes: ArrayVec::new_in(*rect),
        }
    }

    /// A law: it has at most `MOST_CELLS` cells. The call does nothing.
    #[inline]
    pub fn facts(&self)
        ensures { length self.now.cells ≤ most_cells }
    {
        let _ = self.len();
    }

    /// The level, from 0 at the leaves.
    #[inline]
    pub fn level(&self) -> u8
        ensures { result ≡ self.now.level }
    {
        self.level
    }

    /// The parent's key.
    #[inline]
    pub fn parent(&self) -> Option<Key>
        ensures { result ≡ self.now.parent }
    {
        self.parent
    }

    /// The number of cells.
    #[inline]
    pub fn len(&self) -> usize
        ensures value { result ≡ length self.now.cells }
        ensures few { result ≤ most_cells }
    {
        self.numbers.len()
    }

    /// The boxes of the cells.
    #[inline]
    pub fn boxes(&self) -> &[Rect<D>]
        ensures value { result.now ≡ map (λ c. c.rect) self.now.cells }
        ensures few { length self.now.cells ≤ most_cells }
    {
        self.boxes.as_slice()
    }

    /// The numbers of the cells.
    #[inline]
    pub fn numbers(&self) -> &[i64]
        ensures value { result.now ≡ map (λ c. c.number) self.now.cells }
        ensures few { length self.now.cells ≤ most_cells }
    {
        self.numbers.as_slice()
    }

    /// The cell at a position.
    #[inline]
    pub fn cell(&self, at: usize) -> Cell<D>
        requires { at < length self.now.cells }
        ensures { result ≡ slice_index_or self.now.cells at result }
    {
        cell_in(self.numbers.as_slice(), self.boxes.as_slice(), at)
    }

    /// Makes it the child of another node, or of none.
    pub fn set_parent(&mut self, parent: Option<Key>)
        ensures { self.new ≡ record self.old { parent = parent } }
    {
        self.parent = parent;
    }

    /// Appends a cell.
    pub fn add(&mut self, cell: &Cell<D>)
        requires { length self.old.cells < most_cells }
        ensures { self.new ≡ record self.old { cells = self.old.cells ++ cell.now ∷ [] } }
    {
        push_number(&mut self.numbers, &cell.number);
        self.boxes.push(cell.rect);
    }

    /// Puts another cell in the place of the one at a position.
    pub fn set(&mut self, at: usize, cell: &Cell<D>)
        requires { at < length self.old.cells }
        ensures { self.new ≡ record self.old { cells = slice_set self.old.cells at cell.now } }
    {
        set_number(&mut self.numbers, at, &cell.number);
        set_rect(&mut self.boxes, at, &cell.rect);
    }

    /// Takes out the cell at a position; the cells after it close up.
    pub fn remove(&mut self, at: usize)
        requires { at < length self.old.cells }
        ensures { self.new ≡ record self.old { cells = remove self.old.cells at } }
    {
        self.numbers.remove(at);
        self.boxes.remove(at);
    }

    /// A node of the same level and parent that has no cells.
    pub(crate) fn without_cells(&self) -> Node<D>
        requires { 1 ≤ length self.now.cells }
        ensures { result ≡ record self.now { cells = [] } }
    {
        Node::new(self.level(), self.parent(), &self.cell(0).rect)
    }

    /// Appends the cells of another node at some positions, in the order of the positions.
    pub(crate) fn add_from(&mut self, from: &Node<D>, positions: &[usize])
        requires within { All (λ p. p < length from.now.cells) positions.now }
        requires room { length self.old.cells + length positions.now ≤ most_cells }
        ensures { self.new ≡ record self.old { cells = self.old.cells ++ picked from.now.cells positions.now } }
    {
        for at in positions {
            self.add(&from.cell(*at));
        }
    }

    /// The position of the first cell with that number, or the number of cells if none has it.
    pub fn position(&self, number: &i64) -> usize
        ensures within { result ≤ length self.now.cells }
        ensures found { (d : Cell D) → result < length self.now.cells → number_at self.now.cells result d ≡ number.now }
        ensures first { (k : ℕ) (d : Cell D) → k < result → number_at self.now.cells k d ≢ number.now }
    {
        // Their count is read from the boxes, so that the cache line that a caller mostly needs next is on its way.
        let numbers = counted(self.numbers(), self.boxes().len());
        position_in(numbers, number)
    }
}

/// All the numbers, if the caller knows from elsewhere how many they are.
#[inline]
fn counted(numbers: &[i64], count: usize) -> &[i64]
    requires { count ≡ length numbers.now }
    ensures { result.now ≡ numbers.now }
{
    &numbers[..count]
}

/// How many numbers are compared at once.
const NUMBERS_TOGETHER: usize = 4;

/// Whether one of the four numbers at `from` and after it is this one. It has no branch, so that all are compared at once.
fn is_among_four(numbers: &[i64], number: &i64, from: usize) -> bool
    requires { from + 4 ≤ length numbers.now }
    ensures { result ≡ false → (k : ℕ) → k < 4 → slice_index_or numbers.now (from + k) (pos 0) ≢ number.now }
{
    let mut found = false;
    for offset in 0..NUMBERS_TOGETHER {
        found |= numbers[from + offset] == *number;
    }
    found
}

/// How many numbers can be skipped by fours, since the number isn't among them.
fn skip_fours(numbers: &[i64], number: &i64) -> usize
    ensures within { result ≤ length numbers.now }
    ensures none { (k : ℕ) → k < result → slice_index_or numbers.now k (pos 0) ≢ number.now }
{
    let mut skipped = 0;
    while numbers.len() - skipped >= NUMBERS_TOGETHER && !is_among_four(numbers, number, skipped) {
        skipped += NUMBERS_TOGETHER;
    }
    skipped
}

/// The position of the first such number, or the length if it isn't there.
fn position_in(numbers: &[i64], number: &i64) -> usize
    ensures within { result ≤ length numbers.now }
    ensures found { result < length numbers.now → slice_index_or numbers.now result (pos 0) ≡ number.now }
    ensures first { (k : ℕ) → k < result → slice_index_or numbers.now k (pos 0) ≢ number.now }
{
    for at in skip_fours(numbers, number)..numbers.len() {
        if numbers[at] == *number {
            return at;
        }
    }
    numbers.len()
}
