//! Joins: the pairs of rows whose boxes touch.
//!
//! A stack holds the pairs of nodes that are due. Of the two nodes that come next, that of the higher level is opened
//! against the other; the rows of two leaves are compared.

ghost use Rattle.std.specs.Prelude.{◌≡◌, ◌^◌, ◌<◌, ◌≤◌, ◌++◌, [], drop, length, All, IfOk, OnOk};
ghost use Rattle.rt_tree_node.specs.Whole.{IsWhole};
ghost use Rattle.rt_tree_join.specs.Join.{Joins};
ghost use Rattle.rt_tree_join.specs.Itself.{in_order};
ghost use Rattle.rt_tree_join.specs.Due.{IsDue, StartsWith, GoesOn, PairsDue, AreHeld, PairsLeaves, pair_of_ids, pairs_of_row, pairs_picked};

use crate::due::{Due, Side, Subtree, open};
use crate::touching::touching_cells;
use rt_box::Rect;
use rt_tree_node::{Arena, Cell, Node, node_at};
use std::alloc::{AllocError, Global};
use std::mem;

/// Two rows, one of each tree.
#[derive(Clone, Copy, Debug, PartialEq, Eq)]
pub struct Pair {
    /// The id of the left tree's row.
    pub left: i64,
    /// The id of the right tree's row.
    pub right: i64,
}

impl Pair {
    /// A row of one tree, and one of the other.
    #[inline]
    fn of(side: Side, row: i64, other: i64) -> Pair
        ensures { result ≡ pair_of_ids side row other }
    {
        match side {
            Side::Left => Pair {
                left: row,
                right: other,
            },
            Side::Right => Pair {
                left: other,
                right: row,
            },
        }
    }

    /// The pair with the lower id on the left.
    #[inline]
    pub(crate) fn in_order(self) -> Pair
        ensures { result ≡ in_order self }
    {
        if self.right < self.left {
            return Pair {
                left: self.right,
                right: self.left,
            };
        }
        self
    }
}

/// Pairs a row of one tree with the rows of a leaf of the other from a place on whose boxes touch its box.
pub(crate) fn pair_row<const D: usize>(
    pairs: &mut Vec<Pair>,
    side: Side,
    row: &Cell<D>,
    leaf: &Node<D>,
    from: usize,
) -> Result<(), AllocError>
    requires { from ≤ length leaf.now.cells }
    ensures { OnOk result (pairs.new.items ≡ pairs.old.items ++ pairs_of_row side (drop from leaf.now.cells) row.now) }
{
    let bits = touching_cells(leaf, from, &row.rect);
    pairs.reserve(bits.count_ones() as usize)?;
    let alloc = *pairs.allocator();
    let mut list = mem::replace(pairs, Vec::new(alloc));
    let mut rest = bits;
    while rest != 0 {
        let other = leaf.cell(from + rest.trailing_zeros() as usize);
        list.push_reserved(Pair::of(side, row.number, other.number));
        rest &= rest - 1;
    }
    *pairs = list;
    Ok(())
}

/// Pairs the rows of those cells of a leaf whose bits are set with the rows of a leaf of the other tree.
fn pair_rows<const D: usize>(
    pairs: &mut Vec<Pair>,
    side: Side,
    leaf: &Node<D>,
    bits: u64,
    other: &Node<D>,
) -> Result<(), AllocError>
    requires { bits < 2 ^ length leaf.now.cells }
    ensures { OnOk result (pairs.new.items ≡ pairs.old.items ++ pairs_picked side other.now.cells leaf.now.cells bits) }
{
    leaf.facts();
    let mut rest = bits;
    while rest != 0 {
        let row = leaf.cell(rest.trailing_zeros() as usize);
        pair_row(pairs, side, &row, other, 0)?;
        rest &= rest - 1;
    }
    Ok(())
}

/// Pairs the rows of two leaves. Of either leaf only those rows can have a partner that touch the box around the other; each
/// of the fewer ones is then compared with the rows of the other leaf.
fn pair_leaves<const D: usize>(
    pairs: &mut Vec<Pair>,
    left: &Node<D>,
    left_rect: &Rect<D>,
    right: &Node<D>,
    right_rect: &Rect<D>,
) -> Result<(), AllocError>
    requires left { AreHeld left_rect.now left.now.cells }
    requires right { AreHeld right_rect.now right.now.cells }
    ensures { OnOk result (PairsLeaves left.now.cells right.now.cells pairs.old pairs.new) }
{
    let rows = touching_cells(left, 0, right_rect);
    let others = touching_cells(right, 0, left_rect);
    if rows.count_ones() <= others.count_ones() {
        return pair_rows(pairs, Side::Left, left, rows, right);
    }
    pair_rows(pairs, Side::Right, right, others, left)
}

/// Takes the two nodes that come next: opens that of the higher level, or pairs the rows of two leaves.
fn visit<const D: usize>(
    pairs: &mut Vec<Pair>,
    due: &mut Vec<Due<D>>,
    left: &Arena<D>,
    right: &Arena<D>,
    next: &Due<D>,
) -> Result<(), AllocError>
    requires left_whole { IsWhole left.now }
    requires left_settled { left.now.pending.items ≡ [] }
    requires right_whole { IsWhole right.now }
    requires right_settled { right.now.pending.items ≡ [] }
    requires few { D ≤ 3 }
    requires due { IsDue left.now right.now next.now }
    ensures { OnOk result (GoesOn left.now right.now next.now pairs.old pairs.new due.old due.new) }
{
    if next.left.level < next.right.level {
        let node = node_at(&right.nodes, next.right.key);
        return open(due, Side::Right, node, 0, &next.left);
    }
    let node = node_at(&left.nodes, next.left.key);
    if next.left.level > 0 {
        return open(due, Side::Left, node, 0, &next.right);
    }
    let other = node_at(&right.nodes, next.right.key);
    pair_leaves(pairs, node, &next.left.rect, other, &next.right.rect)
}

/// What is due at first: the two roots, unless a tree has no rows.
fn first_due<const D: usize>(
    alloc: Global,
    left: &Arena<D>,
    right: &Arena<D>,
) -> Result<Vec<Due<D>>, AllocError>
    requires left_whole { IsWhole left.now }
    requires left_settled { left.now.pending.items ≡ [] }
    requires right_whole { IsWhole right.now }
    requires right_settled { right.now.pending.items ≡ [] }
    requires few { D ≤ 3 }
    ensures { IfOk result (λ due. StartsWith left.now right.now due.items) }
{
    let mut due = Vec::new(alloc);
    let Some(first) = Subtree::root(left) else {
        return Ok(due);
    };
    let Some(second) = Subtree::root(right) else {
        return Ok(due);
    };
    due.push(Due {
        left: first,
        right: second,
    })?;
    Ok(due)
}

/// Pairs the rows below the pairs of nodes that are due, until none is.
pub(crate) fn pair_due<const D: usize>(
    pairs: &mut Vec<Pair>,
    due: &mut Vec<Due<D>>,
    left: &Arena<D>,
    right: &Arena<D>,
) -> Result<(), AllocError>
    requires left_whole { IsWhole left.now }
    requires left_settled { left.now.pending.items ≡ [] }
    requires right_whole { IsWhole right.now }
    requires right_settled { right.now.pending.items ≡ [] }
    requires few { D ≤ 3 }
    requires due { All (IsDue left.now right.now) due.old.items }
    ensures pairs { OnOk result (PairsDue left.now right.now due.old pairs.old pairs.new) }
    ensures done { OnOk result (due.new.items ≡ []) }
{
    while let Some(next) = due.pop() {
        visit(pairs, due, left, right, &next)?;
    }
    Ok(())
}

/// The pairs of rows, one of each tree, whose boxes touch: each pair once, in no stated order.
///
/// It looks at the pairs of nodes whose boxes touch, from the roots down, and at no others.
///
/// # Errors
///
/// `AllocError` if no memory is left for the pairs, or for the list of the pairs of nodes that are due.
pub fn join<const D: usize>(
    alloc: Global,
    left: &Arena<D>,
    right: &Arena<D>,
) -> Result<Vec<Pair>, AllocError>
    requires left_whole { IsWhole left.now }
    requires left_settled { left.now.pending.items ≡ [] }
    requires right_whole { IsWhole right.now }
    requires right_settled { right.now.pending.items ≡ [] }
    requires few { D ≤ 3 }
    ensures { IfOk result (λ pairs. Joins left.now right.now pairs.items) }
{
    let mut pairs = Vec::new(alloc);
    let mut due = first_due(alloc, left, right)?;
    pair_due(&mut pairs, &mut due, left, right)?;
    Ok(pairs)
}
