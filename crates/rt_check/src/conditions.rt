//! The tests of the conditions C1 to C8, each of one node or one cell.
//!
//! Each has the name that its definition has in `specs/Conditions.antt`. C9 compares a count, which `checker`
//! does.

ghost use Rattle.std.specs.Prelude.{◌≡◌, ◌<◌, min, int_le};
ghost use Rattle.rt_check.specs.Conditions.{each_axis, coordinate, has_root, is_root, is_below, has_place, names_child, is_ordered, lies_in, holds_child, fits_child, is_filled, has_entry, times_named, inner_cells};
ghost use Rattle.rt_check.specs.ProblemLists.{meets_condition};
ghost use Rattle.rt_check.specs.Fits.{AllFit};

use crate::fits::fit_of;
use crate::node::{NodeRow, RawCell};
use crate::problem::Condition;
use crate::shadow::Shadow;

/// The conditions that speak of a cell.
#[derive(Clone, Copy)]
pub(crate) enum CellCondition {
    /// C3: the cell of an inner node names a listed node whose parent is this node.
    Names,
    /// C4: on each axis lo is at most hi.
    Ordered,
    /// C5: the cells of the node that the cell names lie in it.
    Holds,
    /// C6: the cell is the hull of the cells of the node that it names.
    Fits,
    /// C8: the cell of a leaf has a row entry with its id and this leaf.
    Entered,
}

impl CellCondition {
    ghost use Rattle.rt_check.specs.ProblemLists.{condition_of};

    /// The condition by its name among all.
    pub(crate) fn condition(self) -> Condition
        ensures { result ≡ condition_of self }
    {
        match self {
            CellCondition::Names => Condition::NamesChild,
            CellCondition::Ordered => Condition::IsOrdered,
            CellCondition::Holds => Condition::HoldsChild,
            CellCondition::Fits => Condition::FitsChild,
            CellCondition::Entered => Condition::HasEntry,
        }
    }
}

/// Whether the first coordinate on that axis is at most the second.
fn is_at_most_on<const D: usize>(low: &[i32; D], high: &[i32; D], axis: usize) -> bool
    requires { axis < D }
    ensures { result ≡ int_le (coordinate low.now axis) (coordinate high.now axis) }
{
    low[axis] <= high[axis]
}

/// Whether on each axis the first coordinate is at most the second.
fn are_at_most<const D: usize>(low: &[i32; D], high: &[i32; D]) -> bool
    ensures { result ≡ each_axis (λ axis. int_le (coordinate low.now axis) (coordinate high.now axis)) D }
{
    for axis in 0..D {
        if !is_at_most_on(low, high, axis) {
            return false;
        }
    }
    true
}

/// C4: on each axis lo is at most hi.
fn is_ordered<const D: usize>(cell: &RawCell<D>) -> bool
    ensures { result ≡ is_ordered cell.now }
{
    are_at_most(&cell.lo, &cell.hi)
}

/// Whether on each axis the inner cell's range lies within the outer one's.
fn lies_in<const D: usize>(inner: &RawCell<D>, outer: &RawCell<D>) -> bool
    ensures { result ≡ lies_in inner.now outer.now }
{
    are_at_most(&outer.lo, &inner.lo) && are_at_most(&inner.hi, &outer.hi)
}

/// C3: the cell names a listed node whose parent is this node.
fn names_child<const D: usize>(shadow: &Shadow<D>, node: &NodeRow<D>, cell: &RawCell<D>) -> bool
    ensures { result ≡ names_child shadow.now node.now cell.now }
{
    match shadow.node(cell.number) {
        Some(child) => child.parent == Some(node.number),
        None => false,
    }
}

/// C5: the cells of the node that the cell names lie in it.
fn holds_child<const D: usize>(
    shadow: &Shadow<D>,
    fits: &[Option<RawCell<D>>],
    cell: &RawCell<D>,
) -> bool
    requires { AllFit shadow.now.nodes fits.now }
    ensures { result ≡ holds_child shadow.now cell.now }
{
    match fit_of(shadow, fits, cell) {
        Some(fit) => lies_in(fit, cell),
        None => true,
    }
}

/// C6: the cell is the hull of the cells of the node that it names.
fn fits_child<const D: usize>(
    shadow: &Shadow<D>,
    fits: &[Option<RawCell<D>>],
    cell: &RawCell<D>,
) -> bool
    requires { AllFit shadow.now.nodes fits.now }
    ensures { result ≡ fits_child shadow.now cell.now }
{
    match fit_of(shadow, fits, cell) {
        Some(fit) => lies_in(fit, cell) && lies_in(cell, fit),
        None => true,
    }
}

/// C8: the cell has a row entry with its id and this node as leaf.
fn has_entry<const D: usize>(shadow: &Shadow<D>, node: &NodeRow<D>, cell: &RawCell<D>) -> bool
    ensures { result ≡ has_entry shadow.now node.now cell.now }
{
    match shadow.row(cell.number) {
        Some(row) => row.leaf == node.number,
        None => false,
    }
}

/// Whether a cell of a node meets the condition.
///
/// `fits` has for each node of the shadow the cell that fits it.
pub(crate) fn meets<const D: usize>(
    shadow: &Shadow<D>,
    fits: &[Option<RawCell<D>>],
    condition: CellCondition,
    node: &NodeRow<D>,
    cell: &RawCell<D>,
) -> bool
    requires { AllFit shadow.now.nodes fits.now }
    ensures { result ≡ meets_condition shadow.now condition node.now cell.now }
{
    let is_leaf = node.level == 0;
    match condition {
        CellCondition::Names => is_leaf || names_child(shadow, node, cell),
        CellCondition::Ordered => is_ordered(cell),
        CellCondition::Holds => is_leaf || holds_child(shadow, fits, cell),
        CellCondition::Fits => is_leaf || fits_child(shadow, fits, cell),
        CellCondition::Entered => !is_leaf || has_entry(shadow, node, cell),
    }
}

/// C1: the root's number is listed, without a parent.
pub(crate) fn has_root<const D: usize>(shadow: &Shadow<D>) -> bool
    ensures { result ≡ has_root shadow.now }
{
    match shadow.node(shadow.root()) {
        Some(root) => root.parent.is_none(),
        None => false,
    }
}

/// Whether the node is the one with the root's number.
fn is_root<const D: usize>(shadow: &Shadow<D>, node: &NodeRow<D>) -> bool
    ensures { result ≡ is_root shadow.now node.now }
{
    node.number == shadow.root()
}

/// Whether the node's parent is listed, on the next level.
fn is_below<const D: usize>(shadow: &Shadow<D>, node: &NodeRow<D>) -> bool
    ensures { result ≡ is_below shadow.now node.now node.now.parent }
{
    let Some(number) = node.parent else {
        return false;
    };
    match shadow.node(number) {
        Some(parent) => u16::from(parent.level) == u16::from(node.level) + 1,
        None => false,
    }
}

/// C2: the node is the root, or stands below its parent and is named once.
///
/// `named` is how many cells of inner nodes name it; 2 stands for more.
pub(crate) fn has_place<const D: usize>(shadow: &Shadow<D>, node: &NodeRow<D>, named: u8) -> bool
    requires { named ≡ min 2 (times_named node.now.number (inner_cells shadow.now.nodes)) }
    ensures { result ≡ has_place shadow.now node.now }
{
    is_root(shadow, node) || (is_below(shadow, node) && named == 1)
}

/// C7: the node has at most as many cells as the capacity, and its least number of them.
pub(crate) fn is_filled<const D: usize>(shadow: &Shadow<D>, node: &NodeRow<D>) -> bool
    ensures { result ≡ is_filled shadow.now node.now }
{
    let capacity = shadow.capacity();
    let least = if !is_root(shadow, node) {
        capacity.least()
    } else if node.level == 0 {
        0
    } else {
        2
    };
    node.cells.len() <= capacity.greatest() && least <= node.cells.len()
}
