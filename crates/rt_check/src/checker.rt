//! The checker: the list of all problems of a shadow.
//!
//! Counts and hulls are found once for all nodes and handed to the tests, so no test goes through the whole
//! shadow. Problems come in the order of `problems_of` in `specs/Conditions.antt`.

ghost use Rattle.std.specs.Prelude.{◌≡◌, ◌++◌, IfOk, OnOk};
ghost use Rattle.rt_check.specs.Shadow.{numbers_of, ids_of};
ghost use Rattle.rt_check.specs.Conditions.{inner_cells, leaf_cells, root_problems, problems_of};
ghost use Rattle.rt_check.specs.ProblemLists.{place_problems, problems_in, problems_under, fill_problems, entry_problems};
ghost use Rattle.rt_check.specs.Fits.{AllFit};
ghost use Rattle.rt_check.specs.Tally.{tallies};

use crate::conditions::{CellCondition, has_place, has_root, is_filled, meets};
use crate::fits::fitting_cells;
use crate::node::{NodeRow, RawCell, RowEntry};
use crate::problem::{Condition, Problem};
use crate::shadow::Shadow;
use crate::tally::{Named, tally};
use std::alloc::{AllocError, Global};

fn node_problem<const D: usize>(condition: Condition, node: &NodeRow<D>, position: u64) -> Problem
    ensures { result ≡ record { condition = condition; node = node.now.number; position = position } }
{
    Problem {
        condition,
        node: node.number,
        position,
    }
}

/// Lists the problem of a root that isn't there, or has a parent.
fn list_root<const D: usize>(
    problems: &mut Vec<Problem>,
    shadow: &Shadow<D>,
) -> Result<(), AllocError>
    ensures { OnOk result (problems.new.items ≡ problems.old.items ++ root_problems shadow.now) }
{
    if has_root(shadow) {
        return Ok(());
    }
    problems.push(root_problem(shadow))?;
    Ok(())
}

fn root_problem<const D: usize>(shadow: &Shadow<D>) -> Problem
    ensures { result ≡ record { condition = Condition.HasRoot; node = shadow.now.root; position = 0 } }
{
    Problem {
        condition: Condition::HasRoot,
        node: shadow.root(),
        position: 0,
    }
}

fn row_problem(row: &RowEntry, position: u64) -> Problem
    ensures { result ≡ record { condition = Condition.HasCell; node = row.now.leaf; position = position } }
{
    Problem {
        condition: Condition::HasCell,
        node: row.leaf,
        position,
    }
}

/// Lists the problems of a node's cells under one condition.
fn list_cells_of<const D: usize>(
    problems: &mut Vec<Problem>,
    shadow: &Shadow<D>,
    fits: &[Option<RawCell<D>>],
    condition: CellCondition,
    node: &NodeRow<D>,
) -> Result<(), AllocError>
    requires { AllFit shadow.now.nodes fits.now }
    ensures { OnOk result (problems.new.items ≡ problems.old.items ++ problems_in shadow.now condition node.now) }
{
    for (index, cell) in node.cells.as_slice().iter().enumerate() {
        if meets(shadow, fits, condition, node, cell) {
            continue;
        }
        problems.push(node_problem(condition.condition(), node, index as u64 + 1))?;
    }
    Ok(())
}

/// Lists the problems of all cells under one condition.
fn list_cells<const D: usize>(
    problems: &mut Vec<Problem>,
    shadow: &Shadow<D>,
    fits: &[Option<RawCell<D>>],
    condition: CellCondition,
) -> Result<(), AllocError>
    requires { AllFit shadow.now.nodes fits.now }
    ensures { OnOk result (problems.new.items ≡ problems.old.items ++ problems_under shadow.now condition) }
{
    for node in shadow.nodes() {
        list_cells_of(problems, shadow, fits, condition, node)?;
    }
    Ok(())
}

/// Lists the nodes that aren't filled as they should be.
fn list_unfilled<const D: usize>(
    problems: &mut Vec<Problem>,
    shadow: &Shadow<D>,
) -> Result<(), AllocError>
    ensures { OnOk result (problems.new.items ≡ problems.old.items ++ fill_problems shadow.now) }
{
    for node in shadow.nodes() {
        if is_filled(shadow, node) {
            continue;
        }
        problems.push(node_problem(Condition::IsFilled, node, 0))?;
    }
    Ok(())
}

/// Lists the nodes that don't stand at their place.
///
/// `named` tells for each node how many cells of inner nodes name it; 2 stands for more.
fn list_misplaced<const D: usize>(
    problems: &mut Vec<Problem>,
    shadow: &Shadow<D>,
    named: &[u8],
) -> Result<(), AllocError>
    requires { named.now ≡ tallies (numbers_of shadow.now.nodes) (inner_cells shadow.now.nodes) }
    ensures { OnOk result (problems.new.items ≡ problems.old.items ++ place_problems shadow.now) }
{
    for (index, node) in shadow.nodes().iter().enumerate() {
        if has_place(shadow, node, named[index]) {
            continue;
        }
        problems.push(node_problem(Condition::HasPlace, node, 0))?;
    }
    Ok(())
}

/// Lists the row entries that don't have exactly one cell.
///
/// `named` tells for each entry how many cells of leaves name it; 2 stands for more.
fn list_rows<const D: usize>(
    problems: &mut Vec<Problem>,
    shadow: &Shadow<D>,
    named: &[u8],
) -> Result<(), AllocError>
    requires { named.now ≡ tallies (ids_of shadow.now.rows) (leaf_cells shadow.now.nodes) }
    ensures { OnOk result (problems.new.items ≡ problems.old.items ++ entry_problems shadow.now) }
{
    for (index, row) in shadow.rows().iter().enumerate() {
        if named[index] == 1 {
            continue;
        }
        problems.push(row_problem(row, index as u64 + 1))?;
    }
    Ok(())
}

/// Lists all problems of a shadow, each once: by condition, and then in the order of its lists.
/// The list is empty exactly if the shadow is sound.
///
/// ```
/// let keys = RandomState::new(&rt)?;
/// let capacity = Capacity::new(51).ok_or("a capacity")?;
/// let mut shadow: Shadow<2> = Shadow::new(rt.alloc(), keys, capacity, 1);
/// let root = NodeRow { number: 1, level: 0, parent: None, cells: Items::new(rt.alloc()) };
/// shadow.add_node(root)?;
/// shadow.add_cell(RawCell { number: 7, lo: [0, 0], hi: [3, 4] })?;
/// shadow.add_row(RowEntry { id: 7, leaf: 1 })?;
/// assert!(rt; check(rt.alloc(), &shadow)?.is_empty());
/// ```
pub fn check<const D: usize>(alloc: Global, shadow: &Shadow<D>) -> Result<Vec<Problem>, AllocError>
    ensures { IfOk result (λ problems. problems.items ≡ problems_of shadow.now) }
{
    let named = tally(alloc, shadow, Named::Nodes)?;
    let fits = fitting_cells(alloc, shadow.nodes())?;
    let fits = fits.as_slice();
    let mut problems = Vec::new(alloc);
    list_root(&mut problems, shadow)?;
    list_misplaced(&mut problems, shadow, named.as_slice())?;
    list_cells(&mut problems, shadow, fits, CellCondition::Names)?;
    list_cells(&mut problems, shadow, fits, CellCondition::Ordered)?;
    list_cells(&mut problems, shadow, fits, CellCondition::Holds)?;
    list_cells(&mut problems, shadow, fits, CellCondition::Fits)?;
    list_unfilled(&mut problems, shadow)?;
    list_cells(&mut problems, shadow, fits, CellCondition::Entered)?;
    let named = tally(alloc, shadow, Named::Rows)?;
    list_rows(&mut problems, shadow, named.as_slice())?;
    Ok(problems)
}
