//! The cell that fits a node, the hull of its cells, found once for all of the cells that name the node.
//!
//! A cell holds all cells of a node exactly if it holds their hull, so C5 and C6 look at the hull alone
//! (`specs/Fits.antt`).

ghost use Rattle.std.specs.Prelude.{◌≡◌, ◌<◌, ◌≤◌, IfOk};
ghost use Rattle.std.specs.Option.{option_copied};
ghost use Rattle.rt_check.specs.Conditions.{node_of};
ghost use Rattle.rt_check.specs.Fits.{least_lo, greatest_hi, Fits, AllFit, FitsListed};

use crate::node::{NodeRow, RawCell};
use crate::shadow::Shadow;
use std::alloc::{AllocError, Global};

/// The least lo of a cell and others on that axis.
fn least_lo<const D: usize>(first: &RawCell<D>, others: &[RawCell<D>], axis: usize) -> i32
    requires { axis < D }
    ensures { result ≡ least_lo first.now others.now axis }
{
    let mut least = first.lo[axis];
    for cell in others {
        least = least.min(cell.lo[axis]);
    }
    least
}

/// The greatest hi of a cell and others on that axis.
fn greatest_hi<const D: usize>(first: &RawCell<D>, others: &[RawCell<D>], axis: usize) -> i32
    requires { axis < D }
    ensures { result ≡ greatest_hi first.now others.now axis }
{
    let mut greatest = first.hi[axis];
    for cell in others {
        greatest = greatest.max(cell.hi[axis]);
    }
    greatest
}

/// The hull of cells, with the number of the first; none if there are no cells.
fn fitting_cell<const D: usize>(cells: &[RawCell<D>]) -> Option<RawCell<D>>
    ensures { Fits cells.now result }
{
    let [first, others @ ..] = cells else {
        return None;
    };
    let mut fit = *first;
    for axis in 0..first.axes() {
        fit.lo[axis] = least_lo(first, others, axis);
        fit.hi[axis] = greatest_hi(first, others, axis);
    }
    Some(fit)
}

/// The cells that fit the nodes, in the order of the nodes.
pub(crate) fn fitting_cells<const D: usize>(
    alloc: Global,
    nodes: &[NodeRow<D>],
) -> Result<Vec<Option<RawCell<D>>>, AllocError>
    requires { D ≤ 3 }
    ensures { IfOk result (λ fits. AllFit nodes.now fits.items) }
{
    let mut fits = Vec::with_capacity(alloc, nodes.len())?;
    for node in nodes {
        fits.push(fitting_cell(node.cells.as_slice()))?;
    }
    Ok(fits)
}

/// The cell that fits the node that a cell names, if that is listed and has cells.
pub(crate) fn fit_of<'a, const D: usize>(
    shadow: &Shadow<D>,
    fits: &'a [Option<RawCell<D>>],
    cell: &RawCell<D>,
) -> Option<&'a RawCell<D>>
    requires { AllFit shadow.now.nodes fits.now }
    ensures { FitsListed (node_of shadow.now.nodes cell.now.number) (option_copied result) }
{
    match shadow.place_of(cell.number) {
        Some(place) => fits[place].as_ref(),
        None => None,
    }
}
